// The rounds, in both directions.
ghost use Rattle.std.specs.Prelude.{◌≡◌};
ghost use Rattle.present.specs.Steps.{run, run_back};

use crate::back::unlayered;
use crate::layers::layered;

// A round for each of the round keys behind the first.
pub fn rounds_of(later: &[u64; 31], x: u64) -> u64
    ensures { result ≡ run later.now x }
{
    later.iter().fold(x, |y, k| layered(y) ^ *k)
}

// The same rounds undone, the last first.
pub fn rounds_back(later: &[u64; 31], x: u64) -> u64
    ensures { result ≡ run_back later.now x }
{
    later.iter().rev().fold(x, |y, k| unlayered(y ^ *k))
}
