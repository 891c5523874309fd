// Triple DES for a C host to measure.
#![tactic(auto)]

ghost use Rattle.bench_chain.specs.Chain.{Chained};
ghost use Rattle.tripledes.specs.TripleDes.{encipher};

use bench_chain::chain;
use tripledes::TripleDes;

// Enciphers a block of eight bytes in place, `count` times, under a key of sixteen. Answers 0, or 10 where a length is wrong,
// and then the block stays.
#[unsafe(no_mangle)]
pub extern "C" fn tripledes_chain(key: &[u8], block: &mut [u8], count: u32) -> u32
    ensures { Chained encipher key.now block.old count block.new result }
{
    chain::<TripleDes>(key, block, count)
}
