// The ciphers for a C host to measure. Each call enciphers a block of eight bytes in place, `count` times, under a key of sixteen;
// it answers 0, or 10 where a length is wrong, and then the block stays.
#![tactic(auto)]

ghost use Rattle.bench_chain.specs.Chain.{Chained};
ghost use Rattle.present.specs.Present as present;
ghost use Rattle.tripledes.specs.TripleDes as tripledes;

use bench_chain::chain;
use present::Present;
use tripledes::TripleDes;

#[unsafe(no_mangle)]
pub extern "C" fn tripledes_chain(key: &[u8], block: &mut [u8], count: u32) -> u32
    ensures { Chained tripledes.encipher key.now block.old count block.new result }
{
    chain::<TripleDes>(key, block, count)
}

#[unsafe(no_mangle)]
pub extern "C" fn present_chain(key: &[u8], block: &mut [u8], count: u32) -> u32
    ensures { Chained present.encipher key.now block.old count block.new result }
{
    chain::<Present>(key, block, count)
}
