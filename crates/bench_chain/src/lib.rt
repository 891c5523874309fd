// A block enciphered many times over, for a C host to measure.
#![tactic(auto)]

ghost use Rattle.std.specs.Prelude.{◌≡◌};
ghost use Rattle.bench_chain.specs.Chain.{times, Chained};

use cipher::Cipher;

// The block enciphered `count` times under one key.
#[tactic(auto, unfolding(crate::specs::Chain::times))]
fn chained<C: Cipher>(key: &[u8; 16], start: [u8; 8], count: u32) -> [u8; 8]
    ensures { result ≡ times count (C.algorithm.enc key.now) start }
{
    let keys = C::expand(key);
    let mut block = start;
    for i in 0..count {
        block = C::encipher(&keys, &block);
    }
    block
}

// Enciphers a block of eight bytes in place, `count` times, under a key of sixteen. Answers 0, or 10 where a length is wrong,
// and then the block stays: C tells the two by these numbers.
pub fn chain<C: Cipher>(key: &[u8], block: &mut [u8], count: u32) -> u32
    ensures { Chained C.algorithm.enc key.now block.old count block.new result }
{
    let (Ok(key), Ok(start)) = (<[u8; 16]>::try_from(key), <[u8; 8]>::try_from(&*block)) else {
        return 10;
    };
    block.copy_from_slice(&chained::<C>(&key, start, count));
    0
}
