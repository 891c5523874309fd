// DES on a block: the initial permutation, the rounds, the inverse permutation.
ghost use Rattle.std.specs.Prelude.{◌≡◌, ℕ, ◌/◌, ◌%◌, ◌^◌, ◌<◌, map, bit_xor};
ghost use Rattle.std.specs.Int.Bits.{bit_and};
ghost use Rattle.bits.specs.Permute.{permute};
ghost use Rattle.tripledes.specs.Des.{f, rounds};
ghost use Rattle.tripledes.specs.Round.{boxed, odds, evens, held};
ghost use Rattle.tripledes.specs.Schedules.{passes};
ghost use Rattle.tripledes.specs.Tables.{IP, FP};

use crate::sp::looked_up;
use bits::{exchanged, octets_of, value_of};

// The initial permutation.
fn initial(x: u64) -> u64
    ensures { result ≡ permute 64 IP x }
{
    let a = exchanged(x, 3, 0x1111_1111_1111_1111);
    let b = exchanged(a, 6, 0x0303_0303_0303_0303);
    let c = exchanged(b, 9, 0x0055_0055_0055_0055);
    let d = exchanged(c, 18, 0x0000_3333_0000_3333);
    exchanged(d, 36, 0x0000_0000_0f0f_0f0f)
}

// Its inverse: the same exchanges from the last to the first.
fn inverse(x: u64) -> u64
    ensures { result ≡ permute 64 FP x }
{
    let a = exchanged(x, 36, 0x0000_0000_0f0f_0f0f);
    let b = exchanged(a, 18, 0x0000_3333_0000_3333);
    let c = exchanged(b, 9, 0x0055_0055_0055_0055);
    let d = exchanged(c, 6, 0x0303_0303_0303_0303);
    exchanged(d, 3, 0x1111_1111_1111_1111)
}

// The six bits that begin each byte are the inputs of S1, S3, S5 and S7.
fn odd_word(r: u32, key: u64) -> u32
    ensures { result ≡ bit_xor (odds r) (key / 2 ^ 32) }
{
    (r >> 1) ^ (r << 31) ^ (key >> 32) as u32
}

// The six bits that begin each byte are the inputs of S2, S4, S6 and S8.
fn even_word(r: u32, key: u64) -> u32
    ensures { result ≡ bit_xor (evens r) (key % 2 ^ 32) }
{
    (r << 3) ^ (r >> 29) ^ (key & 0xffff_ffff) as u32
}

// What one of S1 to S8 gives, through P, for the six bits of the word at a place.
fn part(s: usize, word: u32, place: u32) -> u32
    requires { (s < 8) × (place < 32) }
    ensures { result ≡ boxed s (word / 2 ^ place % 64) }
{
    looked_up(s, ((word >> place) & 63) as usize)
}

// The cipher function. The eight parts have no bit in common, so `|` and `^` join them alike; a tree of both is worked out
// sooner than a row of one.
fn mixed(r: u32, key: u64) -> u32
    ensures { result ≡ f r (held key) }
{
    let odd = odd_word(r, key);
    let even = even_word(r, key);
    let first = part(0, odd, 26) | part(1, even, 26);
    let second = part(2, odd, 18) | part(3, even, 18);
    let third = part(4, odd, 10) | part(5, even, 10);
    let fourth = part(6, odd, 2) | part(7, even, 2);
    (first ^ second) ^ (third ^ fourth)
}

// The rounds under a list of round keys.
fn pass(keys: &[u64; 16], block: u64) -> u64
    ensures { result ≡ rounds (map held keys.now) (block / 2 ^ 32) (block % 2 ^ 32) }
{
    let mut left = (block >> 32) as u32;
    let mut right = (block & 0xffff_ffff) as u32;
    for key in keys {
        let next = left ^ mixed(right, *key);
        left = right;
        right = next;
    }
    ((right as u64) << 32) + left as u64
}

// Three passes of DES over a block. Between two passes the inverse permutation and the initial one cancel, so neither is made.
pub fn crypted(first: &[u64; 16], second: &[u64; 16], third: &[u64; 16], block: &[u8; 8]) -> [u8; 8]
    ensures { result ≡ passes (map held first.now) (map held second.now) (map held third.now) block.now }
{
    let start = initial(value_of(block));
    octets_of(inverse(pass(third, pass(second, pass(first, start)))))
}
