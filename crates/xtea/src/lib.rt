// XTEA as a block cipher: a small cipher from which one's own can be copied.
#![tactic(auto)]

ghost use Rattle.std.specs.Prelude.{◌≡◌, refl, ◌<◌};
ghost use Rattle.xtea.specs.Xtea.{cycle, cycles, decipher, deciphering, encipher, enciphering, first_key, halves, identifier, joined, mix, second_key, sum, uncycle, uncycles, words_of};
ghost use Rattle.xtea.specs.Cycles.{cycles_small, cycles_undone, uncycles_small, cycles_redone};
ghost use Rattle.xtea.specs.Blocks.{over_blocks, bytes_joined};

use bits::{octets_of, value_of};
use cipher::{Cipher, halves};

const DELTA: u32 = 0x9E37_79B9;

const CYCLES: u32 = 32;

// The name by which the cipher is chosen.
pub struct Xtea;

// The two words of eight bytes.
fn halves_of(block: &[u8; 8]) -> (u32, u32)
    ensures { result ≡ halves block.now }
{
    let x = value_of(block);
    ((x >> 32) as u32, (x % 0x1_0000_0000) as u32)
}

// The eight bytes of two words.
fn block_of(halves: (u32, u32)) -> [u8; 8]
    ensures { result ≡ joined halves }
{
    octets_of(halves.0 as u64 * 0x1_0000_0000 + halves.1 as u64)
}

fn sum_of(n: u32) -> u32
    ensures { result ≡ sum n }
{
    n.wrapping_mul(DELTA)
}

// A half as it goes into the other.
fn mixed(half: u32, key: u32) -> u32
    ensures { result ≡ mix half key }
{
    ((half << 4) ^ (half >> 5)).wrapping_add(half) ^ key
}

fn first_key(words: &[u32; 4], n: u32) -> u32
    ensures { result ≡ first_key words.now n }
{
    let sum = sum_of(n);
    sum.wrapping_add(words[(sum % 4) as usize])
}

fn second_key(words: &[u32; 4], n: u32) -> u32
    requires { n < 32 }
    ensures { result ≡ second_key words.now n }
{
    let sum = sum_of(n + 1);
    sum.wrapping_add(words[((sum >> 11) % 4) as usize])
}

fn cycled(words: &[u32; 4], n: u32, halves: (u32, u32)) -> (u32, u32)
    requires { n < 32 }
    ensures { result ≡ cycle words.now n halves }
{
    let left = halves.0.wrapping_add(mixed(halves.1, first_key(words, n)));
    let right = halves.1.wrapping_add(mixed(left, second_key(words, n)));
    (left, right)
}

fn uncycled(words: &[u32; 4], n: u32, halves: (u32, u32)) -> (u32, u32)
    requires { n < 32 }
    ensures { result ≡ uncycle words.now n halves }
{
    let right = halves.1.wrapping_sub(mixed(halves.0, second_key(words, n)));
    let left = halves.0.wrapping_sub(mixed(right, first_key(words, n)));
    (left, right)
}

fn all_cycled(words: &[u32; 4], start: (u32, u32)) -> (u32, u32)
    ensures { result ≡ cycles words.now 32 start }
{
    let mut halves = start;
    for n in 0..CYCLES {
        halves = cycled(words, n, halves);
    }
    halves
}

// From the last cycle to the first.
fn all_uncycled(words: &[u32; 4], start: (u32, u32)) -> (u32, u32)
    ensures { result ≡ uncycles words.now 32 start }
{
    let mut halves = start;
    for n in (0..CYCLES).rev() {
        halves = uncycled(words, n, halves);
    }
    halves
}

impl Cipher for Xtea {
    const ALGORITHM: u8 = 0xF2;

    ghost ALGORITHM = { identifier };

    type RoundKeys = [u32; 4];

    ghost algorithm = { record { enc = encipher; dec = decipher; identifier = identifier } };

    ghost enciphering = { enciphering };

    ghost deciphering = { deciphering };

    ghost named = { refl };

    ghost undone = { λ k b _ h.
        let w = words_of k in
        over_blocks (cycles w 32) (uncycles w 32) (cycles_small w 32) (cycles_undone w 32) b h };

    ghost redone = { λ k b _ h.
        let w = words_of k in
        over_blocks (uncycles w 32) (cycles w 32) (uncycles_small w 32) (cycles_redone w 32) b h };

    ghost enciphered = { λ k b _ _. bytes_joined (cycles (words_of k) 32 (halves b)) };

    ghost deciphered = { λ k b _ _. bytes_joined (uncycles (words_of k) 32 (halves b)) };

    fn expand(key: &[u8; 16]) -> [u32; 4] {
        let [front, back] = halves(key);
        let (a, b) = halves_of(&front);
        let (c, d) = halves_of(&back);
        [a, b, c, d]
    }

    fn encipher(keys: &[u32; 4], block: &[u8; 8]) -> [u8; 8] {
        block_of(all_cycled(keys, halves_of(block)))
    }

    fn decipher(keys: &[u32; 4], block: &[u8; 8]) -> [u8; 8] {
        block_of(all_uncycled(keys, halves_of(block)))
    }
}
