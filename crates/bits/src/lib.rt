// The bits of a word: exchanges of bits, of which any permutation is made, and the bytes that a word is written as.
#![tactic(auto)]

ghost use Rattle.std.specs.Prelude.{◌≡◌, ℕ, ◌%◌, ◌<◌};
ghost use Rattle.bits.specs.Octets.{value, octets};
ghost use Rattle.bits.specs.Swap.{exchange};

// Each bit of `x` at a place of the mask changes places with the one `d` above it; the distance counts modulo 64.
pub fn exchanged(x: u64, d: u32, mask: u64) -> u64
    ensures { result ≡ exchange (d % 64) mask x }
{
    let d = d % 64;
    let t = ((x >> d) ^ x) & mask;
    x ^ t ^ (t << d)
}

// Eight bytes as a number, the first byte the highest.
pub fn value_of(block: &[u8; 8]) -> u64
    ensures { result ≡ value block.now }
{
    u64::from_be_bytes(*block)
}

// A number as eight bytes, the highest first.
pub fn octets_of(x: u64) -> [u8; 8]
    ensures { result ≡ octets 8 x }
{
    x.to_be_bytes()
}
