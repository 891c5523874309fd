// The key schedule.
ghost use Rattle.std.specs.Prelude.{◌≡◌, ◌/◌, ◌^◌, ◌<◌, slice_index};
ghost use Rattle.bits.specs.Octets.{value};
ghost use Rattle.present.specs.Present.{boxed, update};
ghost use Rattle.present.specs.Steps.{later_keys};
ghost use Rattle.present.specs.Tables.{SBOX};

// The round keys of a key: the first, which is added before the rounds, and the one that ends each round.
#[derive(Drop)]
pub struct RoundKeys {
    pub first: u64,
    pub later: [u64; 31],
}

// The S-box.
const NIBBLES: [u8; 16] = [
    0xC, 0x5, 0x6, 0xB, 0x9, 0x0, 0xA, 0xD, 0x3, 0xE, 0xF, 0x8, 0x4, 0x7, 0x1, 0x2,
];

// A nibble through the S-box.
fn nibble(x: u128) -> u128
    requires { x < 16 }
    ensures value { result ≡ slice_index SBOX x }
    ensures small { result < 16 }
{
    NIBBLES[x as usize] as u128
}

// The leftmost two nibbles through the S-box.
fn top_boxed(k: u128) -> u128
    ensures { result ≡ boxed k }
{
    let top = nibble(k >> 124) * 16 + nibble((k >> 120) & 15);
    (top << 120) + (k & 0x00ff_ffff_ffff_ffff_ffff_ffff_ffff_ffff)
}

// The key register after the round `i`.
fn updated(i: u32, k: u128) -> u128
    requires { i < 32 }
    ensures { result ≡ update i k }
{
    top_boxed(k.rotate_left(61)) ^ ((i as u128) << 62)
}

// The round keys behind the first.
fn later_keys(key: u128) -> [u64; 31]
    ensures { result ≡ later_keys 31 1 key }
{
    let mut out = [0; 31];
    let mut k = key;
    for (i, round_key) in out.iter_mut().enumerate() {
        k = updated(i as u32 + 1, k);
        *round_key = (k >> 64) as u64;
    }
    out
}

// Sixteen bytes as a number, the first byte the highest.
fn register_of(key: &[u8; 16]) -> u128
    ensures { result ≡ value key.now }
{
    u128::from_be_bytes(*key)
}

// The round keys of a key.
pub fn expanded(key: &[u8; 16]) -> RoundKeys
    ensures first { result.first ≡ value key.now / 2 ^ 64 }
    ensures later { result.later ≡ later_keys 31 1 (value key.now) }
{
    let k = register_of(key);
    RoundKeys {
        first: (k >> 64) as u64,
        later: later_keys(k),
    }
}
