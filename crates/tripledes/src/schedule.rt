// The key schedule.
ghost use Rattle.std.specs.Prelude.{◌≡◌, ℕ, ◌+◌, ◌*◌, ◌^◌, ◌<◌, ◌≤◌, map, reverse};
ghost use Rattle.bits.specs.Permute.{permute};
ghost use Rattle.tripledes.specs.Des.{rotated, round_keys};
ghost use Rattle.tripledes.specs.Round.{held};
ghost use Rattle.tripledes.specs.Tables.{PC1, PC2};

use bits::exchanged;

// The round keys of a key in the order of enciphering and in that of deciphering.
#[derive(Drop)]
pub struct Schedule {
    pub forward: [u64; 16],
    pub backward: [u64; 16],
}

// How far C and D are rotated in all before each round key, so that no round key waits for the one before it.
const TOTALS: [u32; 16] = [1, 2, 4, 6, 8, 10, 12, 14, 15, 17, 19, 21, 23, 25, 27, 28];

// Permuted choice 1 by exchanges of bits: the masks were found by trial, and the proof works out that they make the table's choice.
fn choice_one(key: u64) -> u64
    ensures { result ≡ permute 64 PC1 key }
{
    let a = exchanged(key, 32, 0x0000_0000_1010_1111);
    let b = exchanged(a, 16, 0x0000_6c6c_0000_7879);
    let c = exchanged(b, 8, 0x00aa_00aa_00b4_00b4);
    let d = exchanged(c, 4, 0x0e0e_0e0e_0101_0101);
    let e = exchanged(d, 2, 0x0202_3131_2121_1212);
    let f = exchanged(e, 1, 0x0055_0055_0550_0550);
    let g = exchanged(f, 8, 0x00aa_00aa_00aa_00aa);
    let h = exchanged(g, 16, 0x0000_cccc_0000_cccc);
    exchanged(h, 32, 0x0000_0000_f0f0_f0f0) & 0x00ff_ffff_ffff_ffff
}

// Permuted choice 2 in the same way, with the bits at their places in the word.
fn choice_two(cd: u64) -> u64
    requires { cd < 2 ^ 56 }
    ensures { held result ≡ permute 56 PC2 cd }
{
    let a = exchanged(cd, 32, 0x0000_0000_b26a_929f);
    let b = exchanged(a, 16, 0x0000_0d66_0000_51bf);
    let c = exchanged(b, 8, 0x0071_0014_003e_00c2);
    let d = exchanged(c, 4, 0x040f_0403_0807_0e0a);
    let e = exchanged(d, 2, 0x2131_1201_0300_2103);
    let f = exchanged(e, 1, 0x4050_0045_0041_5140);
    let g = exchanged(f, 4, 0x0206_0008_0802_020c);
    let h = exchanged(g, 8, 0x005c_0002_00d2_00e4);
    let i = exchanged(h, 16, 0x0000_3400_0000_a548);
    exchanged(i, 32, 0x0000_0000_56a8_0202)
}

// 28 bits rotated to the left.
fn turned(c: u64, places: u32) -> u64
    requires { (c < 2 ^ 28) × (places ≤ 28) }
    ensures { (result ≡ rotated places c) × (result < 2 ^ 28) }
{
    (((c << 28) ^ c) >> (28 - places)) & 0xfff_ffff
}

// The round key of C and D, each rotated as far.
fn round_key(c: u64, d: u64, places: u32) -> u64
    requires { (c < 2 ^ 28) × (d < 2 ^ 28) × (places ≤ 28) }
    ensures { held result ≡ permute 56 PC2 (rotated places c * 2 ^ 28 + rotated places d) }
{
    choice_two((turned(c, places) << 28) + turned(d, places))
}

// The sixteen round keys.
fn round_keys(key: u64) -> [u64; 16]
    ensures { map held result ≡ round_keys key }
{
    let cd = choice_one(key);
    let c = cd >> 28;
    let d = cd & 0xfff_ffff;
    std::array::from_fn(|i| round_key(c, d, TOTALS[i]))
}

// Round keys in the other order.
fn backwards(mut keys: [u64; 16]) -> [u64; 16]
    ensures { result ≡ reverse keys }
{
    keys.reverse();
    keys
}

// The schedule of a key.
pub fn expanded(key: u64) -> Schedule
    ensures forward { map held result.forward ≡ round_keys key }
    ensures backward { map held result.backward ≡ reverse (round_keys key) }
{
    let forward = round_keys(key);
    Schedule {
        forward,
        backward: backwards(forward),
    }
}
