// Whole blocks, enciphered or deciphered in a chain.
ghost use Rattle.std.specs.Prelude.{◌≡◌, ◌+◌, ◌*◌, ◌/◌, ◌≤◌, length, IfSome};
ghost use Rattle.answers.specs.Areas.{written, fronted};
ghost use Rattle.cipher.specs.Cbc.{cbc_enciphered, cbc_deciphered, whole_in, blocks_into, ChainUndone};

use crate::{Cipher, xored};

// Writes a block over the area from a place on.
fn put_block(area: &mut [u8], at: usize, block: &[u8; 8])
    requires { at + 8 ≤ length area.old }
    ensures { area.new ≡ written area.old at block.now }
{
    area[at..at + 8].copy_from_slice(block);
}

// Whether this many bytes are whole blocks that an area of `room` bytes holds.
fn fits(length: usize, room: usize) -> bool
    ensures { result ≡ whole_in length room }
{
    length % 8 == 0 && length <= room
}

fn encipher_into<C: Cipher>(keys: &C::RoundKeys, start: &[u8; 8], text: &[u8], area: &mut [u8])
    requires { length text.now ≤ length area.old }
    ensures area { area.new ≡ fronted area.old (cbc_enciphered (C.Cipher.enciphering keys.now) start.now text.now) }
    ensures whole { length (cbc_enciphered (C.Cipher.enciphering keys.now) start.now text.now) ≡ 8 * (length text.now / 8) }
{
    let (blocks, _) = text.as_chunks::<8>();
    let mut before = *start;
    for (i, block) in blocks.iter().enumerate() {
        before = C::encipher(keys, &xored(&before, block));
        put_block(area, 8 * i, &before);
    }
}

fn decipher_into<C: Cipher>(keys: &C::RoundKeys, start: &[u8; 8], text: &[u8], area: &mut [u8])
    requires { length text.now ≤ length area.old }
    ensures area { area.new ≡ fronted area.old (cbc_deciphered (C.Cipher.deciphering keys.now) start.now text.now) }
    ensures whole { length (cbc_deciphered (C.Cipher.deciphering keys.now) start.now text.now) ≡ 8 * (length text.now / 8) }
{
    let (blocks, _) = text.as_chunks::<8>();
    let mut before = *start;
    for (i, block) in blocks.iter().enumerate() {
        put_block(area, 8 * i, &xored(&before, &C::decipher(keys, block)));
        before = *block;
    }
}

// Enciphers whole blocks in a chain to the area's front, and returns their length; none, and nothing written, where the
// text is not whole blocks or the area is shorter than it.
pub fn encipher_blocks<C: Cipher>(
    key: &[u8; 16],
    start: &[u8; 8],
    text: &[u8],
    area: &mut [u8],
) -> Option<usize>
    ensures blocks { (result, area.new) ≡ blocks_into area.old (length text.now) (cbc_enciphered (C.algorithm.enc key.now) start.now text.now) }
    ensures length { IfSome result (λ n. n ≡ length text.now) }
{
    if !fits(text.len(), area.len()) {
        return None;
    }
    encipher_into::<C>(&C::expand(key), start, text, area);
    Some(text.len())
}

// Deciphers what `encipher_blocks` enciphers, to the area's front, and refuses as it does.
pub fn decipher_blocks<C: Cipher>(
    key: &[u8; 16],
    start: &[u8; 8],
    text: &[u8],
    area: &mut [u8],
) -> Option<usize>
    ensures blocks { (result, area.new) ≡ blocks_into area.old (length text.now) (cbc_deciphered (C.algorithm.dec key.now) start.now text.now) }
    ensures length { IfSome result (λ n. n ≡ length text.now) }
    ensures undone { ChainUndone C.algorithm.enc C.algorithm.dec }
{
    if !fits(text.len(), area.len()) {
        return None;
    }
    decipher_into::<C>(&C::expand(key), start, text, area);
    Some(text.len())
}
