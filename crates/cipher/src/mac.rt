// The chained code of some bytes.
ghost use Rattle.std.specs.Prelude.{◌≡◌, ℕ, ◌<◌, List, ◌∷◌, ◌++◌, length, replicate};
ghost use Rattle.cipher.specs.Mac.{chained, mac, missing, Pads};

use crate::{Cipher, xored};

// The last block of a code: what is left of the bytes, the byte 80 and bytes 00.
fn last_block(rest: &[u8]) -> [u8; 8]
    requires { length rest.now < 8 }
    ensures { result ≡ rest.now ++ (0x80 ∷ replicate (missing (length rest.now)) 0) }
{
    let mut block = [0; 8];
    let n = rest.len();
    block[0..n].copy_from_slice(rest);
    block[n] = 0x80;
    block
}

// The code under keys that are expanded already.
pub fn chained_code<C: Cipher>(keys: &C::RoundKeys, start: &[u8; 8], bytes: &[u8]) -> [u8; 8]
    ensures code { result ≡ chained (C.Cipher.enciphering keys.now) start.now bytes.now }
    ensures padding { Pads }
{
    let (blocks, rest) = bytes.as_chunks::<8>();
    let mut value = *start;
    for block in blocks {
        value = C::encipher(keys, &xored(&value, block));
    }
    C::encipher(keys, &xored(&value, &last_block(rest)))
}

// The code under a key.
pub fn code<C: Cipher>(key: &[u8; 16], start: &[u8; 8], bytes: &[u8]) -> [u8; 8]
    ensures { result ≡ mac C.algorithm.enc key.now start.now bytes.now }
{
    let keys = C::expand(key);
    chained_code::<C>(&keys, start, bytes)
}
