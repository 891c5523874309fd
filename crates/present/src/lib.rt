// PRESENT with a key of 128 bits, as a block cipher.
#![tactic(auto)]

ghost use Rattle.std.specs.Prelude.{◌≡◌, refl, true};
ghost use Rattle.present.specs.Laws.{Layers, Deciphers, Enciphers};
ghost use Rattle.present.specs.Present.{encipher, decipher, identifier};
ghost use Rattle.present.specs.Published.{Published};
ghost use Rattle.present.specs.Schedule.{enciphering, deciphering};
ghost use Rattle.present.specs.Inverse.{deciphers, enciphers, bytes_enciphered, bytes_deciphered};

use bits::{octets_of, value_of};
use cipher::Cipher;

mod back;
mod layers;
mod rounds;
mod schedule;

use rounds::{rounds_back, rounds_of};
use schedule::{RoundKeys, expanded};

// The name by which the cipher is chosen.
pub struct Present;

impl Cipher for Present {
    const ALGORITHM: u8 = 0xF1;

    ghost ALGORITHM = { identifier };

    type RoundKeys = RoundKeys;

    ghost algorithm = { record { enc = encipher; dec = decipher; identifier = identifier } };

    ghost enciphering = { enciphering };

    ghost deciphering = { deciphering };

    ghost named = { refl };

    ghost undone = { deciphers };

    ghost redone = { enciphers };

    ghost enciphered = { bytes_enciphered };

    ghost deciphered = { bytes_deciphered };

    fn expand(key: &[u8; 16]) -> RoundKeys {
        expanded(key)
    }

    fn encipher(keys: &RoundKeys, block: &[u8; 8]) -> [u8; 8] {
        octets_of(rounds_of(&keys.later, value_of(block) ^ keys.first))
    }

    fn decipher(keys: &RoundKeys, block: &[u8; 8]) -> [u8; 8] {
        octets_of(rounds_back(&keys.later, value_of(block)) ^ keys.first)
    }
}

// What holds of the definition: each layer of a round is undone by its inverse, over all keys and blocks each direction undoes
// the other, and the published vectors come out. The call itself always answers true.
pub fn laws() -> bool
    ensures answer { result ≡ true }
    ensures layers { Layers }
    ensures undone { Deciphers }
    ensures redone { Enciphers }
    ensures published { Published }
{
    true
}
