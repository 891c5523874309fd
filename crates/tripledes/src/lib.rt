// Triple DES with keying option 2, as a block cipher.
#![tactic(auto)]

ghost use Rattle.std.specs.Prelude.{◌≡◌, refl, true};
ghost use Rattle.tripledes.specs.Laws.{Backwards, Deciphers, Enciphers, ParityFree};
ghost use Rattle.tripledes.specs.Published.{Published};
ghost use Rattle.tripledes.specs.Schedules.{enciphering, deciphering};
ghost use Rattle.tripledes.specs.TripleDes.{encipher, decipher, identifier};
ghost use Rattle.tripledes.specs.Inverse.{deciphers, enciphers, bytes_enciphered, bytes_deciphered};

use bits::value_of;
use cipher::{Cipher, halves};

mod rounds;
mod schedule;
mod sp;

use rounds::crypted;
use schedule::{Schedule, expanded};

// The name by which the cipher is chosen.
pub struct TripleDes;

// A key made ready: the round keys of its two halves.
#[derive(Drop)]
pub struct Schedules {
    first: Schedule,
    second: Schedule,
}

impl Cipher for TripleDes {
    const ALGORITHM: u8 = 0x81;

    ghost ALGORITHM = { identifier };

    type RoundKeys = Schedules;

    ghost algorithm = { record { enc = encipher; dec = decipher; identifier = identifier } };

    ghost enciphering = { enciphering };

    ghost deciphering = { deciphering };

    ghost named = { refl };

    ghost undone = { deciphers };

    ghost redone = { enciphers };

    ghost enciphered = { bytes_enciphered };

    ghost deciphered = { bytes_deciphered };

    fn expand(key: &[u8; 16]) -> Schedules {
        let [first, second] = halves(key);
        Schedules {
            first: expanded(value_of(&first)),
            second: expanded(value_of(&second)),
        }
    }

    fn encipher(keys: &Schedules, block: &[u8; 8]) -> [u8; 8] {
        crypted(
            &keys.first.forward,
            &keys.second.backward,
            &keys.first.forward,
            block,
        )
    }

    fn decipher(keys: &Schedules, block: &[u8; 8]) -> [u8; 8] {
        crypted(
            &keys.first.backward,
            &keys.second.forward,
            &keys.first.backward,
            block,
        )
    }
}

// What holds of the definition: over all keys and blocks each direction undoes the other and the parity bits of the key do not
// matter, and the published tests come out. The call itself always answers true.
pub fn laws() -> bool
    ensures answer { result ≡ true }
    ensures backwards { Backwards }
    ensures undone { Deciphers }
    ensures redone { Enciphers }
    ensures parity { ParityFree }
    ensures published { Published }
{
    true
}
