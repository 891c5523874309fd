// Challenges that are counted: enciphered blocks, each one more than the block before it.
#![tactic(auto)]

ghost use Rattle.std.specs.Prelude.{◌≡◌, take, Ok, Err, MatchResult};
ghost use Rattle.std.proofs.Common.{sym};
ghost use Rattle.counting.specs.Counted.{Distinct, counted_from, counted_past, source_of};
ghost use Rattle.std.proofs.lemmas.List.{take-append-drop};

use answers::Refusal;
use bits::{octets_of, value_of};
use challenge::Source;
use cipher::Cipher;

// How many challenges a source has.
const COUNT: usize = 65_536;

#[derive(Drop)]
pub struct Counting<C: Cipher> {
    keys: C::RoundKeys,
    // the start block as a number
    start: u64,
    // how many are drawn
    drawn: usize,
}

impl<C: Cipher> Counting<C> {
    // A source of a key of sixteen bytes and a start block of eight, with all its challenges to come.
    pub fn make(key: &[u8], start: &[u8]) -> Result<Counting<C>, Refusal>
        ensures coming { MatchResult result (λ s. Ok (counted_past (C.Cipher.enciphering s.keys) s.start s.drawn) ≡ source_of C.algorithm.enc key.now start.now) (λ e. Err e ≡ source_of C.algorithm.enc key.now start.now) }
        ensures whole { MatchResult result (λ s. Ok (counted_from (C.Cipher.enciphering s.keys) s.start) ≡ source_of C.algorithm.enc key.now start.now) (λ e. Err e ≡ source_of C.algorithm.enc key.now start.now) }
        ensures distinct { Distinct C.algorithm.enc }
    {
        let key = <[u8; 16]>::try_from(key).map_err(|_| Refusal::IllArgument)?;
        let start = <[u8; 8]>::try_from(start).map_err(|_| Refusal::IllArgument)?;
        Ok(Counting {
            keys: C::expand(&key),
            start: value_of(&start),
            drawn: 0,
        })
    }
}

impl<C: Cipher> Source for Counting<C> {
    ghost coming = { λ s. counted_past (C.Cipher.enciphering s.keys) s.start s.drawn };

    ghost whole = { λ s. counted_from (C.Cipher.enciphering s.keys) s.start };

    // those drawn are the front of the whole
    ghost ends = { λ s.
        let all = counted_from (C.Cipher.enciphering s.keys) s.start in
        (take s.drawn all, sym (take-append-drop s.drawn all)) };

    fn remaining(&self) -> usize {
        COUNT.saturating_sub(self.drawn)
    }

    fn draw(&mut self) -> Option<[u8; 8]> {
        if self.drawn >= COUNT {
            return None;
        }
        let block = octets_of(self.start.wrapping_add(self.drawn as u64));
        self.drawn += 1;
        Some(C::encipher(&self.keys, &block))
    }
}
