// Challenges that were recorded: the whole groups of eight bytes of some bytes.
ghost use Rattle.std.specs.Prelude.{◌≡◌, take, IfOk};
ghost use Rattle.std.proofs.Common.{sym};
ghost use Rattle.challenge.specs.Draws.{groups};
ghost use Rattle.challenge.specs.Recorded.{recorded_coming, recorded_whole};
ghost use Rattle.std.proofs.lemmas.List.{take-append-drop};

use crate::Source;
use std::alloc::{AllocError, Global};

#[derive(Drop)]
pub struct Recorded {
    challenges: Vec<[u8; 8]>,
    // how many are drawn
    drawn: usize,
}

impl Recorded {
    // The challenges of some bytes; what is left over behind the last whole group is not used.
    pub fn new(heap: Global, bytes: &[u8]) -> Result<Recorded, AllocError>
        ensures coming { IfOk result (λ s. recorded_coming s ≡ groups bytes.now) }
        ensures whole { IfOk result (λ s. recorded_whole s ≡ groups bytes.now) }
    {
        let (groups, _) = bytes.as_chunks::<8>();
        let challenges = Vec::from_slice(heap, groups)?;
        Ok(Recorded {
            challenges,
            drawn: 0,
        })
    }
}

impl Source for Recorded {
    ghost coming = { recorded_coming };

    ghost whole = { recorded_whole };

    // those drawn are the front of the whole
    ghost ends = { λ s. (take s.drawn (recorded_whole s), sym (take-append-drop s.drawn (recorded_whole s))) };

    fn remaining(&self) -> usize {
        self.challenges.len().saturating_sub(self.drawn)
    }

    fn draw(&mut self) -> Option<[u8; 8]> {
        let challenge = *self.challenges.get(self.drawn)?;
        self.drawn += 1;
        Some(challenge)
    }
}
