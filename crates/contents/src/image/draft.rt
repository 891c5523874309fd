// The parts of what a card holds, and the kinds of an image's records.
ghost use Rattle.std.specs.Prelude.{◌≤◌};

use crate::life::CardState;
use crate::records::{KeySets, Registry};

// The kinds of record that may stand behind an image's header.
#[derive(Clone, Copy)]
pub enum Kind {
    Keys,
    Registered,
    // the last record
    End,
}

// What has been read of an image, or what a card holds: sound only where `Contents` says so. No table counts more records
// than it has places.
#[derive(Clone, Copy)]
pub struct Draft {
    pub state: CardState,
    pub diversification: [u8; 10],
    pub sets: KeySets,
    pub registry: Registry,
    ghost counted: { (sets.count ≤ 4) × (registry.count ≤ 12) },
}
