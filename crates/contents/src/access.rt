// What may be asked of a card's contents.
ghost use Rattle.std.specs.Prelude.{◌≡◌, ◌≤◌, true, length};
ghost use Rattle.contents.specs.Contents.{held};
ghost use Rattle.contents.specs.Held.{sound, all, any, sound_entry};
ghost use Rattle.contents.specs.Records.{bears, has_version, chosen_set, entry_named};

use crate::Contents;
use crate::life::CardState;
use crate::records::{Entry, KeySet};

impl Contents {
    pub fn state(&self) -> CardState
        ensures value { result ≡ (held self.now).state }
        ensures sound { sound (held self.now) ≡ true }
    {
        self.draft.state
    }

    pub fn diversification(&self) -> [u8; 10]
        ensures { result ≡ (held self.now).diversification }
    {
        self.draft.diversification
    }

    // The key set that a version asks for; 00 asks for the first.
    pub fn key_set(&self, version: u8) -> Option<KeySet>
        ensures { result ≡ chosen_set version (held self.now).sets }
    {
        if version == 0 {
            return self.draft.sets.listed().first().copied();
        }
        self.draft.sets.named(version)
    }

    // The entry of this name.
    pub fn entry(&self, name: &[u8]) -> Option<Entry>
        ensures { result ≡ entry_named name.now (held self.now).entries }
    {
        self.draft.registry.named(name)
    }

    // The registered load files and applications, in order.
    pub fn entries(&self) -> &[Entry]
        ensures entries { result.now ≡ (held self.now).entries }
        ensures few { length result.now ≤ 12 }
        ensures sound { all sound_entry result.now ≡ true }
    {
        self.draft.registry.listed()
    }

    // Whether an entry bears this name.
    pub fn has_name(&self, name: &[u8]) -> bool
        ensures { result ≡ any (bears name.now) (held self.now).entries }
    {
        self.draft.registry.has(name)
    }

    // Whether a key set has this version.
    pub fn has_version(&self, version: u8) -> bool
        ensures { result ≡ any (has_version version) (held self.now).sets }
    {
        self.draft.sets.has(version)
    }

    // How many key sets there are.
    pub fn key_set_count(&self) -> usize
        ensures { result ≡ length (held self.now).sets }
    {
        self.draft.sets.listed().len()
    }
}
