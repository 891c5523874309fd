// Key sets and registry entries, and the tables that hold them.
ghost use Rattle.std.specs.Prelude.{◌≡◌, ◌+◌, ◌<◌, ◌≤◌, [], ◌∷◌, ◌++◌, length, is_some, if◌then◌else◌};
ghost use Rattle.std.specs.List.{remove};
ghost use Rattle.std.specs.Str.{bytes_eq};
ghost use Rattle.contents.specs.Records.{aid_bytes, card_manager, bears, has_version, listed, entry_named};
ghost use Rattle.contents.specs.Held.{filled_name, sound_aid};
ghost use Rattle.contents.specs.Changes.{state_set, state_set_named, takes_state, aid_of, new_application, admits, without_named, is_version, admits_set, replaces_set, replaced_named};
ghost use Rattle.contents.specs.Search.{first_of};

use crate::life::{EntryKind, EntryState};
use crate::search::Named;
use crate::table::Table;
use cipher::Keys;

// An application identifier: five to sixteen bytes at the front, and 00 behind them.
#[derive(Clone, Copy)]
pub struct Aid {
    pub bytes: [u8; 16],
    pub len: u8,
}

// A load file or an application.
#[derive(Clone, Copy)]
pub struct Entry {
    pub kind: EntryKind,
    pub aid: Aid,
    pub state: EntryState,
    pub privileges: u8,
}

// A version and its keys.
#[derive(Clone, Copy)]
pub struct KeySet {
    pub version: u8,
    pub keys: Keys,
}

// The entries of a card, and its key sets.
pub type Registry = Table<Entry, 12>;

pub type KeySets = Table<KeySet, 4>;

// What stands at the places of a table that are not in use.
pub(crate) const NO_ENTRY: Entry = Entry {
    kind: EntryKind::LoadFile,
    aid: Aid {
        bytes: [0; 16],
        len: 0,
    },
    state: EntryState::Loaded,
    privileges: 0,
};

pub(crate) const NO_KEY_SET: KeySet = KeySet {
    version: 0,
    keys: Keys {
        enc: [0; 16],
        mac: [0; 16],
        kek: [0; 16],
    },
};

// The card manager's own name.
const CARD_MANAGER: [u8; 8] = [0xA0, 0x00, 0x00, 0x00, 0x03, 0x00, 0x00, 0x00];

// Whether a name is the card manager's, which no entry bears.
pub fn is_card_manager(name: &[u8]) -> bool
    ensures { result ≡ bytes_eq name.now card_manager }
{
    name == CARD_MANAGER.as_slice()
}

// Whether a key set may have this version.
pub fn is_version(version: u8) -> bool
    ensures { result ≡ is_version version }
{
    (0x01..=0x7F).contains(&version)
}

impl Aid {
    // The AID of a name that is not too long.
    fn of_name(name: &[u8]) -> Aid
        requires { length name.now ≤ 16 }
        ensures { result ≡ aid_of name.now }
    {
        let mut bytes = [0; 16];
        bytes[..name.len()].copy_from_slice(name);
        Aid {
            bytes,
            len: name.len() as u8,
        }
    }

    // The bytes of the name.
    pub fn name(&self) -> &[u8]
        ensures { result.now ≡ aid_bytes self.now }
    {
        self.bytes
            .get(..usize::from(self.len))
            .unwrap_or(&self.bytes)
    }

    // The name, and 00 at the places behind it.
    fn filled(&self) -> [u8; 16]
        requires { self.now.len ≤ 16 }
        ensures { result ≡ filled_name self.now }
    {
        let mut bytes = self.bytes;
        bytes[usize::from(self.len)..].fill(0);
        bytes
    }

    // Whether the length is one that a name may have, and 00 fills the places behind it.
    pub(crate) fn is_sound(&self) -> bool
        ensures { result ≡ sound_aid self.now }
    {
        (5..=16).contains(&self.len) && self.bytes[..] == self.filled()[..]
    }
}

impl<'a> Named<&'a [u8]> for Entry {
    ghost named = { λ e q. bears q.now e };

    fn bears(&self, name: &'a [u8]) -> bool {
        self.aid.name() == name
    }
}

impl Named<u8> for KeySet {
    ghost named = { λ k v. has_version v k };

    fn bears(&self, name: u8) -> bool {
        self.version == name
    }
}

impl Registry {
    // Puts the entry at a place into a state; the other entries stay as they are.
    fn set_state(&mut self, at: usize, state: EntryState)
        requires { at < length (listed self.old) }
        ensures list { listed self.new ≡ state_set (listed self.old) at state }
        ensures count { self.new.count ≡ self.old.count }
    {
        let entry = &mut self.records[at];
        entry.state = state;
    }

    // Puts the application of this name into a state. Nothing moves where there is no such application, or the state is
    // none of an application's.
    pub(crate) fn set_application_state(&mut self, name: &[u8], state: EntryState) -> bool
        ensures taken { result ≡ takes_state state (entry_named name.now (listed self.old)) }
        ensures list { listed self.new ≡ (if result then state_set_named name.now state (listed self.old) else listed self.old) }
        ensures count { self.new.count ≡ self.old.count }
    {
        let Some(at) = self.find(name) else {
            return false;
        };
        if self.listed()[at].kind != EntryKind::Application || state == EntryState::Loaded {
            return false;
        }
        self.set_state(at, state);
        true
    }

    // Adds an application behind the other entries. Nothing moves where the name has not the length of one, is the card
    // manager's or is in use, where the state is none of an application's, and where all twelve places are in use.
    pub(crate) fn add_application(&mut self, name: &[u8], state: EntryState, privileges: u8) -> bool
        ensures taken { result ≡ admits name.now state (listed self.old) }
        ensures list { listed self.new ≡ (if result then listed self.old ++ new_application name.now state privileges ∷ [] else listed self.old) }
        ensures counted { self.old.count ≤ 12 → self.new.count ≤ 12 }
    {
        if !(5..=16).contains(&name.len()) || is_card_manager(name) {
            return false;
        }
        if self.has(name) || state == EntryState::Loaded {
            return false;
        }
        self.push(Entry {
            kind: EntryKind::Application,
            aid: Aid::of_name(name),
            state,
            privileges,
        })
    }

    // Takes out the entry at a place, and closes the gap.
    fn remove(&mut self, at: usize)
        requires { at < length (listed self.old) }
        ensures list { listed self.new ≡ remove (listed self.old) at }
        ensures count { self.old.count ≤ 12 → self.new.count + 1 ≡ self.old.count }
    {
        let used = self.listed().len();
        self.records.copy_within(at + 1..used, at);
        self.count = used - 1;
    }

    // Takes out the entry of this name, if there is one.
    pub(crate) fn remove_named(&mut self, name: &[u8]) -> bool
        ensures found { result ≡ is_some (first_of (bears name.now) (listed self.old)) }
        ensures list { listed self.new ≡ without_named name.now (listed self.old) }
        ensures counted { self.old.count ≤ 12 → self.new.count ≤ 12 }
    {
        let Some(at) = self.find(name) else {
            return false;
        };
        self.remove(at);
        true
    }
}

impl KeySets {
    // Adds a key set behind the others. Nothing moves where its version is none or is in use, and where all four places
    // are in use.
    pub(crate) fn add(&mut self, set: KeySet) -> bool
        ensures taken { result ≡ admits_set set.version (listed self.old) }
        ensures list { listed self.new ≡ (if result then listed self.old ++ set ∷ [] else listed self.old) }
        ensures counted { self.old.count ≤ 4 → self.new.count ≤ 4 }
    {
        is_version(set.version) && !self.has(set.version) && self.push(set)
    }

    // Puts a key set in the place of the one of this version. Nothing moves where there is none, and where the new
    // version is none or is that of another set.
    pub(crate) fn replace(&mut self, version: u8, set: KeySet) -> bool
        ensures taken { result ≡ replaces_set version set.version (listed self.old) }
        ensures list { listed self.new ≡ (if result then replaced_named version set (listed self.old) else listed self.old) }
        ensures count { self.new.count ≡ self.old.count }
    {
        if !is_version(set.version) {
            return false;
        }
        if set.version != version && self.has(set.version) {
            return false;
        }
        let Some(at) = self.find(version) else {
            return false;
        };
        self.records[at] = set;
        true
    }
}
