// What may be changed of a card's contents.
ghost use Rattle.std.specs.Prelude.{◌≡◌, is_some, if◌then◌else◌};
ghost use Rattle.contents.specs.Contents.{held};
ghost use Rattle.contents.specs.Search.{first_of};
ghost use Rattle.contents.specs.Records.{bears, entry_named};
ghost use Rattle.contents.specs.Changes.{in_card_state, in_state_named, takes_state, admits, with_application, without_entry, admits_set, with_new_set, replaces_set, with_replaced_set};

use crate::Contents;
use crate::life::{CardState, EntryState};
use crate::records::KeySet;

impl Contents {
    // Puts the card into a state.
    pub fn set_state(&mut self, state: CardState)
        ensures { held self.new ≡ in_card_state state (held self.old) }
    {
        self.draft.state = state;
    }

    // Puts the application of this name into a state. Nothing moves where there is no such application, or the state is
    // none of an application's.
    pub fn set_application_state(&mut self, name: &[u8], state: EntryState) -> bool
        ensures taken { result ≡ takes_state state (entry_named name.now (held self.old).entries) }
        ensures held { held self.new ≡ (if result then in_state_named name.now state (held self.old) else held self.old) }
    {
        self.draft.registry.set_application_state(name, state)
    }

    // Adds an application behind the other entries. Nothing moves where the name has not the length of one, is the card
    // manager's or is in use, where the state is none of an application's, and where there are twelve entries.
    pub fn add_application(&mut self, name: &[u8], state: EntryState, privileges: u8) -> bool
        ensures taken { result ≡ admits name.now state (held self.old).entries }
        ensures held { held self.new ≡ (if result then with_application name.now state privileges (held self.old) else held self.old) }
    {
        self.draft.registry.add_application(name, state, privileges)
    }

    // Takes out the entry of this name. Nothing moves where there is none.
    pub fn remove_entry(&mut self, name: &[u8]) -> bool
        ensures found { result ≡ is_some (first_of (bears name.now) (held self.old).entries) }
        ensures held { held self.new ≡ without_entry name.now (held self.old) }
    {
        self.draft.registry.remove_named(name)
    }

    // Adds a key set behind the others. Nothing moves where its version is none or is in use, and where there are four.
    pub fn add_key_set(&mut self, set: KeySet) -> bool
        ensures taken { result ≡ admits_set set.version (held self.old).sets }
        ensures held { held self.new ≡ (if result then with_new_set set (held self.old) else held self.old) }
    {
        self.draft.sets.add(set)
    }

    // Puts a key set in the place of the one of this version. Nothing moves where there is none, and where the new
    // version is none or is that of another set.
    pub fn replace_key_set(&mut self, version: u8, set: KeySet) -> bool
        ensures taken { result ≡ replaces_set version set.version (held self.old).sets }
        ensures held { held self.new ≡ (if result then with_replaced_set version set (held self.old) else held self.old) }
    {
        self.draft.sets.replace(version, set)
    }
}
