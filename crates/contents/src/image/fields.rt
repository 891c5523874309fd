// The bodies of records.
ghost use Rattle.std.specs.Prelude.{◌≡◌, ◌+◌, ◌≤◌, length, take, drop, Some, None, MatchOption, slice_index};
ghost use Rattle.contents.specs.Held.{privileges_fit};
ghost use Rattle.contents.specs.Image.{key_set_in, entry_in};
ghost use Rattle.contents.specs.Life.{card_state};

use crate::life::{CardState, EntryKind, EntryState};
use crate::records::{Aid, Entry, KeySet, is_card_manager, is_version};
use cipher::Keys;

// The bytes of a field that begins at a place.
fn field<const N: usize>(body: &[u8], at: usize) -> [u8; N]
    requires { at + N ≤ length body.now }
    ensures { result ≡ take N (drop at body.now) }
{
    *body[at..].first_chunk().unwrap()
}

// The card's state and the diversification data of a body, if it names a state.
pub fn header_in(body: &[u8; 11]) -> Option<(CardState, [u8; 10])>
    ensures { MatchOption result (card_state (slice_index body.now 0) ≡ None) (λ h. (card_state (slice_index body.now 0) ≡ Some h.0) × (h.1 ≡ take 10 (drop 1 body.now))) }
{
    let state = CardState::try_from(body[0]).ok()?;
    Some((state, field(body, 1)))
}

// The key set of a body, if its version is allowed.
pub fn key_set_in(body: &[u8; 49]) -> Option<KeySet>
    ensures { result ≡ key_set_in body.now }
{
    let version = body[0];
    let keys = Keys {
        enc: field(body, 1),
        mac: field(body, 17),
        kek: field(body, 33),
    };
    is_version(version).then_some(KeySet { version, keys })
}

// A load file has no privileges.
fn privileges_fit(kind: EntryKind, privileges: u8) -> bool
    ensures { result ≡ privileges_fit kind privileges }
{
    kind == EntryKind::Application || privileges == 0
}

// The entry of a body, if each of its values is allowed.
pub fn entry_in(body: &[u8; 20]) -> Option<Entry>
    ensures { result ≡ entry_in body.now }
{
    let kind = EntryKind::try_from(body[0]).ok()?;
    let state = EntryState::try_from((kind, body[18])).ok()?;
    let aid = Aid {
        bytes: field(body, 2),
        len: body[1],
    };
    let privileges = body[19];
    if !aid.is_sound() || !privileges_fit(kind, privileges) || is_card_manager(aid.name()) {
        return None;
    }
    Some(Entry {
        kind,
        aid,
        state,
        privileges,
    })
}
