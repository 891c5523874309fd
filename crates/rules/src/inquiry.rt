// GET STATUS: what is registered on a card.
ghost use Rattle.std.specs.Prelude.{◌≡◌, ◌≤◌, true, length};
ghost use Rattle.contents.specs.Contents.{held};
ghost use Rattle.contents.specs.Held.{all, sound_entry};
ghost use Rattle.rules.specs.Rules.{replied};
ghost use Rattle.rules.specs.Listings.{listing_bytes};
ghost use Rattle.rules.specs.GetStatus.{asked_kind, status_listed, got_status};

use crate::Request;
use crate::listing::Listing;
use answers::StatusWord;
use contents::Contents;
use contents::life::EntryKind;
use contents::records::Entry;

// An empty name, which stands for every name.
const EVERY_NAME: [u8; 2] = [0x4F, 0x00];

// The kind of entry that is asked for.
fn asked_kind(p1: u8, p2: u8) -> Option<EntryKind>
    ensures { result ≡ asked_kind p1 p2 }
{
    match (p1, p2) {
        (0x40, 0x00) => Some(EntryKind::Application),
        (0x20, 0x00) => Some(EntryKind::LoadFile),
        (_, _) => None,
    }
}

// The records of the entries of a kind, if there are any.
fn list(entries: &[Entry], kind: EntryKind) -> Result<Listing, StatusWord>
    requires { (length entries.now ≤ 12) × (all sound_entry entries.now ≡ true) }
    ensures { replied listing_bytes result ≡ status_listed kind entries.now }
{
    let listing = Listing::of(entries, kind);
    if listing.is_empty() {
        return Err(StatusWord::NotFound);
    }
    Ok(listing)
}

// The records of the applications or of the load files.
#[tactic(auto, unfolding(crate::specs::GetStatus::got_status))]
pub fn get_status(contents: &Contents, request: Request) -> Result<Listing, StatusWord>
    ensures { replied listing_bytes result ≡ got_status (held contents.now) request.entry.p1 request.entry.p2 request.entry.body.now }
{
    let kind = asked_kind(request.p1, request.p2).ok_or(StatusWord::WrongParameters)?;
    if request.body != EVERY_NAME.as_slice() {
        return Err(StatusWord::WrongData);
    }
    list(contents.entries(), kind)
}
