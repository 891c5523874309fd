// Records of entries, one behind the other.
ghost use Rattle.std.specs.Prelude.{◌≡◌, ◌+◌, ◌≤◌, true, [], ◌++◌, length, ◌==◌};
ghost use Rattle.contents.specs.Held.{all, sound_entry};
ghost use Rattle.contents.specs.Records.{name_of};
ghost use Rattle.rules.specs.GetStatus.{record_of, shown, status_records};
ghost use Rattle.rules.specs.Listings.{listing_bytes};

use crate::listing::Listing;
use contents::life::EntryKind;
use contents::records::Entry;

impl Listing {
    fn empty() -> Listing
        ensures bytes { listing_bytes result ≡ [] }
        ensures len { result.len ≡ 0 }
    {
        Listing {
            bytes: [0; 228],
            len: 0,
        }
    }

    // What was written.
    pub fn as_slice(&self) -> &[u8]
        ensures bytes { result.now ≡ listing_bytes self.now }
        ensures short { length result.now ≤ 228 }
    {
        &self.bytes[0..self.len]
    }

    pub(crate) fn is_empty(&self) -> bool
        ensures { result ≡ (length (listing_bytes self.now) == 0) }
    {
        self.len == 0
    }

    fn extend(&mut self, more: &[u8])
        requires { self.old.len + length more.now ≤ 228 }
        ensures bytes { listing_bytes self.new ≡ listing_bytes self.old ++ more.now }
        ensures len { self.new.len ≡ self.old.len + length more.now }
    {
        let end = self.len + more.len();
        self.bytes[self.len..end].copy_from_slice(more);
        self.len = end;
    }

    // The length of the name, the name, the state and the privileges.
    fn record(&mut self, entry: &Entry)
        requires { (self.old.len + 19 ≤ 228) × (length (name_of entry.now) ≤ 16) }
        ensures bytes { listing_bytes self.new ≡ listing_bytes self.old ++ record_of entry.now }
        ensures len { self.new.len ≤ self.old.len + 19 }
    {
        let name = entry.aid.name();
        self.extend(&[name.len() as u8]);
        self.extend(name);
        self.extend(&[u8::from(entry.state), entry.privileges]);
    }

    // The record of an entry of this kind; of another, nothing.
    fn show(&mut self, entry: &Entry, kind: EntryKind)
        requires { (self.old.len + 19 ≤ 228) × (length (name_of entry.now) ≤ 16) }
        ensures bytes { listing_bytes self.new ≡ listing_bytes self.old ++ shown kind entry.now }
        ensures len { self.new.len ≤ self.old.len + 19 }
    {
        if entry.kind == kind {
            self.record(entry);
        }
    }

    // The records of the entries of this kind, in order.
    pub(crate) fn of(entries: &[Entry], kind: EntryKind) -> Listing
        requires { (length entries.now ≤ 12) × (all sound_entry entries.now ≡ true) }
        ensures { listing_bytes result ≡ status_records kind entries.now }
    {
        let mut listing = Listing::empty();
        for entry in entries {
            listing.show(entry, kind);
        }
        listing
    }
}
