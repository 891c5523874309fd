// An image, read record by record.
ghost use Rattle.std.specs.Prelude.{◌≡◌, ◌<◌, length};
ghost use Rattle.contents.specs.Draft.{drafted, Drafts, Leaves};
ghost use Rattle.contents.specs.Image.{next_kind, grown_by, read_key_set, read_entry, read_body, read_record, read_rest, header_in, read_header, read_image};

use crate::image::draft::{Draft, Kind};
use crate::image::fields::{entry_in, header_in, key_set_in};
use crate::records::{KeySets, NO_ENTRY, NO_KEY_SET, Registry};
use answers::Refusal;

impl Draft {
    // The body of a header.
    fn from_header_body(body: &[u8]) -> Result<Draft, Refusal>
        ensures { Drafts result (header_in body.now) }
    {
        let body = body.first_chunk().ok_or(Refusal::ImageEndsEarly)?;
        let (state, diversification) = header_in(body).ok_or(Refusal::FieldValue)?;
        Ok(Draft {
            state,
            diversification,
            sets: KeySets::empty(NO_KEY_SET),
            registry: Registry::empty(NO_ENTRY),
        })
    }

    // The first record of an image, which is the header.
    fn from_header(image: &[u8]) -> Result<Draft, Refusal>
        ensures { Drafts result (read_header image.now) }
    {
        match image {
            [] => Err(Refusal::ImageEndsEarly),
            [0x01, body @ ..] => Draft::from_header_body(body),
            [_, ..] => Err(Refusal::RecordKind),
        }
    }

    // The kind that a byte names, where a record of that kind may come next.
    fn next_kind(&self, byte: u8) -> Option<Kind>
        ensures { result ≡ next_kind byte (drafted self.now) }
    {
        let sets = self.sets.listed().len();
        let entries = self.registry.listed().len();
        match byte {
            0x02 if entries == 0 && sets < 4 => Some(Kind::Keys),
            0x03 if sets > 0 && entries < 12 => Some(Kind::Registered),
            0x00 if sets > 0 => Some(Kind::End),
            _ => None,
        }
    }

    // Takes in the body of a key set's record; the bytes behind it.
    fn take_key_set<'a>(&mut self, body: &'a [u8]) -> Result<Option<&'a [u8]>, Refusal>
        requires { length (drafted self.old).sets < 4 }
        ensures rest { Leaves result (read_key_set (drafted self.old) body.now) }
        ensures draft { drafted self.new ≡ grown_by (read_key_set (drafted self.old) body.now) (drafted self.old) }
    {
        let (body, rest) = body.split_first_chunk().ok_or(Refusal::ImageEndsEarly)?;
        let set = key_set_in(body).ok_or(Refusal::FieldValue)?;
        if self.sets.has(set.version) {
            return Err(Refusal::Duplicate);
        }
        self.sets.push(set);
        Ok(Some(rest))
    }

    // Takes in the body of an entry's record; the bytes behind it.
    fn take_entry<'a>(&mut self, body: &'a [u8]) -> Result<Option<&'a [u8]>, Refusal>
        requires { length (drafted self.old).entries < 12 }
        ensures rest { Leaves result (read_entry (drafted self.old) body.now) }
        ensures draft { drafted self.new ≡ grown_by (read_entry (drafted self.old) body.now) (drafted self.old) }
    {
        let (body, rest) = body.split_first_chunk().ok_or(Refusal::ImageEndsEarly)?;
        let entry = entry_in(body).ok_or(Refusal::FieldValue)?;
        if self.registry.has(entry.aid.name()) {
            return Err(Refusal::Duplicate);
        }
        self.registry.push(entry);
        Ok(Some(rest))
    }

    // Takes in the record of this kind, if one may come next.
    fn take_body<'a>(&mut self, kind: u8, body: &'a [u8]) -> Result<Option<&'a [u8]>, Refusal>
        ensures rest { Leaves result (read_body (next_kind kind (drafted self.old)) (drafted self.old) body.now) }
        ensures draft { drafted self.new ≡ grown_by (read_body (next_kind kind (drafted self.old)) (drafted self.old) body.now) (drafted self.old) }
    {
        match self.next_kind(kind).ok_or(Refusal::RecordKind)? {
            Kind::Keys => self.take_key_set(body),
            Kind::Registered => self.take_entry(body),
            Kind::End if body.is_empty() => Ok(None),
            Kind::End => Err(Refusal::TrailingBytes),
        }
    }

    // Takes in the record at the front of an image's rest; the bytes behind it, or nothing where it was the last.
    fn take_record<'a>(&mut self, rest: &'a [u8]) -> Result<Option<&'a [u8]>, Refusal>
        ensures rest { Leaves result (read_record (drafted self.old) rest.now) }
        ensures draft { drafted self.new ≡ grown_by (read_record (drafted self.old) rest.now) (drafted self.old) }
    {
        match rest {
            [] => Err(Refusal::ImageEndsEarly),
            [kind, body @ ..] => self.take_body(*kind, body),
        }
    }

    // Takes in all records behind the header.
    fn with_records(mut self, records: &[u8]) -> Result<Draft, Refusal>
        ensures { Drafts result (read_rest (drafted self) records.now) }
    {
        let mut rest = records;
        while let Some(behind) = self.take_record(rest)? {
            rest = behind;
        }
        Ok(self)
    }

    // All records of an image.
    pub fn from_image(image: &[u8]) -> Result<Draft, Refusal>
        ensures { Drafts result (read_image image.now) }
    {
        Draft::from_header(image)?.with_records(&image[12..])
    }
}
