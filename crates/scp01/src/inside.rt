// Commands inside a channel, as a card reads them.
ghost use Rattle.std.specs.Prelude.{◌≡◌, ◌<◌, ◌≤◌, true, length, IfSome, slice_index};
ghost use Rattle.std.specs.Option.{option_map};
ghost use Rattle.std.specs.Str.{bytes_eq};
ghost use Rattle.apdu.specs.Apdu.{meaning};
ghost use Rattle.scp01.specs.Inside.{closing, body_text, said, body_of, text_in, deciphered_into, body_at, right_code, chain_after, takes_class, unwrapped_from, answered, placed};

use crate::{Level, Session};
use apdu::Command;
use arrayvec::ArrayVec;
use cipher::{Cipher, cbc};

// Where a body stands.
#[derive(Clone, Copy, PartialEq, Eq, Debug)]
pub enum Place {
    // in the command's own data field
    Command,
    // deciphered, in the work area
    Work,
}

// What a command inside a channel says, and the chaining value after it.
#[derive(Clone, Copy)]
pub struct Unwrapped<'a> {
    pub place: Place,
    pub body: &'a [u8],
    pub chain: [u8; 8],
}

const CLOSING: [u8; 8] = [0x80, 0, 0, 0, 0, 0, 0, 0];

// What fills the last block behind this many bytes.
fn closing(length: usize) -> &'static [u8]
    ensures { result.now ≡ closing length }
{
    &CLOSING[0..(8 - length % 8) % 8]
}

// The text of a body.
pub(crate) fn body_text(body: &[u8]) -> ArrayVec<u8, 240>
    requires { length body.now ≤ 239 }
    ensures { result.items ≡ body_text body.now }
{
    let mut text = ArrayVec::new();
    text.push(body.len() as u8);
    text.try_extend_from_slice(body).unwrap();
    text.try_extend_from_slice(closing(body.len() + 1)).unwrap();
    text
}

// Whether a text is that of the bytes behind its first, as many as that says.
fn is_text(text: &[u8]) -> bool
    requires { 0 < length text.now }
    ensures text { result ≡ bytes_eq text.now (body_text (said text.now)) }
    ensures long { result ≡ true → slice_index text.now 0 < length text.now }
{
    let end = text[0] as usize + 1;
    end <= text.len() && &text[end..] == closing(end)
}

// The body that a text says: one to 239 bytes, where the text is just theirs.
fn body_of(text: &[u8]) -> Option<&[u8]>
    requires { 0 < length text.now }
    ensures { option_map (λ b. b.now) result ≡ body_of text.now }
{
    let n = text[0] as usize;
    if n < 1 || n > 239 || !is_text(text) {
        return None;
    }
    Some(&text[1..n + 1])
}

impl Level {
    // Whether the level takes commands of this class; `plain` says whether the card lets a channel go without codes.
    pub fn takes_class(self, plain: bool, class: u8) -> bool
        ensures { result ≡ takes_class plain class self }
    {
        match self {
            Level::Plain => plain && class == 0x80,
            Level::Mac | Level::MacEncrypted => class == 0x84,
        }
    }

    // The body of a command, with its place: a part of the data field, or of the text that `decipher_field` left.
    pub fn read_body<'a>(self, field: &'a [u8], text: &'a [u8]) -> Option<(Place, &'a [u8])>
        ensures { option_map (λ p. (p.0, p.1.now)) result ≡ body_at field.now text.now self }
    {
        match self {
            Level::Plain => Some((Place::Command, field)),
            Level::Mac => {
                let (body, _) = field.split_last_chunk::<8>()?;
                Some((Place::Command, body))
            }
            Level::MacEncrypted if text.is_empty() => Some((Place::Work, text)),
            Level::MacEncrypted => Some((Place::Work, body_of(text)?)),
        }
    }
}

impl Session {
    // Deciphers what a data field holds at level 03 to the front of the work area, and returns its length; at the other levels
    // nothing is deciphered. None, and nothing written, where it is not whole blocks and a code, or the area is below 256 bytes.
    pub fn decipher_field<C: Cipher>(&self, field: &[u8], work: &mut [u8]) -> Option<usize>
        ensures text { (result, work.new) ≡ deciphered_into work.old (text_in C.algorithm self.now field.now self.now.level) }
        ensures within { IfSome result (λ n. n ≤ length work.old) }
    {
        if work.len() < 256 {
            return None;
        }
        match self.level {
            Level::Plain | Level::Mac => Some(0),
            Level::MacEncrypted => {
                let (text, _) = field.split_last_chunk::<8>()?;
                if text.len() > 240 {
                    return None;
                }
                cbc::decipher_blocks::<C>(&self.keys.enc, &[0; 8], text, work)
            }
        }
    }

    // The code at the end of a data field, where it is the right one.
    fn right_code<C: Cipher>(&self, command: Command, body: &[u8]) -> Option<[u8; 8]>
        ensures { result ≡ right_code C.algorithm self.now (meaning command.entry) body.now }
    {
        let bare = Command {
            field: body,
            ..command
        };
        let right = self.code::<C>(bare)?;
        let (_, code) = command.field.split_last_chunk::<8>()?;
        (*code == right).then_some(right)
    }

    // The chaining value after a command with this body: a right code becomes it, and level 00 leaves it.
    pub fn check_code<C: Cipher>(&self, command: Command, body: &[u8]) -> Option<[u8; 8]>
        ensures { result ≡ chain_after C.algorithm self.now (meaning command.entry) body.now self.now.level }
    {
        match self.level {
            Level::Plain => Some(self.chain),
            Level::Mac | Level::MacEncrypted => self.right_code::<C>(command, body),
        }
    }

    // What a command inside the channel says, given the text that `decipher_field` left; `plain` says whether the card lets a
    // channel go without codes.
    pub fn unwrap<'a, C: Cipher>(
        &self,
        plain: bool,
        command: Command<'a>,
        text: &'a [u8],
    ) -> Option<Unwrapped<'a>>
        ensures { option_map answered result ≡ option_map (placed self.now.level) (unwrapped_from C.algorithm self.now plain (meaning command.entry) self.now.level text.now) }
    {
        if !self.level.takes_class(plain, command.class) {
            return None;
        }
        let (place, body) = self.level.read_body(command.field, text)?;
        let chain = self.check_code::<C>(command, body)?;
        Some(Unwrapped { place, body, chain })
    }
}
