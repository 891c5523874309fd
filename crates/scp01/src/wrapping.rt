// Commands inside a channel, as a terminal wraps them.
ghost use Rattle.std.specs.Prelude.{◌≡◌, ◌+◌, ◌%◌, ◌<◌, ◌≤◌, ◌++◌, length};
ghost use Rattle.std.specs.Option.{option_map};
ghost use Rattle.apdu.specs.Apdu.{meaning};
ghost use Rattle.cipher.specs.Blocks.{Bytes};
ghost use Rattle.scp01.specs.Wrapping.{PutAt, PutInFront, field_bytes, le_bytes, command_bytes, command_into, longest_body, enciphered, code_of, sealed_with, sent_at, chain_sent, wrappable, wrapped, wrapped_into, length_and_chain};
ghost use Rattle.scp01.specs.Understanding.{UnderstoodIn, Keyed};

use crate::inside::body_text;
use crate::{Level, Session};
use apdu::Command;
use arrayvec::ArrayVec;
use cipher::{Cipher, cbc};

// What `wrap` answers: how many bytes stand at the front of the area, and the chaining value after them.
#[derive(Clone, Copy, PartialEq, Eq, Debug)]
pub struct Wrapped {
    pub length: usize,
    pub chain: [u8; 8],
}

// Writes bytes over the area from a place on, and returns the place behind them.
fn put(area: &mut [u8], at: usize, bytes: &[u8]) -> usize
    requires { at + length bytes.now ≤ length area.old }
    ensures { PutAt area.old area.new at result bytes.now }
{
    let end = at + bytes.len();
    area[at..end].copy_from_slice(bytes);
    end
}

// Writes Lc and the data field, where there is one, and returns the place behind them.
fn put_field(area: &mut [u8], at: usize, field: &[u8]) -> usize
    requires { (at + 1 + length field.now ≤ length area.old) × (length field.now < 256) }
    ensures { PutAt area.old area.new at result (field_bytes field.now) }
{
    if field.is_empty() {
        return at;
    }
    let behind = put(area, at, &[field.len() as u8]);
    put(area, behind, field)
}

// Writes Le, where there is one, and returns the place behind it.
fn put_le(area: &mut [u8], at: usize, le: Option<u8>) -> usize
    requires { at + 1 ≤ length area.old }
    ensures { PutAt area.old area.new at result (le_bytes le) }
{
    match le {
        None => at,
        Some(le) => put(area, at, &[le]),
    }
}

// Writes a command's bytes to the front of the area, and returns their number.
fn put_command(command: Command, area: &mut [u8]) -> usize
    requires { (261 ≤ length area.old) × (length command.field.now < 256) }
    ensures { PutInFront area.old area.new result (command_bytes (meaning command.entry)) }
{
    let header = [command.class, command.instruction, command.p1, command.p2];
    let start = put(area, 0, &header);
    let end = put_field(area, start, command.field);
    put_le(area, end, command.le)
}

// The text of a body, enciphered from zeros; nothing for an empty body.
fn enciphered<C: Cipher>(key: &[u8; 16], body: &[u8]) -> ArrayVec<u8, 240>
    requires { length body.now ≤ 239 }
    ensures { result.items ≡ enciphered C.algorithm.enc key.now body.now }
{
    if body.is_empty() {
        return ArrayVec::new();
    }
    let text = body_text(body);
    let mut blocks = body_text(body);
    cbc::encipher_blocks::<C>(key, &[0; 8], text.as_slice(), blocks.as_mut_slice()).unwrap();
    blocks
}

// Writes a command's bytes to the front of the area, whose other bytes stay, and returns their number. None, and nothing
// written, where the area is below 261 bytes or the data field longer than 255.
pub fn write_command(command: Command, area: &mut [u8]) -> Option<usize>
    ensures { (result, area.new) ≡ command_into area.old (meaning command.entry) }
{
    if area.len() < 261 || command.field.len() > 255 {
        return None;
    }
    Some(put_command(command, area))
}

// For the proof alone: what the types say of a session and a data field, known once a byte of each part is read.
fn of_bytes(session: &Session, field: &[u8])
    ensures session { Keyed session.now }
    ensures field { Bytes (length field.now) field.now }
{
    let _keys = (session.keys.enc[0], session.keys.mac[0]);
    let _chain = session.chain[0];
    let _field = field.first();
}

impl Level {
    // The longest body that the level has room for.
    fn longest_body(self) -> usize
        ensures { result ≡ longest_body self }
    {
        match self {
            Level::Plain => 255,
            Level::Mac => 247,
            Level::MacEncrypted => 239,
        }
    }

    // Whether the level can wrap a command: a bare one of class 80, whose body it has room for.
    fn can_wrap(self, command: Command) -> bool
        ensures { result ≡ wrappable (meaning command.entry) self }
    {
        command.class == 0x80 && command.field.len() <= self.longest_body()
    }
}

impl Session {
    // Writes a command with its code to the front of the area, given what stands for its body.
    fn seal<C: Cipher>(&self, command: Command, shut: &[u8], area: &mut [u8]) -> Wrapped
        requires body { length command.field.now ≤ 247 }
        requires shut { length shut.now ≤ 247 }
        requires room { 261 ≤ length area.old }
        ensures area { PutInFront area.old area.new result.length (command_bytes (sealed_with (meaning command.entry) shut.now (code_of C.algorithm self.now (meaning command.entry)))) }
        ensures chain { result.chain ≡ code_of C.algorithm self.now (meaning command.entry) }
    {
        let chain = self.code_over::<C>(command);
        let mut field = ArrayVec::<u8, 255>::new();
        field.try_extend_from_slice(shut).unwrap();
        field.try_extend_from_slice(&chain).unwrap();
        let sealed = Command {
            class: 0x84,
            field: field.as_slice(),
            ..command
        };
        let length = put_command(sealed, area);
        Wrapped { length, chain }
    }

    // Writes what the session's level sends for a command to the front of the area.
    fn send<C: Cipher>(&self, command: Command, area: &mut [u8]) -> Wrapped
        requires body { length command.field.now ≤ longest_body self.now.level }
        requires room { 261 ≤ length area.old }
        ensures area { PutInFront area.old area.new result.length (command_bytes (sent_at C.algorithm self.now (meaning command.entry) self.now.level)) }
        ensures chain { result.chain ≡ chain_sent C.algorithm self.now (meaning command.entry) self.now.level }
    {
        match self.level {
            Level::Plain => Wrapped {
                length: put_command(command, area),
                chain: self.chain,
            },
            Level::Mac => self.seal::<C>(command, command.field, area),
            Level::MacEncrypted => {
                let shut = enciphered::<C>(&self.keys.enc, command.field);
                self.seal::<C>(command, shut.as_slice(), area)
            }
        }
    }

    // Wraps a bare command of class 80: the bytes to send stand at the front of the area, whose other bytes stay. None, and
    // nothing written, where the area is below 261 bytes, the class is another, or the level has no room for the body. What is
    // wrapped is what a card unwraps.
    pub fn wrap<C: Cipher>(&self, command: Command, area: &mut [u8]) -> Option<Wrapped>
        ensures wrapped { (option_map length_and_chain result, area.new) ≡ wrapped_into area.old (wrapped C.algorithm self.now (meaning command.entry)) }
        ensures unwraps { UnderstoodIn C.algorithm self.now (meaning command.entry) area.new (option_map length_and_chain result) }
    {
        of_bytes(self, command.field);
        if area.len() < 261 || !self.level.can_wrap(command) {
            return None;
        }
        Some(self.send::<C>(command, area))
    }
}
