// SCP01: what card and terminal both work out of a key set, two challenges and a command.
#![tactic(auto)]

ghost use Rattle.std.specs.Prelude.{◌≡◌, ℕ, ◌+◌, ◌≤◌, [], ◌∷◌, ◌++◌, length, Some, None, nat_lt};
ghost use Rattle.std.specs.Result.{result_ok};
ghost use Rattle.arrayvec.specs.ArrayVec.{array_vec_len};
ghost use Rattle.cipher.specs.Blocks.{zeros};
ghost use Rattle.cipher.specs.Mac.{mac};
ghost use Rattle.scp01.specs.Levels.{level_value, level_of, session};
ghost use Rattle.scp01.specs.Session.{session_key, session_keys, card_cryptogram, host_cryptogram, coded, command_code};
ghost use Rattle.scp01.specs.Inside.{code_for};

use apdu::Command;
use arrayvec::ArrayVec;
use cipher::{Cipher, Keys, mac};

pub mod inside;
pub mod wrapping;

// How the commands of a channel are secured.
#[derive(Clone, Copy, PartialEq, Eq, Debug)]
pub enum Level {
    // not at all
    Plain = 0x00,
    // by a code
    Mac = 0x01,
    // by a code, and enciphered
    MacEncrypted = 0x03,
}

// A byte that is no security level's.
#[derive(Clone, Copy, PartialEq, Eq, Debug)]
pub struct UnknownLevel;

// An open channel: its security level, its session keys, and its chaining value, which is the last code that was found right.
#[derive(Clone, Copy)]
pub struct Session {
    pub level: Level,
    pub keys: Keys,
    pub chain: [u8; 8],
}

// The host challenge, which the terminal sends, and the card challenge, with which the card answers it.
#[derive(Clone, Copy)]
pub struct ChallengePair {
    pub host: [u8; 8],
    pub card: [u8; 8],
}

impl From<Level> for u8 {
    ghost from_gives = { λ level value. value ≡ level_value level };

    fn from(level: Level) -> u8 {
        level as u8
    }
}

impl TryFrom<u8> for Level {
    type Error = UnknownLevel;

    ghost try_from_gives = { λ value level. result_ok level ≡ level_of value };

    fn try_from(value: u8) -> Result<Level, UnknownLevel> {
        match value {
            0x00 => Ok(Level::Plain),
            0x01 => Ok(Level::Mac),
            0x03 => Ok(Level::MacEncrypted),
            _ => Err(UnknownLevel),
        }
    }
}

// Two parts in a row.
fn joined<const N: usize>(left: &[u8], right: &[u8]) -> [u8; N]
    requires { length left.now + length right.now ≡ N }
    ensures { result ≡ left.now ++ right.now }
{
    let mut bytes = [0; N];
    let (front, back) = bytes.split_at_mut(left.len());
    front.copy_from_slice(left);
    back.copy_from_slice(right);
    bytes
}

impl ChallengePair {
    // A session key from a key of the key set.
    fn session_key<C: Cipher>(&self, key: &[u8; 16]) -> [u8; 16]
        ensures { result ≡ session_key C.algorithm.enc key.now self.now.host self.now.card }
    {
        let keys = C::expand(key);
        let first = joined(&self.card[4..8], &self.host[0..4]);
        let second = joined(&self.card[0..4], &self.host[4..8]);
        joined(&C::encipher(&keys, &first), &C::encipher(&keys, &second))
    }

    // The session keys of a key set.
    pub fn session_keys<C: Cipher>(&self, set: &Keys) -> Keys
        ensures { result ≡ session_keys C.algorithm.enc set.now.enc set.now.mac set.now.kek self.now.host self.now.card }
    {
        Keys {
            enc: self.session_key::<C>(&set.enc),
            mac: self.session_key::<C>(&set.mac),
            kek: set.kek,
        }
    }

    // What the card shows the terminal, under the session keys.
    pub fn card_cryptogram<C: Cipher>(&self, keys: &Keys) -> [u8; 8]
        ensures { result ≡ card_cryptogram C.algorithm.enc keys.now.enc self.now.host self.now.card }
    {
        cryptogram::<C>(&keys.enc, &self.host, &self.card)
    }

    // What the terminal shows the card, under the session keys.
    pub fn host_cryptogram<C: Cipher>(&self, keys: &Keys) -> [u8; 8]
        ensures { result ≡ host_cryptogram C.algorithm.enc keys.now.enc self.now.host self.now.card }
    {
        cryptogram::<C>(&keys.enc, &self.card, &self.host)
    }
}

// The code of two challenges in a row, from zeros.
fn cryptogram<C: Cipher>(key: &[u8; 16], first: &[u8; 8], second: &[u8; 8]) -> [u8; 8]
    ensures { result ≡ mac C.algorithm.enc key.now zeros (first.now ++ second.now) }
{
    mac::code::<C>(key, &[0; 8], &joined::<16>(first, second))
}

impl Session {
    // The channel that EXTERNAL AUTHENTICATE opens: the command's code over the host cryptogram, from zeros, begins the chain.
    pub fn open<C: Cipher>(level: Level, keys: Keys, cryptogram: &[u8; 8]) -> Session
        ensures { result ≡ session level keys (command_code C.algorithm.enc keys.mac zeros 0x82 (level_value level) 0x00 cryptogram.now) }
    {
        let mut session = Session {
            level,
            keys,
            chain: [0; 8],
        };
        session.chain = session.code_over::<C>(Command {
            class: 0x84,
            instruction: 0x82,
            p1: level.into(),
            p2: 0x00,
            field: cryptogram,
            le: None,
        });
        session
    }

    // The code of a bare command, whose data field is the body, from the chaining value; none for a body that no command with a
    // code has room for.
    pub fn code<C: Cipher>(&self, command: Command) -> Option<[u8; 8]>
        ensures { result ≡ code_for C.algorithm self.now command.entry.instruction command.entry.p1 command.entry.p2 command.entry.field.now }
    {
        if command.field.len() > 247 {
            return None;
        }
        Some(self.code_over::<C>(command))
    }

    fn code_over<C: Cipher>(&self, command: Command) -> [u8; 8]
        requires { length command.field.now ≤ 247 }
        ensures { result ≡ command_code C.algorithm.enc self.now.keys.mac self.now.chain command.entry.instruction command.entry.p1 command.entry.p2 command.entry.field.now }
    {
        let length = command.field.len() as u8 + 8;
        let header = [0x84, command.instruction, command.p1, command.p2, length];
        let mut message = ArrayVec::<u8, 252>::new();
        message.try_extend_from_slice(&header).unwrap();
        message.try_extend_from_slice(command.field).unwrap();
        mac::code::<C>(&self.keys.mac, &self.chain, message.as_slice())
    }
}
