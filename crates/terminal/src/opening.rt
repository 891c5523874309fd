// Making a terminal, and opening a channel with it.
ghost use Rattle.std.specs.Prelude.{◌≡◌, ℕ, ◌≤◌, length, if◌then◌else◌, Ok, Err, MatchResult, nat_eq};
ghost use Rattle.answers.specs.declared.Refusal.TheVariants.{IllArgument};
ghost use Rattle.terminal.specs.Sides.{side, made_of, begins, update_in, authenticates, checks};

use crate::{AREA, Phase, Terminal};
use answers::Refusal;
use apdu::Command;
use cipher::{Cipher, Keys};
use scp01::wrapping::write_command;
use scp01::{ChallengePair, Level, Session};
use std::marker::PhantomData;

// What a card shows in its answer to INITIALIZE UPDATE.
#[derive(Clone, Copy)]
struct Shown {
    challenge: [u8; 8],
    cryptogram: [u8; 8],
}

impl Shown {
    // What such an answer shows, for a key set of this version.
    fn read(version: u8, answer: &[u8]) -> Option<Shown>
        ensures { result ≡ update_in version answer.now }
    {
        if answer.len() != 30
            || answer[10] != version
            || answer[11] != 0x01
            || answer[28..] != [0x90, 0x00]
        {
            return None;
        }
        Some(Shown {
            challenge: answer[12..20].try_into().ok()?,
            cryptogram: answer[20..28].try_into().ok()?,
        })
    }
}

// A key, which has sixteen bytes.
fn key(bytes: &[u8]) -> Result<[u8; 16], Refusal>
    ensures { result ≡ (if nat_eq (length bytes.now) 16 then Ok bytes.now else Err IllArgument) }
{
    bytes.try_into().map_err(|_| Refusal::IllArgument)
}

impl<C: Cipher> Terminal<C> {
    // A terminal of a key set: a version from 01 to 7F and three keys of sixteen bytes.
    pub fn make(version: u8, enc: &[u8], mac: &[u8], kek: &[u8]) -> Result<Terminal<C>, Refusal>
        ensures { MatchResult result (λ t. Ok (side t) ≡ made_of version enc.now mac.now kek.now) (λ e. Err e ≡ made_of version enc.now mac.now kek.now) }
    {
        if version < 0x01 || version > 0x7F {
            return Err(Refusal::IllArgument);
        }
        let keys = Keys {
            enc: key(enc)?,
            mac: key(mac)?,
            kek: key(kek)?,
        };
        Ok(Terminal {
            version,
            keys,
            phase: Phase::Made,
            cipher: PhantomData,
        })
    }

    // INITIALIZE UPDATE with a host challenge of eight bytes; it starts over.
    pub fn begin(&mut self, host: &[u8], area: &mut [u8]) -> Result<usize, Refusal>
        ensures { (result, side self.new, area.new) ≡ begins (side self.old) host.now area.old }
    {
        if area.len() < AREA {
            return Err(Refusal::AreaTooShort);
        }
        let host = <[u8; 8]>::try_from(host).map_err(|_| Refusal::IllArgument)?;
        self.phase = Phase::Begun(host);
        let update = Command {
            class: 0x80,
            instruction: 0x50,
            p1: self.version,
            p2: 0x00,
            field: &host,
            le: None,
        };
        Ok(write_command(update, area).unwrap())
    }

    // EXTERNAL AUTHENTICATE at a level, once the card's answer to INITIALIZE UPDATE is found right.
    pub fn authenticate(
        &mut self,
        answer: &[u8],
        level: u8,
        area: &mut [u8],
    ) -> Result<usize, Refusal>
        ensures { (result, side self.new, area.new) ≡ authenticates C.algorithm (side self.old) answer.now level area.old }
    {
        if area.len() < AREA {
            return Err(Refusal::AreaTooShort);
        }
        let Phase::Begun(host) = self.phase else {
            return Err(Refusal::OutOfOrder);
        };
        let level = Level::try_from(level).map_err(|_| Refusal::IllArgument)?;
        let shown = Shown::read(self.version, answer);
        self.open(host, shown, level, area)
    }

    // EXTERNAL AUTHENTICATE upon what the card shows: its cryptogram is checked before the terminal shows its own.
    fn open(
        &mut self,
        host: [u8; 8],
        shown: Option<Shown>,
        level: Level,
        area: &mut [u8],
    ) -> Result<usize, Refusal>
        requires { 261 ≤ length area.old }
        ensures { (result, side self.new, area.new) ≡ checks C.algorithm (side self.old) host shown level area.old }
    {
        self.phase = Phase::Made;
        let shown = shown.ok_or(Refusal::WrongAnswer)?;
        let challenges = ChallengePair {
            host,
            card: shown.challenge,
        };
        let keys = challenges.session_keys::<C>(&self.keys);
        if shown.cryptogram != challenges.card_cryptogram::<C>(&keys) {
            return Err(Refusal::WrongCryptogram);
        }
        let cryptogram = challenges.host_cryptogram::<C>(&keys);
        let session = Session::open::<C>(level, keys, &cryptogram);
        let code = session.chain;
        self.phase = Phase::Open(session);
        let field = [cryptogram, code];
        let authenticate = Command {
            class: 0x84,
            instruction: 0x82,
            p1: level.into(),
            p2: 0x00,
            field: field.as_flattened(),
            le: None,
        };
        Ok(write_command(authenticate, area).unwrap())
    }
}
