// A terminal's side of a channel with a card: handing in what it writes, and opening the channel.
ghost use Rattle.std.specs.Prelude.{◌≡◌, length, IfOk};
ghost use Rattle.std.specs.Option.{option_map};
ghost use Rattle.card.specs.Cards.{view};
ghost use Rattle.cipher.specs.Blocks.{Bytes};
ghost use Rattle.terminal.specs.Sides.{side};
ghost use Rattle.runs.specs.Conversing.{Began, Carried, Opens, is_answered, opening_events, opening_in, showing};
ghost use Rattle.runs.specs.Events.{is9000};
ghost use Rattle.runs.specs.Runs.{Onward};
ghost use Rattle.runs.specs.Turns.{exchanged};

use crate::play::hand_in;
use crate::turns::Exchange;
use apdu::Management;
use card::card::Card;
use challenge::Source;
use cipher::Cipher;
use contents::records::KeySet;
use scp01::Level;
use std::alloc::{AllocError, Global};
use terminal::Terminal;

// What opens a channel: INITIALIZE UPDATE, and EXTERNAL AUTHENTICATE where the terminal found the card's answer right.
#[derive(Drop)]
pub struct Opening {
    pub update: Exchange,
    pub authenticate: Option<Exchange>,
}

// For the proof alone: bytes are below 256, known once one is read.
pub(crate) fn of_bytes(bytes: &[u8])
    ensures { Bytes (length bytes.now) bytes.now }
{
    let _first = bytes.first();
}

// Whether an answer ends with 9000.
fn is_success(answer: &[u8]) -> bool
    ensures { result ≡ is9000 answer.now }
{
    answer[answer.len().saturating_sub(2)..] == [0x90, 0x00]
}

impl Opening {
    // Whether EXTERNAL AUTHENTICATE was answered 9000.
    pub fn is_open(&self) -> bool
        ensures { result ≡ is_answered (opening_in self.now).1 }
    {
        self.authenticate
            .as_ref()
            .is_some_and(|exchange| is_success(&exchange.answer))
    }
}

// INITIALIZE UPDATE with a host challenge.
fn begin<C: Cipher, S: Source>(
    heap: Global,
    card: &mut Card<C, S, Management>,
    terminal: &mut Terminal<C>,
    host: &[u8; 8],
) -> Result<Exchange, AllocError>
    ensures began { IfOk result (λ x. Began C.algorithm (view S.Source.coming card.old) (view S.Source.coming card.new) (side terminal.old) (side terminal.new) host.now (exchanged x)) }
    ensures whole { S.Source.whole card.new.source ≡ S.Source.whole card.old.source }
{
    let mut area = [0; 261];
    let n = terminal.begin(host, &mut area).unwrap();
    hand_in(heap, card, &area[0..n])
}

// EXTERNAL AUTHENTICATE at a level, upon the card's answer to INITIALIZE UPDATE; nothing is handed in where the terminal refuses
// that answer.
fn authenticate<C: Cipher, S: Source>(
    heap: Global,
    card: &mut Card<C, S, Management>,
    terminal: &mut Terminal<C>,
    answer: &[u8],
    level: Level,
) -> Result<Option<Exchange>, AllocError>
    ensures carried { IfOk result (λ o. Carried C.algorithm (view S.Source.coming card.old) (view S.Source.coming card.new) (showing C.algorithm (side terminal.old) answer.now level) (option_map exchanged o)) }
    ensures terminal { (side terminal.new) ≡ (showing C.algorithm (side terminal.old) answer.now level).1 }
    ensures whole { S.Source.whole card.new.source ≡ S.Source.whole card.old.source }
{
    let mut area = [0; 261];
    let Ok(n) = terminal.authenticate(answer, u8::from(level), &mut area) else {
        return Ok(None);
    };
    let exchange = hand_in(heap, card, &area[0..n])?;
    Ok(Some(exchange))
}

// Opens a channel at a level with one of the card's key sets. Both commands are answered 9000 where the card is not TERMINATED and
// its source is not spent.
pub(crate) fn open_channel<C: Cipher, S: Source>(
    heap: Global,
    card: &mut Card<C, S, Management>,
    terminal: &mut Terminal<C>,
    set: &KeySet,
    host: &[u8; 8],
    level: Level,
) -> Result<Opening, AllocError>
    ensures opened { IfOk result (λ o. Opens C.algorithm (view S.Source.coming card.old) (view S.Source.coming card.new) (side terminal.old) (side terminal.new) set.now host.now level (opening_in o)) }
    ensures onward { IfOk result (λ o. Onward C.algorithm (view S.Source.coming card.old) (opening_events (opening_in o)) (view S.Source.coming card.new)) }
    ensures whole { S.Source.whole card.new.source ≡ S.Source.whole card.old.source }
{
    of_bytes(&set.keys.enc);
    of_bytes(&set.keys.mac);
    of_bytes(host);
    let update = begin(heap, card, terminal, host)?;
    of_bytes(&update.answer);
    let authenticate = authenticate(heap, card, terminal, &update.answer, level)?;
    Ok(Opening {
        update,
        authenticate,
    })
}
