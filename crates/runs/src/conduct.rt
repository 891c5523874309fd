// Conducting a card: one is made of an image, turns are handed in, and then a terminal has a channel with it.
ghost use Rattle.std.specs.Prelude.{◌≡◌, true, map, is_some, IfOk, MatchResult};
ghost use Rattle.card.specs.Cards.{view};
ghost use Rattle.terminal.specs.Sides.{side};
ghost use Rattle.runs.specs.declared.conduct.Trouble.TheVariants.{Refused};
ghost use Rattle.runs.specs.Conducting.{trouble_number, said_in, said_events, Conversed, Went, Conducted, Troubled};
ghost use Rattle.runs.specs.Conversing.{is_answered};
ghost use Rattle.runs.specs.Runs.{Onward};
ghost use Rattle.runs.specs.Turns.{input_in, event_in};
ghost use Rattle.runs.specs.WorkedRows.{WorkedRows};

use crate::converse::{Opening, open_channel};
use crate::play::play;
use crate::serve::serve;
use crate::turns::{Outcome, Served, Turn};
use answers::Refusal;
use apdu::Management;
use card::card::Card;
use card::card::make::Unmade;
use challenge::Source;
use cipher::Cipher;
use contents::records::KeySet;
use scp01::Level;
use std::alloc::{AllocError, Global};
use terminal::Terminal;

// What a terminal is to do: open a channel with a key set, a host challenge and a level, and send bare commands in it.
#[derive(Clone, Copy)]
pub struct Talk<'a> {
    pub set: KeySet,
    pub host: [u8; 8],
    pub level: Level,
    pub commands: &'a [&'a [u8]],
}

// What a terminal and a card said: what opened the channel, and, where one was open, what was sent in it.
#[derive(Drop)]
pub struct Conversation {
    pub opening: Opening,
    pub served: Option<Vec<Served>>,
}

// The card, what came of the turns, and its conversation with the terminal.
#[derive(Drop)]
pub struct Report<C, S> {
    pub card: Card<C, S, Management>,
    pub turns: Vec<Outcome>,
    pub conversation: Conversation,
}

// Want of memory, or the refusal of the image, or of a key set that no terminal takes.
#[derive(Clone, Copy)]
pub enum Trouble {
    OutOfMemory,
    Refused(Refusal),
}

impl From<Trouble> for u8 {
    ghost from_gives = { λ trouble number. number ≡ trouble_number trouble };

    fn from(trouble: Trouble) -> u8 {
        match trouble {
            Trouble::OutOfMemory => 0,
            Trouble::Refused(refusal) => refusal.into(),
        }
    }
}

// Why there is no report, and the source.
#[derive(Drop)]
pub struct Failure<S> {
    pub trouble: Trouble,
    pub source: S,
}

impl<S> From<Unmade<S>> for Failure<S> {
    ghost from_gives = { λ unmade failure. (failure.trouble ≡ Refused unmade.refusal) × (failure.source ≡ unmade.source) };

    fn from(unmade: Unmade<S>) -> Failure<S> {
        let Unmade { refusal, source } = unmade;
        Failure {
            trouble: Trouble::Refused(refusal),
            source,
        }
    }
}

// Opens a channel and, where it is open, sends the bare commands.
fn converse<C: Cipher, S: Source>(
    heap: Global,
    card: &mut Card<C, S, Management>,
    terminal: &mut Terminal<C>,
    talk: &Talk,
) -> Result<Conversation, AllocError>
    ensures conversed { IfOk result (λ c. Conversed C.algorithm (view S.Source.coming card.old) (view S.Source.coming card.new) (side terminal.old) talk.now (said_in c)) }
    ensures channelled { IfOk result (λ c. is_some (said_in c).served ≡ is_answered (said_in c).opening.1) }
    ensures onward { IfOk result (λ c. Onward C.algorithm (view S.Source.coming card.old) (said_events (said_in c)) (view S.Source.coming card.new)) }
    ensures whole { S.Source.whole card.new.source ≡ S.Source.whole card.old.source }
{
    let opening = open_channel(heap, card, terminal, &talk.set, &talk.host, talk.level)?;
    if !opening.is_open() {
        return Ok(Conversation {
            opening,
            served: None,
        });
    }
    let served = serve(heap, card, terminal, talk.commands)?;
    Ok(Conversation {
        opening,
        served: Some(served),
    })
}

// Hands in the turns, and then has the terminal open a channel and send its bare commands.
fn play_and_converse<C: Cipher, S: Source>(
    heap: Global,
    card: &mut Card<C, S, Management>,
    terminal: &mut Terminal<C>,
    turns: &[Turn],
    talk: &Talk,
) -> Result<(Vec<Outcome>, Conversation), AllocError>
    ensures went { IfOk result (λ r. Went C.algorithm (view S.Source.coming card.old) (view S.Source.coming card.new) (side terminal.old) (map input_in turns.now) talk.now (map event_in r.0.items) (said_in r.1)) }
    ensures whole { S.Source.whole card.new.source ≡ S.Source.whole card.old.source }
{
    let outcomes = play(heap, card, turns)?;
    let conversation = converse(heap, card, terminal, talk)?;
    Ok((outcomes, conversation))
}

// Makes a card of the image and a terminal of the key set, hands in the turns, and has the terminal open a channel and send its
// bare commands in it. A failure gives the source back: as it was, where the image or the key set is refused.
pub fn conduct<C: Cipher, S: Source>(
    heap: Global,
    image: &[u8],
    source: S,
    turns: &[Turn],
    talk: &Talk,
) -> Result<Report<C, S>, Failure<S>>
    ensures conducted { MatchResult result (λ report. Conducted C.algorithm image.now (S.Source.coming source) (view S.Source.coming report.card) (map input_in turns.now) talk.now (map event_in report.turns.items) (said_in report.conversation)) (λ f. Troubled image.now talk.now.set source f.source f.trouble) }
    ensures whole { MatchResult result (λ report. S.Source.whole report.card.source ≡ S.Source.whole source) (λ f. S.Source.whole f.source ≡ S.Source.whole source) }
{
    let mut card = Card::<C, S, Management>::make(image, source)?;
    let set = &talk.set;
    let keys = &set.keys;
    let mut terminal = match Terminal::<C>::make(set.version, &keys.enc, &keys.mac, &keys.kek) {
        Ok(terminal) => terminal,
        Err(refusal) => {
            return Err(Failure {
                trouble: Trouble::Refused(refusal),
                source: card.end(),
            });
        }
    };
    match play_and_converse(heap, &mut card, &mut terminal, turns, talk) {
        Ok((turns, conversation)) => Ok(Report {
            card,
            turns,
            conversation,
        }),
        Err(AllocError) => Err(Failure {
            trouble: Trouble::OutOfMemory,
            source: card.end(),
        }),
    }
}

// The worked examples hold. The call itself always answers true.
pub fn worked_rows() -> bool
    ensures answer { result ≡ true }
    ensures rows { WorkedRows }
{
    true
}
