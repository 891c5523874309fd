// Handing in turns, one by one.
ghost use Rattle.std.specs.Prelude.{◌≡◌, map, IfOk};
ghost use Rattle.card.specs.Cards.{view};
ghost use Rattle.card.specs.Models.{Fit};
ghost use Rattle.runs.specs.Turns.{input_in, event_in, exchanged, Handed, HandedIn, Turned, Played};

use crate::turns::{Exchange, Outcome, Turn};
use apdu::Management;
use card::card::Card;
use challenge::Source;
use cipher::Cipher;
use std::alloc::{AllocError, Global};

// Hands in a command, with a work area of its own; the answer stands at the front of a lent area, and its length is returned.
fn ask<C: Cipher, S: Source>(
    card: &mut Card<C, S, Management>,
    bytes: &[u8],
    answer: &mut [u8; 258],
) -> usize
    ensures handed { Handed C.algorithm (view S.Source.coming card.old) (view S.Source.coming card.new) bytes.now answer.new result }
    ensures fit { Fit (view S.Source.coming card.new) }
    ensures whole { S.Source.whole card.new.source ≡ S.Source.whole card.old.source }
{
    let mut work = [0; 256];
    card.process(bytes, answer, &mut work).unwrap()
}

// Hands in a command, with areas of its own.
pub(crate) fn hand_in<C: Cipher, S: Source>(
    heap: Global,
    card: &mut Card<C, S, Management>,
    bytes: &[u8],
) -> Result<Exchange, AllocError>
    ensures handed { IfOk result (λ x. HandedIn C.algorithm (view S.Source.coming card.old) (view S.Source.coming card.new) bytes.now (exchanged x)) }
    ensures whole { S.Source.whole card.new.source ≡ S.Source.whole card.old.source }
{
    let command = Vec::from_slice(heap, bytes)?;
    let mut area = [0; 258];
    let n = ask(card, bytes, &mut area);
    let answer = Vec::from_slice(heap, &area[0..n])?;
    Ok(Exchange { command, answer })
}

fn take_turn<C: Cipher, S: Source>(
    heap: Global,
    card: &mut Card<C, S, Management>,
    turn: &Turn,
) -> Result<Outcome, AllocError>
    ensures turned { IfOk result (λ e. Turned C.algorithm (view S.Source.coming card.old) (view S.Source.coming card.new) (input_in turn.now) (event_in e)) }
    ensures whole { S.Source.whole card.new.source ≡ S.Source.whole card.old.source }
{
    match turn {
        Turn::Reset => {
            card.reset();
            Ok(Outcome::Reset)
        }
        Turn::Command(bytes) => {
            let exchange = hand_in(heap, card, *bytes)?;
            Ok(Outcome::Answered(exchange))
        }
    }
}

// Hands in all turns, in order.
pub(crate) fn play<C: Cipher, S: Source>(
    heap: Global,
    card: &mut Card<C, S, Management>,
    turns: &[Turn],
) -> Result<Vec<Outcome>, AllocError>
    ensures played { IfOk result (λ v. Played C.algorithm (view S.Source.coming card.old) (view S.Source.coming card.new) (map input_in turns.now) (map event_in v.items)) }
    ensures whole { S.Source.whole card.new.source ≡ S.Source.whole card.old.source }
{
    let mut outcomes = Vec::new(heap);
    for turn in turns {
        let outcome = take_turn(heap, card, turn)?;
        outcomes.push(outcome)?;
    }
    Ok(outcomes)
}
