// A script played on a card.
ghost use Rattle.std.specs.Prelude.{◌≡◌, ℕ, List, [], map, take, drop, IfOk, codes, slice_index_or};
ghost use Rattle.std.specs.Str.{bytes_eq};
ghost use Rattle.answers.specs.Numbers.{status_bytes};
ghost use Rattle.card.specs.Cards.{view};
ghost use Rattle.card.specs.Taking.{responded};
ghost use Rattle.script.specs.Digits.{line_bytes};
ghost use Rattle.script.specs.Lines.{lines_of};
ghost use Rattle.script.specs.Printed.{printed};
ghost use Rattle.script.specs.Rows.{row_bytes};
ghost use Rattle.script.specs.Turns.{turn_of, took, rows_from};

use crate::digits::line_bytes;
use crate::lines::Lines;
use crate::row::Row;
use answers::Refusal;
use card::card::Card;
use challenge::Source;
use challenge::recorded::Recorded;
use cipher::Cipher;
use rules::manage::OwnRule;
use std::alloc::{AllocError, Global};

// How many lines behind the first two are read.
const MOST_TURNS: u16 = 4096;

fn is_reset(line: &[u8]) -> bool
    ensures { result ≡ bytes_eq line.now (codes "RESET") }
{
    line == b"RESET".as_slice()
}

// Hands in a command, and gives the status word of the answer.
fn status_word<C: Cipher, S: Source, M: OwnRule>(
    card: &mut Card<C, S, M>,
    command: &[u8],
) -> [u8; 2]
    ensures model { view S.Source.coming card.new ≡ (responded M.named M.own_rule C.algorithm (view S.Source.coming card.old) command.now).0 }
    ensures status { result ≡ status_bytes (responded M.named M.own_rule C.algorithm (view S.Source.coming card.old) command.now).1.status }
{
    let mut answer = [0; 258];
    let mut work = [0; 256];
    let len = card.process(command, &mut answer, &mut work).unwrap();
    [answer[len - 2], answer[len - 1]]
}

// What a line behind the first two does to the card, and the row that is printed for it.
fn take_turn<C: Cipher, S: Source, M: OwnRule>(
    heap: Global,
    card: &mut Card<C, S, M>,
    number: u16,
    line: &[u8],
) -> Result<Row, AllocError>
    ensures { IfOk result (λ row. (view S.Source.coming card.new, row) ≡ took M.named M.own_rule C.algorithm (view S.Source.coming card.old) number (turn_of line.now)) }
{
    if is_reset(line) {
        card.reset();
        return Ok(Row::Reset(number));
    }
    let command = line_bytes(heap, line)?;
    Ok(Row::Answered(number, status_word(card, command.as_slice())))
}

// The rows of the lines that are left.
fn rows<C: Cipher, S: Source, M: OwnRule>(
    heap: Global,
    card: &mut Card<C, S, M>,
    mut lines: Lines,
) -> Result<Vec<u8>, AllocError>
    ensures { IfOk result (λ v. v.items ≡ rows_from M.named M.own_rule C.algorithm (view S.Source.coming card.old) 1 (map turn_of (take 4096 (lines_of lines.entry.left.now)))) }
{
    let mut printed = Vec::new(heap);
    for number in 1..=MOST_TURNS {
        let Some(line) = lines.take_line() else {
            break;
        };
        let row = take_turn(heap, card, number, line)?;
        printed.extend_from_slice(row.to_string(heap)?.as_bytes())?;
    }
    Ok(printed)
}

// The row of an image that makes no card.
fn refused(heap: Global, refusal: Refusal) -> Result<Vec<u8>, AllocError>
    ensures { IfOk result (λ v. v.items ≡ row_bytes (Row.ImageRefused refusal)) }
{
    Ok(Row::ImageRefused(refusal).to_string(heap)?.into_bytes())
}

// The bytes of the next line; a missing line counts as empty.
fn next_bytes(heap: Global, lines: &mut Lines) -> Result<Vec<u8>, AllocError>
    ensures bytes { IfOk result (λ v. v.items ≡ line_bytes (slice_index_or (lines_of lines.old.left.now) 0 [])) }
    ensures rest { lines_of lines.new.left.now ≡ drop 1 (lines_of lines.old.left.now) }
{
    match lines.take_line() {
        Some(line) => line_bytes(heap, line),
        None => Ok(Vec::new(heap)),
    }
}

// What is printed for a script by a card with the cipher `C` and the commands `M` inside a channel: line 1 is an image, line 2
// has recorded challenges, and the lines behind them are turns of the card.
pub fn run<C: Cipher, M: OwnRule>(heap: Global, script: &[u8]) -> Result<Vec<u8>, AllocError>
    ensures { IfOk result (λ v. v.items ≡ printed M.named M.own_rule C.algorithm script.now) }
{
    let mut lines = Lines::new(script);
    let image = next_bytes(heap, &mut lines)?;
    let challenges = next_bytes(heap, &mut lines)?;
    let source = Recorded::new(heap, challenges.as_slice())?;
    match Card::<C, Recorded, M>::make(image.as_slice(), source) {
        Ok(mut card) => {
            let printed = rows(heap, &mut card, lines);
            let _ = card.end();
            printed
        }
        Err(unmade) => refused(heap, unmade.refusal),
    }
}
