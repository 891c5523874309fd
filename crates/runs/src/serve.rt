// Sending bare commands inside a channel.
ghost use Rattle.std.specs.Prelude.{◌≡◌, map, length, IfOk};
ghost use Rattle.std.specs.Option.{option_map};
ghost use Rattle.card.specs.Cards.{view};
ghost use Rattle.cipher.specs.Blocks.{Bytes};
ghost use Rattle.terminal.specs.Sides.{side};
ghost use Rattle.runs.specs.Runs.{Onward};
ghost use Rattle.runs.specs.Sending.{bare_in, served_in, sending_event, Sent, Answers};

use crate::converse::of_bytes;
use crate::play::hand_in;
use crate::turns::Served;
use apdu::Management;
use card::card::Card;
use challenge::Source;
use cipher::Cipher;
use std::alloc::{AllocError, Global};
use terminal::Terminal;

// Wraps a bare command and hands it in; nothing is handed in where the terminal refuses to wrap it.
fn send<C: Cipher, S: Source>(
    heap: Global,
    card: &mut Card<C, S, Management>,
    terminal: &mut Terminal<C>,
    command: &[u8],
) -> Result<Option<Served>, AllocError>
    ensures sent { IfOk result (λ o. Sent C.algorithm (view S.Source.coming card.old) (view S.Source.coming card.new) (side terminal.old) (side terminal.new) command.now (option_map served_in o)) }
    ensures bytes { Bytes (length command.now) command.now }
    ensures whole { S.Source.whole card.new.source ≡ S.Source.whole card.old.source }
{
    of_bytes(command);
    let bare = Vec::from_slice(heap, command)?;
    let mut area = [0; 261];
    let Ok(n) = terminal.wrap(command, &mut area) else {
        return Ok(None);
    };
    let sent = hand_in(heap, card, &area[0..n])?;
    Ok(Some(Served { bare, sent }))
}

// Sends bare commands, in order: those that the terminal wraps are noted with the card's answers.
pub(crate) fn serve<C: Cipher, S: Source>(
    heap: Global,
    card: &mut Card<C, S, Management>,
    terminal: &mut Terminal<C>,
    commands: &[&[u8]],
) -> Result<Vec<Served>, AllocError>
    ensures answers { IfOk result (λ v. Answers C.algorithm (view S.Source.coming card.old) (side terminal.old) (view S.Source.coming card.new) (side terminal.new) (bare_in commands.now) (map served_in v.items)) }
    ensures onward { IfOk result (λ v. Onward C.algorithm (view S.Source.coming card.old) (map sending_event (map served_in v.items)) (view S.Source.coming card.new)) }
    ensures whole { S.Source.whole card.new.source ≡ S.Source.whole card.old.source }
{
    let mut all = Vec::new(heap);
    for command in commands {
        if let Some(served) = send(heap, card, terminal, command)? {
            all.push(served)?;
        }
    }
    Ok(all)
}
