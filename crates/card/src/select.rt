// SELECT.
ghost use Rattle.std.specs.Prelude.{◌≡◌};
ghost use Rattle.contents.specs.Contents.{held};
ghost use Rattle.apdu.specs.Apdu.{meaning};
ghost use Rattle.card.specs.Replies.{replied};
ghost use Rattle.card.specs.Selecting.{manager_status, found_status, selected};

use crate::answer::Answer;
use answers::StatusWord;
use apdu::Command;
use contents::Contents;
use contents::life::{CardState, EntryKind};
use contents::records::{Entry, is_card_manager};

// A locked card warns.
fn manager_status(state: CardState) -> StatusWord
    ensures { result ≡ manager_status state }
{
    if state == CardState::CmLocked {
        StatusWord::SelectedLocked
    } else {
        StatusWord::Success
    }
}

// Applications cannot be selected, load files are not there to be.
fn found_status(entry: Option<Entry>) -> StatusWord
    ensures { result ≡ found_status entry }
{
    match entry {
        Some(entry) if entry.kind == EntryKind::Application => StatusWord::FunctionNotSupported,
        _ => StatusWord::FileNotFound,
    }
}

pub(crate) fn select(contents: &Contents, command: Command) -> Result<Answer, StatusWord>
    ensures { replied result ≡ selected (held contents.now) (meaning command.entry) }
{
    if command.p1 != 0x04 || command.p2 != 0x00 {
        return Err(StatusWord::WrongParameters);
    }
    let name = command.field;
    if name.len() < 5 || name.len() > 16 {
        return Err(StatusWord::WrongLength);
    }
    if is_card_manager(name) {
        return Ok(Answer::Manager(manager_status(contents.state())));
    }
    Err(found_status(contents.entry(name)))
}
