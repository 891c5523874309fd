// SET STATUS: steps in the life of a card and of its applications.
ghost use Rattle.std.specs.Prelude.{◌≡◌, true, IfSome};
ghost use Rattle.contents.specs.Contents.{held};
ghost use Rattle.contents.specs.Held.{state_fits};
ghost use Rattle.contents.specs.declared.life.EntryKind.TheVariants.{Application};
ghost use Rattle.rules.specs.Rules.{replied, nothing};
ghost use Rattle.rules.specs.SetStatus.{card_step, application_step, card_set, application_set, set_status};

use crate::Request;
use crate::locking::check_unlocked;
use answers::StatusWord;
use contents::Contents;
use contents::life::{CardState, EntryKind, EntryState};
use contents::records::is_card_manager;

// The state of this value, if the card may step to it.
fn card_step(from: CardState, p2: u8) -> Option<CardState>
    ensures { result ≡ card_step from p2 }
{
    if p2 == 0xFF {
        return Some(CardState::Terminated);
    }
    match (from, p2) {
        (CardState::OpReady, 0x07) => Some(CardState::Initialized),
        (CardState::Initialized, 0x0F) => Some(CardState::Secured),
        (CardState::Secured, 0x7F) => Some(CardState::CmLocked),
        (CardState::CmLocked, 0x0F) => Some(CardState::Secured),
        (_, _) => None,
    }
}

// The state of this value, if an application may step to it.
fn application_step(from: EntryState, p2: u8) -> Option<EntryState>
    ensures step { result ≡ application_step from p2 }
    ensures fits { IfSome result (λ s. state_fits Application s ≡ true) }
{
    match (from, p2) {
        (EntryState::Installed, 0x07) => Some(EntryState::Selectable),
        (EntryState::Selectable, 0x0F) => Some(EntryState::Personalized),
        (EntryState::Selectable, 0x7F) => Some(EntryState::Blocked),
        (EntryState::Personalized, 0x7F) => Some(EntryState::Blocked),
        (EntryState::Blocked, 0x07) => Some(EntryState::Selectable),
        (_, _) => None,
    }
}

// The card's own state.
fn set_card_state(contents: &mut Contents, p2: u8, name: &[u8]) -> Result<(), StatusWord>
    ensures { (held contents.new, replied nothing result) ≡ card_set (held contents.old) p2 name.now }
{
    if !is_card_manager(name) {
        return Err(StatusWord::NotFound);
    }
    let state = card_step(contents.state(), p2).ok_or(StatusWord::WrongData)?;
    contents.set_state(state);
    Ok(())
}

// The state of the application of this name.
fn set_application_state(contents: &mut Contents, p2: u8, name: &[u8]) -> Result<(), StatusWord>
    ensures { (held contents.new, replied nothing result) ≡ application_set (held contents.old) p2 name.now }
{
    let entry = contents.entry(name).ok_or(StatusWord::NotFound)?;
    if entry.kind == EntryKind::LoadFile {
        return Err(StatusWord::NotFound);
    }
    let state = application_step(entry.state, p2).ok_or(StatusWord::WrongData)?;
    contents.set_application_state(name, state);
    Ok(())
}

// A step of the card, or of one application.
#[tactic(auto, unfolding(crate::specs::SetStatus::set_status))]
pub fn set_status(contents: &mut Contents, request: Request) -> Result<(), StatusWord>
    ensures { (held contents.new, replied nothing result) ≡ set_status (held contents.old) request.entry.p1 request.entry.p2 request.entry.body.now }
{
    match request.p1 {
        0x80 => set_card_state(contents, request.p2, request.body),
        0x40 => {
            check_unlocked(contents.state())?;
            set_application_state(contents, request.p2, request.body)
        }
        _ => Err(StatusWord::WrongParameters),
    }
}
