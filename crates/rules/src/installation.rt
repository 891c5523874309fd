// INSTALL: an application joins the registry.
ghost use Rattle.std.specs.Prelude.{◌≡◌, true, Some, IfSome};
ghost use Rattle.std.specs.Option.{option_map};
ghost use Rattle.contents.specs.Contents.{held};
ghost use Rattle.contents.specs.Changes.{is_name};
ghost use Rattle.contents.specs.Held.{state_fits};
ghost use Rattle.contents.specs.declared.life.EntryKind.TheVariants.{Application};
ghost use Rattle.rules.specs.Rules.{replied, itself};
ghost use Rattle.rules.specs.Install.{state_asked, privileges_in, installation_in, is_load_file, installed_by, installed};
ghost use Rattle.rules.specs.Installations.{asked};

use crate::Request;
use crate::locking::check_unlocked;
use crate::names::name_ahead;
use answers::StatusWord;
use contents::Contents;
use contents::life::{EntryKind, EntryState};
use contents::records::{Entry, is_card_manager};

// What a body asks for.
#[derive(Clone, Copy)]
struct Installation<'a> {
    file: &'a [u8],
    name: &'a [u8],
    privileges: u8,
}

// The state that an application is installed in.
fn state_asked(p1: u8, p2: u8) -> Option<EntryState>
    ensures state { result ≡ state_asked p1 p2 }
    ensures fits { IfSome result (λ s. state_fits Application s ≡ true) }
{
    match (p1, p2) {
        (0x04, 0x00) => Some(EntryState::Installed),
        (0x0C, 0x00) => Some(EntryState::Selectable),
        (_, _) => None,
    }
}

// The privileges behind the names: 01 and the privileges, parameters behind their length, 00, and no more.
fn privileges_in(rest: &[u8]) -> Option<u8>
    ensures { result ≡ privileges_in rest.now }
{
    let [0x01, privileges, len, parameters @ .., 0x00] = rest else {
        return None;
    };
    if parameters.len() != *len as usize {
        return None;
    }
    Some(*privileges)
}

// The names of load file, module and application, then the privileges. The module's name is only read.
fn installation_in(body: &[u8]) -> Option<Installation<'_>>
    ensures asked { option_map asked result ≡ installation_in body.now }
    ensures named { IfSome result (λ x. is_name x.name.now ≡ true) }
{
    let (file, rest) = name_ahead(body)?;
    let (_module, rest) = name_ahead(rest)?;
    let (name, rest) = name_ahead(rest)?;
    let privileges = privileges_in(rest)?;
    Some(Installation {
        file,
        name,
        privileges,
    })
}

fn is_load_file(entry: Option<Entry>) -> bool
    ensures { result ≡ is_load_file entry }
{
    entry.is_some_and(|entry| entry.kind == EntryKind::LoadFile)
}

fn install_as(
    contents: &mut Contents,
    state: EntryState,
    installation: Installation,
) -> Result<[u8; 1], StatusWord>
    requires { (state_fits Application state ≡ true) × (is_name installation.name.now ≡ true) }
    ensures { (held contents.new, replied itself result) ≡ installed_by (held contents.old) state (Some (asked installation.entry)) }
{
    if !is_load_file(contents.entry(installation.file)) {
        return Err(StatusWord::NotFound);
    }
    if is_card_manager(installation.name) || contents.has_name(installation.name) {
        return Err(StatusWord::WrongData);
    }
    if !contents.add_application(installation.name, state, installation.privileges) {
        return Err(StatusWord::NotEnoughSpace);
    }
    Ok([0x00])
}

// Registers an application of a load file.
#[tactic(auto, unfolding(crate::specs::Install::installed))]
pub fn install(contents: &mut Contents, request: Request) -> Result<[u8; 1], StatusWord>
    ensures { (held contents.new, replied itself result) ≡ installed (held contents.old) request.entry.p1 request.entry.p2 request.entry.body.now }
{
    let state = state_asked(request.p1, request.p2).ok_or(StatusWord::WrongParameters)?;
    check_unlocked(contents.state())?;
    let installation = installation_in(request.body).ok_or(StatusWord::WrongData)?;
    install_as(contents, state, installation)
}
