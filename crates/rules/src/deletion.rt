// DELETE: one entry goes.
ghost use Rattle.std.specs.Prelude.{◌≡◌};
ghost use Rattle.std.specs.Option.{option_map};
ghost use Rattle.contents.specs.Contents.{held};
ghost use Rattle.rules.specs.Rules.{replied, itself};
ghost use Rattle.rules.specs.Delete.{deleted_name, deleted};

use crate::Request;
use crate::locking::check_unlocked;
use crate::names::name_ahead;
use answers::StatusWord;
use contents::Contents;

// The name in the body: 4F, its length, its bytes, and no more.
fn deleted_name(body: &[u8]) -> Option<&[u8]>
    ensures { option_map (λ x. x.now) result ≡ deleted_name body.now }
{
    let [0x4F, field @ ..] = body else {
        return None;
    };
    match name_ahead(field)? {
        (name, []) => Some(name),
        (_, _) => None,
    }
}

// Takes out the load file or the application of the name in the body.
#[tactic(auto, unfolding(crate::specs::Delete::deleted))]
pub fn delete(contents: &mut Contents, request: Request) -> Result<[u8; 1], StatusWord>
    ensures { (held contents.new, replied itself result) ≡ deleted (held contents.old) request.entry.p1 request.entry.p2 request.entry.body.now }
{
    if request.p1 != 0x00 || request.p2 != 0x00 {
        return Err(StatusWord::WrongParameters);
    }
    check_unlocked(contents.state())?;
    let name = deleted_name(request.body).ok_or(StatusWord::WrongData)?;
    if !contents.remove_entry(name) {
        return Err(StatusWord::NotFound);
    }
    Ok([0x00])
}
