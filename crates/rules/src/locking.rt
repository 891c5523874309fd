// A card that is locked.
ghost use Rattle.std.specs.Prelude.{◌≡◌};
ghost use Rattle.rules.specs.Rules.{unlocked};

use answers::StatusWord;
use contents::life::CardState;

// Whether a card in this state takes changes of its registry and keys.
pub(crate) fn check_unlocked(state: CardState) -> Result<(), StatusWord>
    ensures { result ≡ unlocked state }
{
    if state == CardState::CmLocked {
        return Err(StatusWord::ConditionsNotSatisfied);
    }
    Ok(())
}
