// Which commands a card takes at all.
ghost use Rattle.std.specs.Prelude.{◌≡◌};
ghost use Rattle.apdu.specs.Apdu.{meaning};
ghost use Rattle.card.specs.Admitting.{admitted};

use answers::StatusWord;
use apdu::{ChannelCommand, Command, Instruction, known_class};
use contents::life::CardState;

// The instruction, if a card in this state takes the command; the checks come in the order of the status words.
pub(crate) fn admitted<M: ChannelCommand>(
    command: &Command,
    state: CardState,
) -> Result<Instruction<M>, StatusWord>
    ensures { result ≡ admitted M.named state (meaning command.now) }
{
    if state == CardState::Terminated {
        return Err(StatusWord::ConditionsNotSatisfied);
    }
    if !known_class(command.class) {
        return Err(StatusWord::ClassUnknown);
    }
    let instruction = Instruction::<M>::try_from(command.instruction).map_err(
        |_| StatusWord::InstructionUnknown,
    )?;
    if !instruction.owns(command.class) {
        return Err(StatusWord::ClassUnknown);
    }
    Ok(instruction)
}
