// Wrapping commands for an open channel.
ghost use Rattle.std.specs.Prelude.{◌≡◌};
ghost use Rattle.terminal.specs.Sides.{side, wraps};

use crate::{AREA, Phase, Terminal};
use answers::Refusal;
use apdu::{Command, Management};
use cipher::Cipher;
use scp01::Session;

impl<C: Cipher> Terminal<C> {
    // Turns a bare channel command of class 80 into what the card unwraps, and keeps the new chaining value.
    pub fn wrap(&mut self, command: &[u8], area: &mut [u8]) -> Result<usize, Refusal>
        ensures { (result, side self.new, area.new) ≡ wraps C.algorithm (side self.old) command.now area.old }
    {
        if area.len() < AREA {
            return Err(Refusal::AreaTooShort);
        }
        let Phase::Open(session) = self.phase else {
            return Err(Refusal::OutOfOrder);
        };
        let command = Command::read(command).ok_or(Refusal::IllArgument)?;
        Management::try_from(command.instruction).map_err(|_| Refusal::IllArgument)?;
        let sent = session
            .wrap::<C>(command, area)
            .ok_or(Refusal::IllArgument)?;
        let chain = sent.chain;
        self.phase = Phase::Open(Session { chain, ..session });
        Ok(sent.length)
    }
}
