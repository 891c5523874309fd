// Handing in a command.
ghost use Rattle.std.specs.Prelude.{◌≡◌, ◌<◌, length, replicate};
ghost use Rattle.contents.specs.Contents.{held};
ghost use Rattle.apdu.specs.Apdu.{meaning};
ghost use Rattle.card.specs.Admitting.{admitted};
ghost use Rattle.card.specs.Cards.{view, processed, Processed};
ghost use Rattle.card.specs.Models.{Answered, Did, Fit, after_reset};
ghost use Rattle.card.specs.Taking.{performed, responded, ruled};

use crate::admit::admitted;
use crate::answer::Answer;
use crate::card::Card;
use crate::channel::{Channel, Handshake};
use crate::select::select;
use crate::wipe::Wipe;
use answers::{Refusal, StatusWord};
use apdu::{Command, Instruction};
use challenge::Source;
use cipher::Cipher;
use rules::manage::OwnRule;

impl<C: Cipher, S: Source, M: OwnRule> Card<C, S, M> {
    // The own rule of an instruction, once the channel is entered.
    fn rule(
        &mut self,
        handshake: Option<Handshake>,
        instruction: Instruction<M>,
        command: Command,
        work: &mut [u8; 256],
    ) -> Result<Answer, StatusWord>
        requires { length command.field.now < 256 }
        ensures did { Did (ruled M.own_rule C.algorithm (view S.Source.coming self.old) handshake instruction (meaning command.entry)) (view S.Source.coming self.new) result }
        ensures whole { S.Source.whole self.new.source ≡ S.Source.whole self.old.source }
    {
        match instruction {
            Instruction::Select => select(&self.contents, command),
            Instruction::InitializeUpdate => self.initialize_update(command),
            Instruction::ExternalAuthenticate => self.external_authenticate(handshake, command),
            Instruction::Manage(inside) => self.manage(inside, command, work),
        }
    }

    fn perform(&mut self, command: Command, work: &mut [u8; 256]) -> Result<Answer, StatusWord>
        requires { length command.field.now < 256 }
        ensures did { Did (performed M.own_rule C.algorithm (view S.Source.coming self.old) (admitted M.named (held self.old.contents).state (meaning command.entry)) (meaning command.entry)) (view S.Source.coming self.new) result }
        ensures whole { S.Source.whole self.new.source ≡ S.Source.whole self.old.source }
    {
        let instruction = admitted::<M>(&command, self.contents.state())?;
        let handshake = self.channel.enter(instruction);
        self.rule(handshake, instruction, command, work)
    }

    // The answer to a command; the work bytes are 00 when it ends.
    fn respond(&mut self, command: &[u8], work: &mut [u8; 256]) -> Answer
        ensures did { Answered (responded M.named M.own_rule C.algorithm (view S.Source.coming self.old) command.now) (view S.Source.coming self.new) result }
        ensures whole { S.Source.whole self.new.source ≡ S.Source.whole self.old.source }
        ensures work { work.new ≡ replicate 256 0 }
    {
        let guard = Wipe { bytes: work };
        match Command::read(command) {
            None => Answer::Status(StatusWord::WrongLength),
            Some(command) => match self.perform(command, guard.bytes) {
                Ok(answer) => answer,
                Err(status) => Answer::Status(status),
            },
        }
    }

    // Hands in a command. The answer's data and status word stand at the front of the answer area, whose other bytes stay,
    // and their length is returned; the first 256 work bytes are 00 then. An answer area below 258 bytes or a work area
    // below 256 is refused, and nothing moves.
    pub fn process(
        &mut self,
        command: &[u8],
        answer: &mut [u8],
        work: &mut [u8],
    ) -> Result<usize, Refusal>
        ensures processed { Processed result (view S.Source.coming self.new) answer.new work.new (processed M.named M.own_rule C.algorithm (view S.Source.coming self.old) command.now answer.old work.old) }
        ensures whole { S.Source.whole self.new.source ≡ S.Source.whole self.old.source }
        ensures fit { Fit (view S.Source.coming self.new) }
    {
        if answer.len() < 258 {
            return Err(Refusal::AreaTooShort);
        }
        let work = work.first_chunk_mut::<256>().ok_or(Refusal::AreaTooShort)?;
        Ok(self.respond(command, work).write(answer))
    }

    // Closes the channel and drops a waiting challenge.
    pub fn reset(&mut self)
        ensures model { view S.Source.coming self.new ≡ after_reset (view S.Source.coming self.old) }
        ensures whole { S.Source.whole self.new.source ≡ S.Source.whole self.old.source }
        ensures fit { Fit (view S.Source.coming self.new) }
    {
        self.channel = Channel::Closed;
    }
}
