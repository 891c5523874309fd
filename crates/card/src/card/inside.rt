// The commands inside the channel: the command is read in the open channel, and its own rule answers.
ghost use Rattle.std.specs.Prelude.{◌≡◌, ◌<◌, length, Some};
ghost use Rattle.apdu.specs.Apdu.{meaning};
ghost use Rattle.contents.specs.Contents.{held};
ghost use Rattle.scp01.specs.Inside.{unwrapped_from};
ghost use Rattle.card.specs.declared.channel.Channel.TheVariants.{Closed};
ghost use Rattle.card.specs.Cards.{view};
ghost use Rattle.card.specs.Channels.{plain_allowed};
ghost use Rattle.card.specs.Inside.{kept_open, obeyed, managed};
ghost use Rattle.card.specs.Models.{Did};

use crate::answer::Answer;
use crate::card::Card;
use crate::channel::{Channel, plain_allowed};
use answers::StatusWord;
use apdu::Command;
use challenge::Source;
use cipher::Cipher;
use contents::life::CardState;
use rules::Request;
use rules::manage::OwnRule;
use scp01::Session;

// The channel behind a command that was read: a TERMINATED card has none.
fn kept_open(state: CardState, session: Session) -> Channel
    ensures { result ≡ kept_open state session }
{
    if state == CardState::Terminated {
        Channel::Closed
    } else {
        Channel::Open(session)
    }
}

impl<C: Cipher, S: Source, M: OwnRule> Card<C, S, M> {
    // The own rule on a body, with the chaining value that its code became.
    fn obey(
        &mut self,
        session: Session,
        inside: M,
        command: Command,
        body: &[u8],
        chain: [u8; 8],
    ) -> Result<Answer, StatusWord>
        ensures did { Did (obeyed M.own_rule C.algorithm (view S.Source.coming self.old) session inside (meaning command.entry) (Some (body.now, chain))) (view S.Source.coming self.new) result }
        ensures whole { S.Source.whole self.new.source ≡ S.Source.whole self.old.source }
    {
        let request = Request {
            p1: command.p1,
            p2: command.p2,
            body,
        };
        let done = inside.obey::<C>(&mut self.contents, &session.keys.kek, request);
        self.channel = kept_open(self.contents.state(), Session { chain, ..session });
        done.map(Answer::Received)
    }

    // A command inside the channel. Without a channel it is refused, and a waiting challenge stays; what cannot be read closes
    // the channel. The work area's front may hold the deciphered body afterwards: the caller wipes it.
    pub(crate) fn manage(
        &mut self,
        inside: M,
        command: Command,
        work: &mut [u8; 256],
    ) -> Result<Answer, StatusWord>
        requires { length command.field.now < 256 }
        ensures did { Did (managed M.own_rule C.algorithm (view S.Source.coming self.old) self.old.channel inside (meaning command.entry)) (view S.Source.coming self.new) result }
        ensures whole { S.Source.whole self.new.source ≡ S.Source.whole self.old.source }
    {
        let Channel::Open(session) = self.channel else {
            return Err(StatusWord::SecurityNotSatisfied);
        };
        self.channel = Channel::Closed;
        let end = session
            .decipher_field::<C>(command.field, work)
            .ok_or(StatusWord::SecurityNotSatisfied)?;
        self.read(session, inside, command, &work[0..end])
    }

    // A command inside the channel, once its body's text is deciphered.
    fn read<'a>(
        &mut self,
        session: Session,
        inside: M,
        command: Command<'a>,
        text: &'a [u8],
    ) -> Result<Answer, StatusWord>
        requires { self.old.channel ≡ Closed }
        ensures did { Did (obeyed M.own_rule C.algorithm (view S.Source.coming self.old) session inside (meaning command.entry) (unwrapped_from C.algorithm session (plain_allowed (held self.old.contents).state) (meaning command.entry) session.level text.now)) (view S.Source.coming self.new) result }
        ensures whole { S.Source.whole self.new.source ≡ S.Source.whole self.old.source }
    {
        let plain = plain_allowed(self.contents.state());
        let read = session
            .unwrap::<C>(plain, command, text)
            .ok_or(StatusWord::SecurityNotSatisfied)?;
        self.obey(session, inside, command, read.body, read.chain)
    }
}
