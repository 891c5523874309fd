// INITIALIZE UPDATE and EXTERNAL AUTHENTICATE.
ghost use Rattle.std.specs.Prelude.{◌≡◌};
ghost use Rattle.apdu.specs.Apdu.{meaning};
ghost use Rattle.scp01.specs.Levels.{level_value};
ghost use Rattle.card.specs.Cards.{view};
ghost use Rattle.card.specs.Models.{Did};
ghost use Rattle.card.specs.Opening.{updated, authenticated, proved};

use crate::answer::{Answer, Update};
use crate::card::Card;
use crate::channel::{Channel, Handshake, granted_level};
use answers::StatusWord;
use apdu::Command;
use challenge::Source;
use cipher::Cipher;
use rules::manage::OwnRule;
use scp01::{ChallengePair, Level, Session};

impl<C: Cipher, S: Source, M: OwnRule> Card<C, S, M> {
    pub(crate) fn initialize_update(&mut self, command: Command) -> Result<Answer, StatusWord>
        ensures did { Did (updated C.algorithm (view S.Source.coming self.old) (meaning command.entry)) (view S.Source.coming self.new) result }
        ensures whole { S.Source.whole self.new.source ≡ S.Source.whole self.old.source }
    {
        if command.p2 != 0x00 {
            return Err(StatusWord::WrongParameters);
        }
        let host = <[u8; 8]>::try_from(command.field).map_err(|_| StatusWord::WrongLength)?;
        let set = self
            .contents
            .key_set(command.p1)
            .ok_or(StatusWord::NotFound)?;
        let card = self.source.draw().ok_or(StatusWord::NoDiagnosis)?;
        let challenges = ChallengePair { host, card };
        let keys = challenges.session_keys::<C>(&set.keys);
        self.channel = Channel::Waiting(Handshake { keys, challenges });
        Ok(Answer::Updated(Update {
            diversification: self.contents.diversification(),
            version: set.version,
            challenge: card,
            cryptogram: challenges.card_cryptogram::<C>(&keys),
        }))
    }

    // `handshake` is what waited.
    pub(crate) fn external_authenticate(
        &mut self,
        handshake: Option<Handshake>,
        command: Command,
    ) -> Result<Answer, StatusWord>
        ensures did { Did (authenticated C.algorithm (view S.Source.coming self.old) handshake (meaning command.entry)) (view S.Source.coming self.new) result }
        ensures whole { S.Source.whole self.new.source ≡ S.Source.whole self.old.source }
    {
        let handshake = handshake.ok_or(StatusWord::ConditionsNotSatisfied)?;
        if command.p2 != 0x00 {
            return Err(StatusWord::WrongParameters);
        }
        let level = granted_level(self.contents.state(), command.p1).ok_or(
            StatusWord::WrongParameters,
        )?;
        let field = <[u8; 16]>::try_from(command.field).map_err(|_| StatusWord::WrongLength)?;
        self.prove(&handshake, level, &field)
    }

    // The host cryptogram and the code over it: the channel is open where both are right.
    fn prove(
        &mut self,
        handshake: &Handshake,
        level: Level,
        field: &[u8; 16],
    ) -> Result<Answer, StatusWord>
        ensures did { Did (proved C.algorithm (view S.Source.coming self.old) handshake.now level (level_value level) field.now) (view S.Source.coming self.new) result }
        ensures whole { S.Source.whole self.new.source ≡ S.Source.whole self.old.source }
    {
        let right = handshake.challenges.host_cryptogram::<C>(&handshake.keys);
        let (cryptogram, code) = field.split_at(8);
        if cryptogram != right.as_slice() {
            return Err(StatusWord::CryptogramRejected);
        }
        let session = Session::open::<C>(level, handshake.keys, &right);
        if code != session.chain.as_slice() {
            return Err(StatusWord::SecurityNotSatisfied);
        }
        self.channel = Channel::Open(session);
        Ok(Answer::Status(StatusWord::Success))
    }
}
