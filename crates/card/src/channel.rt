// The secure channel: none, a challenge that waits, or open at a level.
ghost use Rattle.std.specs.Prelude.{◌≡◌, IfSome};
ghost use Rattle.scp01.specs.Levels.{level_value};
ghost use Rattle.card.specs.Channels.{plain_allowed, granted_level, entered, used_up};

use apdu::Instruction;
use cipher::Keys;
use contents::life::CardState;
use scp01::{ChallengePair, Level, Session};

// What INITIALIZE UPDATE leaves for EXTERNAL AUTHENTICATE.
#[derive(Clone, Copy)]
pub struct Handshake {
    pub keys: Keys,
    pub challenges: ChallengePair,
}

#[derive(Clone, Copy)]
pub enum Channel {
    Closed,
    Waiting(Handshake),
    Open(Session),
}

// Whether a channel may go without codes.
pub(crate) fn plain_allowed(state: CardState) -> bool
    ensures { result ≡ plain_allowed state }
{
    state == CardState::OpReady || state == CardState::Initialized
}

// The level that a byte asks for, if a card in this state grants it: SECURED and CM_LOCKED cards want codes.
pub(crate) fn granted_level(state: CardState, byte: u8) -> Option<Level>
    ensures level { result ≡ granted_level state byte }
    ensures value { IfSome result (λ level. level_value level ≡ byte) }
{
    let level = Level::try_from(byte).ok()?;
    if level == Level::Plain && !plain_allowed(state) {
        return None;
    }
    Some(level)
}

impl Channel {
    // What an instruction does to the channel before its own rule. EXTERNAL AUTHENTICATE gets what waited.
    pub fn enter<M: Copy>(&mut self, instruction: Instruction<M>) -> Option<Handshake>
        ensures channel { self.new ≡ entered self.old instruction }
        ensures handshake { result ≡ used_up self.old instruction }
    {
        match (*self, instruction) {
            (_, Instruction::Manage(_)) => None,
            (Channel::Waiting(handshake), Instruction::ExternalAuthenticate) => {
                *self = Channel::Closed;
                Some(handshake)
            }
            (_, _) => {
                *self = Channel::Closed;
                None
            }
        }
    }
}
