// Life cycle states, and the values by which images and commands name them.
ghost use Rattle.std.specs.Prelude.{◌≡◌};
ghost use Rattle.contents.specs.Life.{Names, card_state_value, card_state, kind_value, entry_kind, entry_state_value, entry_state};

// A byte that names no state, or no kind.
#[derive(Clone, Copy, PartialEq, Eq, Debug)]
pub struct UnknownValue(pub u8);

#[derive(Clone, Copy, PartialEq, Eq, Debug)]
pub enum CardState {
    OpReady = 0x01,
    Initialized = 0x07,
    Secured = 0x0F,
    CmLocked = 0x7F,
    Terminated = 0xFF,
}

impl From<CardState> for u8 {
    ghost from_gives = { λ state value. value ≡ card_state_value state };

    fn from(state: CardState) -> u8 {
        state as u8
    }
}

impl TryFrom<u8> for CardState {
    type Error = UnknownValue;

    ghost try_from_gives = { λ value r. Names value (card_state value) r };

    fn try_from(value: u8) -> Result<CardState, UnknownValue> {
        match value {
            0x01 => Ok(CardState::OpReady),
            0x07 => Ok(CardState::Initialized),
            0x0F => Ok(CardState::Secured),
            0x7F => Ok(CardState::CmLocked),
            0xFF => Ok(CardState::Terminated),
            _ => Err(UnknownValue(value)),
        }
    }
}

#[derive(Clone, Copy, PartialEq, Eq, Debug)]
pub enum EntryKind {
    LoadFile = 0x01,
    Application = 0x02,
}

impl From<EntryKind> for u8 {
    ghost from_gives = { λ kind value. value ≡ kind_value kind };

    fn from(kind: EntryKind) -> u8 {
        kind as u8
    }
}

impl TryFrom<u8> for EntryKind {
    type Error = UnknownValue;

    ghost try_from_gives = { λ value r. Names value (entry_kind value) r };

    fn try_from(value: u8) -> Result<EntryKind, UnknownValue> {
        match value {
            0x01 => Ok(EntryKind::LoadFile),
            0x02 => Ok(EntryKind::Application),
            _ => Err(UnknownValue(value)),
        }
    }
}

// The state of a load file (always `Loaded`) or of an application (one of the other four).
#[derive(Clone, Copy, PartialEq, Eq, Debug)]
pub enum EntryState {
    Loaded = 0x01,
    Installed = 0x03,
    Selectable = 0x07,
    Personalized = 0x0F,
    Blocked = 0x7F,
}

impl From<EntryState> for u8 {
    ghost from_gives = { λ state value. value ≡ entry_state_value state };

    fn from(state: EntryState) -> u8 {
        state as u8
    }
}

// The state that a byte names for an entry of a kind.
impl TryFrom<(EntryKind, u8)> for EntryState {
    type Error = UnknownValue;

    ghost try_from_gives = { λ named r. Names named.1 (entry_state named.0 named.1) r };

    fn try_from((kind, value): (EntryKind, u8)) -> Result<EntryState, UnknownValue> {
        match (kind, value) {
            (EntryKind::LoadFile, 0x01) => Ok(EntryState::Loaded),
            (EntryKind::Application, 0x03) => Ok(EntryState::Installed),
            (EntryKind::Application, 0x07) => Ok(EntryState::Selectable),
            (EntryKind::Application, 0x0F) => Ok(EntryState::Personalized),
            (EntryKind::Application, 0x7F) => Ok(EntryState::Blocked),
            _ => Err(UnknownValue(value)),
        }
    }
}
