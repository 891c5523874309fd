// Commands: how their bytes are read, and the instructions with the classes in which they are given.
#![tactic(auto)]

ghost use Rattle.std.specs.Prelude.{◌≡◌, ℕ, ◌+◌, ◌≤◌, None, Option, Result, length};
ghost use Rattle.std.specs.Option.{option_map};
ghost use Rattle.std.specs.Result.{result_ok};
ghost use Rattle.apdu.specs.declared.UnknownInstruction.{UnknownInstruction};
ghost use Rattle.apdu.specs.Apdu.{meaning, headed, with_field, apdu, instruction_of, management_of, owns, known_class};

// A well-formed command.
#[derive(Clone, Copy)]
pub struct Command<'a> {
    pub class: u8,
    pub instruction: u8,
    pub p1: u8,
    pub p2: u8,
    pub field: &'a [u8],
    pub le: Option<u8>,
}

// A byte that names no instruction.
#[derive(Clone, Copy, PartialEq, Eq, Debug)]
pub struct UnknownInstruction;

// A command that a card takes inside a channel, as its instruction byte names it.
pub trait ChannelCommand: Copy + TryFrom<u8, Error = UnknownInstruction> {
    // the command that a byte names
    ghost named: { ℕ → Option Self };

    ghost names: { (byte : ℕ) (r : Result Self UnknownInstruction) → Self.try_from_gives byte r → result_ok r ≡ named byte };
}

// The commands of the card manager inside a channel.
#[derive(Clone, Copy, PartialEq, Eq, Debug)]
pub enum Management {
    GetStatus,
    SetStatus,
    Install,
    Delete,
    PutKey,
}

impl TryFrom<u8> for Management {
    type Error = UnknownInstruction;

    ghost try_from_gives = { λ byte r. result_ok r ≡ management_of byte };

    fn try_from(byte: u8) -> Result<Management, UnknownInstruction> {
        match byte {
            0xF2 => Ok(Management::GetStatus),
            0xF0 => Ok(Management::SetStatus),
            0xE6 => Ok(Management::Install),
            0xE4 => Ok(Management::Delete),
            0xD8 => Ok(Management::PutKey),
            _ => Err(UnknownInstruction),
        }
    }
}

impl ChannelCommand for Management {
    ghost named = { management_of };

    ghost names = { λ byte r gives. gives };
}

// The commands of a card that takes none inside a channel: no byte names this one.
#[derive(Clone, Copy, PartialEq, Eq, Debug)]
pub struct NoCommand;

impl TryFrom<u8> for NoCommand {
    type Error = UnknownInstruction;

    ghost try_from_gives = { λ byte r. result_ok r ≡ None };

    fn try_from(_byte: u8) -> Result<NoCommand, UnknownInstruction> {
        Err(UnknownInstruction)
    }
}

impl ChannelCommand for NoCommand {
    ghost named = { λ byte. None };

    ghost names = { λ byte r gives. gives };
}

// The instructions of a card, where `M` are its commands inside a channel.
#[derive(Clone, Copy, PartialEq, Eq, Debug)]
pub enum Instruction<M> {
    Select,
    InitializeUpdate,
    ExternalAuthenticate,
    Manage(M),
}

fn with_field(bytes: &[u8], lc: u8) -> Option<Command<'_>>
    requires { 6 ≤ length bytes.now }
    ensures { option_map meaning result ≡ with_field bytes.now lc }
{
    let end = 5 + lc as usize;
    if lc == 0 {
        return None;
    }
    if bytes.len() == end {
        return Some(headed_by(bytes, &bytes[5..end], None));
    }
    if bytes.len() == end + 1 {
        return Some(headed_by(bytes, &bytes[5..end], Some(bytes[end])));
    }
    None
}

fn headed_by<'a>(bytes: &'a [u8], field: &'a [u8], le: Option<u8>) -> Command<'a>
    requires { 4 ≤ length bytes.now }
    ensures { meaning result ≡ headed bytes.now field.now le }
{
    Command {
        class: bytes[0],
        instruction: bytes[1],
        p1: bytes[2],
        p2: bytes[3],
        field,
        le,
    }
}

impl<'a> Command<'a> {
    // The command that these bytes are, or none where their length is ill-formed.
    pub fn read(bytes: &'a [u8]) -> Option<Command<'a>>
        ensures { option_map meaning result ≡ apdu bytes.now }
    {
        match bytes.len() {
            0..=3 => None,
            4 => Some(headed_by(bytes, &[], None)),
            5 => Some(headed_by(bytes, &[], Some(bytes[4]))),
            _ => with_field(bytes, bytes[4]),
        }
    }
}

// Whether any instruction is given in this class.
pub fn known_class(class: u8) -> bool
    ensures { result ≡ known_class class }
{
    class == 0x00 || class == 0x80 || class == 0x84
}

impl<M: ChannelCommand> TryFrom<u8> for Instruction<M> {
    type Error = UnknownInstruction;

    ghost try_from_gives = { λ byte r. result_ok r ≡ instruction_of M.named byte };

    fn try_from(byte: u8) -> Result<Instruction<M>, UnknownInstruction> {
        match byte {
            0xA4 => Ok(Instruction::Select),
            0x50 => Ok(Instruction::InitializeUpdate),
            0x82 => Ok(Instruction::ExternalAuthenticate),
            _ => M::try_from(byte).map(Instruction::Manage),
        }
    }
}

impl<M: ChannelCommand> Instruction<M> {
    // Whether the instruction is given in this class.
    pub fn owns(self, class: u8) -> bool
        ensures { result ≡ owns self class }
    {
        match self {
            Instruction::Select => class == 0x00,
            Instruction::InitializeUpdate => class == 0x80,
            Instruction::ExternalAuthenticate => class == 0x84,
            Instruction::Manage(_) => class == 0x80 || class == 0x84,
        }
    }
}
