// What a call can say: numbered refusals of the library, and the status words of the card.
#![tactic(auto)]

ghost use Rattle.std.specs.Prelude.{◌≡◌};
ghost use Rattle.answers.specs.Numbers.{refusal_number, status_value, status_bytes};

// Why a call did nothing. The numbers are those under which the documentation lists each.
#[derive(Clone, Copy, PartialEq, Eq, Debug)]
pub enum Refusal {
    // an image's record is of an unknown kind, out of place, or one too many
    RecordKind = 1,
    ImageEndsEarly = 2,
    FieldValue = 3,
    // a name or a version stands twice
    Duplicate = 4,
    // bytes stand behind the image's last record
    TrailingBytes = 5,
    AreaTooShort = 6,
    // the card's answer is not one that INITIALIZE UPDATE gives to this terminal
    WrongAnswer = 7,
    WrongCryptogram = 8,
    OutOfOrder = 9,
    IllArgument = 10,
}

impl From<Refusal> for u8 {
    ghost from_gives = { λ refusal number. number ≡ refusal_number refusal };

    fn from(refusal: Refusal) -> u8 {
        refusal as u8
    }
}

// The status word that ends each answer of the card.
#[derive(Clone, Copy, PartialEq, Eq, Debug)]
pub enum StatusWord {
    Success = 0x9000,
    // the card manager is selected, and the card is in CM_LOCKED
    SelectedLocked = 0x6283,
    CryptogramRejected = 0x6300,
    WrongLength = 0x6700,
    SecurityNotSatisfied = 0x6982,
    ConditionsNotSatisfied = 0x6985,
    WrongData = 0x6A80,
    FunctionNotSupported = 0x6A81,
    FileNotFound = 0x6A82,
    NotEnoughSpace = 0x6A84,
    WrongParameters = 0x6A86,
    NotFound = 0x6A88,
    InstructionUnknown = 0x6D00,
    ClassUnknown = 0x6E00,
    NoDiagnosis = 0x6F00,
    AlgorithmUnknown = 0x9484,
    CheckValueWrong = 0x9485,
}

impl From<StatusWord> for u16 {
    ghost from_gives = { λ status value. value ≡ status_value status };

    fn from(status: StatusWord) -> u16 {
        status as u16
    }
}

// SW1 and SW2.
impl From<StatusWord> for [u8; 2] {
    ghost from_gives = { λ status bytes. bytes ≡ status_bytes status };

    fn from(status: StatusWord) -> [u8; 2] {
        u16::from(status).to_be_bytes()
    }
}
