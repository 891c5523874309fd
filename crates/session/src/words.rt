// Commands and status words by their names.

// The name of a command, by its instruction.
pub fn instruction_name(command: &[u8]) -> &'static str {
    match command {
        [_, instruction, ..] => match instruction {
            0xA4 => "SELECT",
            0x50 => "INITIALIZE UPDATE",
            0x82 => "EXTERNAL AUTHENTICATE",
            0xE6 => "INSTALL",
            0xE4 => "DELETE",
            0xD8 => "PUT KEY",
            0xF0 => "SET STATUS",
            0xF2 => "GET STATUS",
            _ => "no instruction of a card manager",
        },
        _ => "no command",
    }
}

// The data of an answer, and its status word.
pub fn parted(answer: &[u8]) -> (&[u8], &[u8]) {
    answer.split_at(answer.len().saturating_sub(2))
}

// What a status word says.
pub fn status_meaning(status: &[u8]) -> &'static str {
    match status {
        [0x90, 0x00] => "done",
        [0x62, 0x83] => "selected, but the card is locked",
        [0x63, 0x00] => "the host cryptogram is wrong",
        [0x67, 0x00] => "wrong length",
        [0x69, 0x82] => "security status not satisfied",
        [0x69, 0x85] => "conditions of use not satisfied",
        [0x6A, 0x80] => "wrong data",
        [0x6A, 0x81] => "function not supported",
        [0x6A, 0x82] => "file not found",
        [0x6A, 0x84] => "not enough memory space",
        [0x6A, 0x86] => "wrong P1 or P2",
        [0x6A, 0x88] => "referenced data not found",
        [0x6D, 0x00] => "instruction unknown",
        [0x6E, 0x00] => "class unknown",
        [0x6F, 0x00] => "no diagnosis",
        [0x94, 0x84] => "algorithm unknown",
        [0x94, 0x85] => "check value wrong",
        _ => "a status word that this card does not give",
    }
}
