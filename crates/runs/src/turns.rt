// What is handed in to a card, and what comes of it.

// A reset, or a command of any bytes.
#[derive(Clone, Copy)]
pub enum Turn<'a> {
    Reset,
    Command(&'a [u8]),
}

// A command that was handed in, and the card's answer.
#[derive(Drop)]
pub struct Exchange {
    pub command: Vec<u8>,
    pub answer: Vec<u8>,
}

// What came of a turn.
#[derive(Drop)]
pub enum Outcome {
    Reset,
    Answered(Exchange),
}

// A bare command that a terminal sent inside a channel: what it wrapped it to, and the card's answer.
#[derive(Drop)]
pub struct Served {
    pub bare: Vec<u8>,
    pub sent: Exchange,
}
