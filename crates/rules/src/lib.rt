// The own rules of the channel commands: what each does to a card's contents, and what it answers.
#![tactic(auto)]

pub mod deletion;
pub mod inquiry;
pub mod installation;
pub mod key_change;
pub mod life_cycle;
pub mod listing;
mod locking;
pub mod manage;
mod names;
pub mod new_keys;

// What a command asks of its rule.
#[derive(Clone, Copy)]
pub struct Request<'a> {
    pub p1: u8,
    pub p2: u8,
    pub body: &'a [u8],
}
