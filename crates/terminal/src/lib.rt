// A terminal: it opens a channel with a card and wraps commands for it.
#![tactic(auto)]

use cipher::Keys;
use scp01::Session;
use std::marker::PhantomData;

pub mod opening;
pub mod wrapping;

// The shortest area that every command of a terminal fits.
const AREA: usize = 261;

// How far a terminal's channel is.
#[derive(Clone, Copy)]
pub enum Phase {
    Made,
    // INITIALIZE UPDATE went out with this host challenge
    Begun([u8; 8]),
    Open(Session),
}

// A terminal of one key set.
#[derive(Drop)]
pub struct Terminal<C> {
    version: u8,
    keys: Keys,
    phase: Phase,
    cipher: PhantomData<C>,
}
