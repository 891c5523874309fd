// Whole runs of a card: turns handed in one by one, and what is promised of all of them together.
#![tactic(auto)]

pub mod conduct;
pub mod converse;
mod play;
mod serve;
pub mod turns;
