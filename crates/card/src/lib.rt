// The card manager of a Java card, over any block cipher, any source of challenges and any commands inside a channel.
#![tactic(auto)]

mod admit;
pub mod answer;
pub mod card;
pub mod channel;
mod select;
mod wipe;
