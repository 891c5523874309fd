// What the programs that play scripts on a card have in common: what their arguments ask for, reading a script, printing, and
// saying why they print no row.
#![tactic(auto)]

mod command_line;
mod host;
mod named;
mod refused;

pub use command_line::{Asked, Misuse};
pub use host::{arguments, ended, print, script};
pub use named::play_all;
pub use refused::Refused;
