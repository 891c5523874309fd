// Files of vectors: rows of a key, a plain block and that block enciphered, held against a cipher in both directions.
#![tactic(auto)]

mod files;
mod rows;

pub use files::{no_cipher, run, run_all};
pub use rows::{Fault, judged};
