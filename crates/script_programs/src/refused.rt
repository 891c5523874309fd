// Why a program prints no row.
ghost use Rattle.std.specs.Prelude.{◌≡◌};
ghost use Rattle.script_programs.specs.Refusing.{refused_text};
ghost use Rattle.script_programs.specs.declared.refused.Refused.TheVariants.{Memory};

use crate::command_line::Misuse;
use std::alloc::AllocError;
use std::{fmt, io};

#[derive(Drop)]
pub enum Refused {
    Arguments,
    // and what the program accepts
    Misused(Misuse, &'static str),
    Input(io::Error),
    File(String, io::Error),
    Output(io::Error),
    Memory,
}

impl From<AllocError> for Refused {
    ghost from_gives = { λ _ refused. refused ≡ Memory };

    fn from(_: AllocError) -> Refused {
        Refused::Memory
    }
}

impl fmt::Display for Refused {
    ghost output = { refused_text };

    fn fmt<W: fmt::Write>(&self, f: &mut fmt::Formatter<W>) -> fmt::Result {
        match self {
            Refused::Arguments => write!(f, "the arguments cannot be read"),
            Refused::Misused(misuse, accepted) => write!(f, "{misuse}: {accepted}"),
            Refused::Input(why) => write!(f, "standard input cannot be read: {why}"),
            Refused::File(name, why) => write!(f, "{name} cannot be read: {why}"),
            Refused::Output(why) => write!(f, "nothing can be written to standard output: {why}"),
            Refused::Memory => write!(f, "not enough memory"),
        }
    }
}
