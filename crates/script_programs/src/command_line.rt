// What the words of a command line ask for.
ghost use Rattle.std.specs.Prelude.{◌≡◌, Some};
ghost use Rattle.script_programs.specs.Asking.{words_ask, misuse_text};

use std::fmt;

#[derive(Drop)]
pub enum Asked {
    Help,
    // the script of this file, or the one on standard input
    Play(Option<String>),
}

// What is wrong with a command line.
#[derive(Drop)]
pub enum Misuse {
    UnknownOption(String),
    NoCipher,
    UnknownCipher(String),
    TooManyArguments,
}

impl fmt::Display for Misuse {
    ghost output = { λ misuse. Some (misuse_text misuse) };

    fn fmt<W: fmt::Write>(&self, f: &mut fmt::Formatter<W>) -> fmt::Result {
        match self {
            Misuse::UnknownOption(word) => write!(f, "unknown option {word}"),
            Misuse::NoCipher => write!(f, "no cipher behind --cipher"),
            Misuse::UnknownCipher(word) => write!(f, "unknown cipher {word}"),
            Misuse::TooManyArguments => write!(f, "too many arguments"),
        }
    }
}

impl Asked {
    // What the words behind the options ask for: the first of them, and whether there are more.
    pub fn by(word: Option<String>, more: bool) -> Result<Asked, Misuse>
        ensures { result ≡ words_ask word more }
    {
        let Some(word) = word else {
            return Ok(Asked::Play(None));
        };
        if more {
            return Err(Misuse::TooManyArguments);
        }
        match word.as_str() {
            "--help" => Ok(Asked::Help),
            "-" => Ok(Asked::Play(None)),
            text if text.starts_with('-') => Err(Misuse::UnknownOption(word)),
            _ => Ok(Asked::Play(Some(word))),
        }
    }
}
