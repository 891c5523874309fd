// The reference card as a program: a script in, printed rows out.
#![tactic(auto)]

use apdu::Management;
use present::Present;
use script::run;
use script_programs::{Asked, Misuse, Refused, arguments, ended, print, script};
use std::alloc::Global;
use std::env::Args;
use std::process::ExitCode;
use tripledes::TripleDes;

const HELP: &str = "usage: refcard [--help] [--cipher CIPHER] [SCRIPT]

Plays a script on a card, and prints what the card answers. CIPHER is the card's:
tripledes for triple DES, as without the option, or present for PRESENT.
Without SCRIPT, or where SCRIPT is -, the script is read from standard input.

Line 1 of a script is the card's image, line 2 its recorded challenges; each of up
to 4,096 further lines is a command or the word RESET. A line is at most 1,024
hexadecimal digits, in pairs; any other line counts as empty.

For each command one row is printed: its number, a blank and the status word; for
RESET the number and ----. For an image that is refused the only row is IMAGE, a
blank and the number of the refusal, 1 to 5. docs/SCRIPT.md has more.
";

const ACCEPTED: &str =
    "accepted are --help, --cipher tripledes, --cipher present, and behind these one SCRIPT, or - for standard input";

// The card's cipher.
#[derive(Clone, Copy)]
enum Chosen {
    TripleDes,
    Present,
}

// The cipher that the word behind --cipher names.
fn named(word: Option<String>) -> Result<Chosen, Misuse> {
    let word = word.ok_or(Misuse::NoCipher)?;
    match word.as_str() {
        "tripledes" => Ok(Chosen::TripleDes),
        "present" => Ok(Chosen::Present),
        _ => Err(Misuse::UnknownCipher(word)),
    }
}

// What the words ask for, and the cipher of the card.
fn asked(mut words: Args<Global>) -> Result<(Chosen, Asked), Misuse> {
    let mut cipher = Chosen::TripleDes;
    let mut next = words.next();
    if next.as_deref() == Some("--cipher") {
        cipher = named(words.next())?;
        next = words.next();
    }
    Ok((cipher, Asked::by(next, words.next().is_some())?))
}

fn play(rt: &HostRuntime, cipher: Chosen, script: &[u8]) -> Result<(), Refused> {
    let rows = match cipher {
        Chosen::TripleDes => run::<TripleDes, Management>(rt.alloc(), script)?,
        Chosen::Present => run::<Present, Management>(rt.alloc(), script)?,
    };
    print(rt, rows.as_slice())
}

fn answer(rt: &HostRuntime) -> Result<(), Refused> {
    let words = arguments(rt)?;
    match asked(words).map_err(|misuse| Refused::Misused(misuse, ACCEPTED))? {
        (_, Asked::Help) => print(rt, HELP.as_bytes()),
        (cipher, Asked::Play(file)) => play(rt, cipher, script(rt, file)?.as_slice()),
    }
}

fn main(rt: HostRuntime) -> ExitCode {
    ended(&rt, answer(&rt))
}
