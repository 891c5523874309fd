// The reference card as a program: a script in, printed rows out. The card has triple DES.
#![tactic(auto)]

use apdu::NoCommand;
use script::run;
use script_programs::{Asked, Refused, arguments, ended, print, script};
use std::process::ExitCode;
use tripledes::TripleDes;

const HELP: &str = "usage: refcard [--help] [SCRIPT]

Plays a script on a card that has triple DES, and prints what the card answers.
Without SCRIPT, or where SCRIPT is -, the script is read from standard input.

Line 1 of a script is the card's image, line 2 its recorded challenges; each of up
to 4,096 further lines is a command or the word RESET. A line is at most 1,024
hexadecimal digits, in pairs; any other line counts as empty.

For each command one row is printed: its number, a blank and the status word; for
RESET the number and ----. For an image that is refused the only row is IMAGE, a
blank and the number of the refusal, 1 to 5. docs/SCRIPT.md has more.
";

const ACCEPTED: &str = "accepted are --help, or one SCRIPT, or - for standard input";

fn asked(rt: &HostRuntime) -> Result<Asked, Refused> {
    let mut words = arguments(rt)?;
    let asked = Asked::by(words.next(), words.next().is_some());
    asked.map_err(|misuse| Refused::Misused(misuse, ACCEPTED))
}

fn answer(rt: &HostRuntime) -> Result<(), Refused> {
    match asked(rt)? {
        Asked::Help => print(rt, HELP.as_bytes()),
        Asked::Play(file) => {
            let script = script(rt, file)?;
            let rows = run::<TripleDes, NoCommand>(rt.alloc(), script.as_slice())?;
            print(rt, rows.as_slice())
        }
    }
}

fn main(rt: HostRuntime) -> ExitCode {
    ended(&rt, answer(&rt))
}
