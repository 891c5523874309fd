// Arguments, scripts and output.
ghost use Rattle.std.specs.Prelude.{◌≡◌, IfErr, MatchResult};
ghost use Rattle.std.specs.Process.{exit_status};
ghost use Rattle.script_programs.specs.Refusing.{OfReading, OfWriting};
ghost use Rattle.script_programs.specs.declared.refused.Refused.TheVariants.{Arguments};

use crate::refused::Refused;
use std::alloc::Global;
use std::env::{Args, args};
use std::fs;
use std::io::{Read, Write};
use std::process::ExitCode;

// The arguments behind the program's name.
pub fn arguments(rt: &HostRuntime) -> Result<Args<Global>, Refused>
    ensures { IfErr result (λ refused. refused ≡ Arguments) }
{
    let mut words = args(rt).map_err(|_| Refused::Arguments)?;
    let _program = words.next();
    Ok(words)
}

// The script in the file of that name, or on standard input.
pub fn script(rt: &HostRuntime, name: Option<String>) -> Result<Vec<u8>, Refused>
    ensures { IfErr result (OfReading name) }
{
    match name {
        Some(name) => fs::read(rt, name.as_str()).map_err(|why| Refused::File(name, why)),
        None => {
            let mut bytes = Vec::new(rt.alloc());
            let _ = rt.stdin().read_to_end(&mut bytes).map_err(Refused::Input)?;
            Ok(bytes)
        }
    }
}

pub fn print(rt: &HostRuntime, bytes: &[u8]) -> Result<(), Refused>
    ensures { IfErr result OfWriting }
{
    rt.stdout().write_all(bytes).map_err(Refused::Output)
}

// How a program ends, which has said why on standard error where it is refused.
pub fn ended(rt: &HostRuntime, answer: Result<(), Refused>) -> ExitCode
    ensures { MatchResult answer (λ _. exit_status result ≡ 0) (λ _. exit_status result ≡ 1) }
{
    let Err(refused) = answer else {
        return ExitCode::SUCCESS;
    };
    let _ = eprintln!(rt; "refcard: {refused}");
    ExitCode::FAILURE
}
