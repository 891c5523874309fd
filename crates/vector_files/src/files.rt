// Vector files run under ciphers, and what is printed of them.
ghost use Rattle.std.specs.Prelude.{◌≡◌, false, true, Ok, drop, IfOk, IfErr, MatchResult, string_bytes};
ghost use Rattle.std.specs.List.{All, Contains};
ghost use Rattle.std.specs.Vec.Iter.{into_iter_items};
ghost use Rattle.vector_files.specs.Rows.{Answered};
ghost use Rattle.vector_files.specs.Runs.{Ran, Failed};

use crate::rows::judged;
use anyhow::anyhow;
use cipher::Cipher;
use std::alloc::Global;
use std::env::Args;
use std::io;

// Every row of a text under a cipher; names each line that is no row or does not agree. Answers whether all agreed.
fn run_rows<C: Cipher>(rt: &HostRuntime, name: &str, text: &str) -> io::Result<bool>
    ensures { IfOk result (Answered C.algorithm.enc C.algorithm.dec text.now) }
{
    let mut count = 0u32;
    let mut agreed = 0u32;
    for (i, line) in text.lines().enumerate() {
        if line.is_empty() || line.starts_with('#') {
            continue;
        }
        count = count.saturating_add(1);
        match judged::<C>(line.as_bytes()) {
            Ok(()) => agreed = agreed.saturating_add(1),
            Err(fault) => {
                let number = i.saturating_add(1);
                println!(rt; "{name}: line {number} {fault}")?;
            }
        }
    }
    println!(rt; "{name}: {count} rows, {agreed} agreed")?;
    Ok(agreed == count)
}

// Says why nothing of a file agrees.
fn unheld(rt: &HostRuntime, name: &str, why: &str) -> io::Result<bool>
    ensures { IfOk result (λ all. all ≡ false) }
{
    println!(rt; "{name}: {why}")?;
    Ok(false)
}

// Runs what was read of a file under a cipher, and prints how many rows it has and how many agreed. Answers whether all did.
pub fn run<C: Cipher>(rt: &HostRuntime, name: &str, read: io::Result<String>) -> io::Result<bool>
    ensures { IfOk result (λ all. MatchResult read (λ text. Answered C.algorithm.enc C.algorithm.dec (string_bytes text) all) (λ _. all ≡ false)) }
{
    match read {
        Ok(text) => run_rows::<C>(rt, name, text.as_str()),
        Err(_) => unheld(rt, name, "cannot be read"),
    }
}

// A name that no cipher's file has.
pub fn no_cipher(rt: &HostRuntime, name: &str) -> io::Result<bool>
    ensures { IfOk result (λ all. all ≡ false) }
{
    unheld(rt, name, "no cipher has vectors of this name")
}

// Runs the files that the arguments name behind the program's name, each by `run_named`, which answers whether every row of it
// agreed.
pub fn run_all<F: Fn(&HostRuntime, &str) -> io::Result<bool>>(
    rt: &HostRuntime,
    arguments: Args<Global>,
    run_named: F,
) -> anyhow::Result<()>
    requires { F.IsAlwaysCallable run_named }
    ensures all { IfOk result (λ _. All (λ name. Ran F.Fn run_named (string_bytes name) (Ok true)) (drop 1 (into_iter_items arguments))) }
    ensures some { IfErr result (λ _. (name : _) × Contains (drop 1 (into_iter_items arguments)) name × Failed F.Fn run_named (string_bytes name)) }
{
    let mut all = true;
    for name in arguments.skip(1) {
        all &= run_named(rt, name.as_str())?;
    }
    if all {
        Ok(())
    } else {
        Err(anyhow!("not every row agreed"))
    }
}
