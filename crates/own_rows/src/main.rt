// Plays the script on standard input on a card that has XTEA, and prints its rows; before that it runs the published vectors.
#![tactic(auto)]

mod vectors;

use anyhow::anyhow;
use apdu::Management;
use script::run;
use std::io::{Read, Write};
use xtea::Xtea;

fn play(rt: &HostRuntime) -> anyhow::Result<()> {
    if !vectors::all_agree() {
        return Err(anyhow!("a published vector does not come out"));
    }
    let mut script = Vec::new(rt.alloc());
    let _ = rt.stdin().read_to_end(&mut script)?;
    let rows = run::<Xtea, Management>(rt.alloc(), script.as_slice())?;
    rt.stdout().write_all(rows.as_slice())?;
    Ok(())
}

fn main(rt: HostRuntime) -> anyhow::Result<()> {
    play(&rt)
}
