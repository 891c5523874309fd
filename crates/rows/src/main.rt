// Plays the scripts that the arguments name, and prints under each name what its script prints.
#![tactic(auto)]

use apdu::NoCommand;
use script::run;
use script_programs::play_all;
use std::env;
use tripledes::TripleDes;

fn main(rt: HostRuntime) -> anyhow::Result<()> {
    play_all(
        &rt,
        env::args(&rt)?,
        |_, script| run::<TripleDes, NoCommand>(rt.alloc(), script),
    )
}
