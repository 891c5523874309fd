// Plays the scripts that the arguments name, and prints under each name what its script prints. A script whose name begins with
// `present_` is played on a card with PRESENT, any other on one with triple DES.
#![tactic(auto)]

use apdu::Management;
use present::Present;
use script::run;
use script_programs::play_all;
use std::env;
use tripledes::TripleDes;

fn main(rt: HostRuntime) -> anyhow::Result<()> {
    play_all(&rt, env::args(&rt)?, |name, script| {
        if name.starts_with("present_") {
            run::<Present, Management>(rt.alloc(), script)
        } else {
            run::<TripleDes, Management>(rt.alloc(), script)
        }
    })
}
