// Runs the vector files of triple DES that the arguments name, and prints for each how many rows it has and how many agreed.
#![tactic(auto)]

use std::{env, fs, io};
use tripledes::TripleDes;
use vector_files::{no_cipher, run, run_all};

// The cipher that a file is for goes by the file's name.
fn run_named(rt: &HostRuntime, name: &str) -> io::Result<bool> {
    match name {
        "tripledes.txt" => run::<TripleDes>(rt, name, fs::read_to_string(rt, name)),
        _ => no_cipher(rt, name),
    }
}

fn main(rt: HostRuntime) -> anyhow::Result<()> {
    run_all(&rt, env::args(&rt)?, run_named)
}
