// Draws a counting source of triple DES to its end and prints some of its challenges; then what is refused. The start block is the
// highest, so that challenge 1 is that of the block 0.
#![tactic(auto)]

use bits::value_of;
use challenge::Source;
use counting::Counting;
use std::io;
use tripledes::TripleDes;

const KEY: [u8; 16] = *b"@ABCDEFGHIJKLMNO";

const START: [u8; 8] = [0xFF; 8];

fn draw_all(rt: &HostRuntime, mut source: Counting<TripleDes>) -> io::Result<()> {
    println!(rt; "to come: {}", source.remaining())?;
    for number in 0..65_537u32 {
        match source.draw() {
            None => println!(rt; "{number} none")?,
            Some(challenge) => {
                if number < 3 || number > 65_533 {
                    println!(rt; "{number} {:016X}", value_of(&challenge))?;
                }
            }
        }
    }
    println!(rt; "to come: {}", source.remaining())
}

fn try_source(rt: &HostRuntime, key: &[u8], start: &[u8]) -> io::Result<()> {
    println!(rt; "a key of {} bytes, a start of {}", key.len(), start.len())?;
    match Counting::<TripleDes>::make(key, start) {
        Ok(source) => draw_all(rt, source),
        Err(refusal) => println!(rt; "refused: {}", u8::from(refusal)),
    }
}

fn try_all(rt: &HostRuntime) -> io::Result<()> {
    try_source(rt, &KEY, &START)?;
    try_source(rt, &KEY[1..], &START)?;
    try_source(rt, &KEY, &START[1..])?;
    try_source(rt, &[], &KEY)
}

fn main(rt: HostRuntime) -> io::Result<()> {
    try_all(&rt)
}
