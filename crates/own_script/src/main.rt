// Writes a script for a card that has XTEA: a terminal opens a channel at level 03 with such a card and sends its commands, and each
// command that went over is a line.
#![tactic(auto)]

mod scene;

use challenge::recorded::Recorded;
use hex_text::Hex;
use runs::conduct::{Conversation, Talk, conduct};
use scp01::Level;
use std::io;
use xtea::Xtea;

fn print_line(rt: &HostRuntime, bytes: &[u8]) -> io::Result<()> {
    let line = Hex { bytes };
    println!(rt; "{line}")
}

fn print_conversation(rt: &HostRuntime, conversation: &Conversation) -> io::Result<()> {
    print_line(rt, &conversation.opening.update.command)?;
    if let Some(authenticate) = &conversation.opening.authenticate {
        print_line(rt, &authenticate.command)?;
    }
    if let Some(all) = &conversation.served {
        for served in all {
            print_line(rt, &served.sent.command)?;
        }
    }
    Ok(())
}

fn write_script(rt: &HostRuntime) -> anyhow::Result<()> {
    let source = Recorded::new(rt.alloc(), scene::CHALLENGES)?;
    let talk = Talk {
        set: scene::KEYS,
        host: scene::HOST_CHALLENGE,
        level: Level::MacEncrypted,
        commands: scene::COMMANDS,
    };
    match conduct::<Xtea, Recorded>(rt.alloc(), scene::IMAGE, source, &[], &talk) {
        Ok(report) => {
            print_line(rt, scene::IMAGE)?;
            print_line(rt, scene::CHALLENGES)?;
            print_conversation(rt, &report.conversation)?;
            Ok(())
        }
        Err(failure) => {
            let number = u8::from(failure.trouble);
            println!(rt; "no session: trouble {number}")?;
            Ok(())
        }
    }
}

fn main(rt: HostRuntime) -> anyhow::Result<()> {
    write_script(&rt)
}
