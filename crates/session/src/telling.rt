// A session told in words.
use crate::words::{instruction_name, parted, status_meaning};
use hex_text::Hex;
use runs::conduct::{Conversation, Trouble};
use runs::turns::{Exchange, Outcome, Served};
use std::io;

fn print_exchange(rt: &HostRuntime, exchange: &Exchange) -> io::Result<()> {
    let command = Hex {
        bytes: &exchange.command,
    };
    let name = instruction_name(&exchange.command);
    println!(rt; "  -> {command} ({name})")?;
    let (data, status) = parted(&exchange.answer);
    let meaning = status_meaning(status);
    let status = Hex { bytes: status };
    if data.is_empty() {
        return println!(rt; "  <- {status}: {meaning}");
    }
    let data = Hex { bytes: data };
    println!(rt; "  <- {data} {status}: {meaning}")
}

fn print_outcome(rt: &HostRuntime, outcome: &Outcome) -> io::Result<()> {
    match outcome {
        Outcome::Reset => println!(rt; "  reset"),
        Outcome::Answered(exchange) => print_exchange(rt, exchange),
    }
}

fn print_served(rt: &HostRuntime, served: &Served) -> io::Result<()> {
    let bare = Hex {
        bytes: &served.bare,
    };
    println!(rt; "The terminal wraps {bare}:")?;
    print_exchange(rt, &served.sent)
}

pub fn print_turns(rt: &HostRuntime, turns: &[Outcome]) -> io::Result<()> {
    println!(rt; "Strangers hand in:")?;
    for outcome in turns {
        print_outcome(rt, outcome)?;
    }
    Ok(())
}

pub fn print_conversation(
    rt: &HostRuntime,
    version: u8,
    conversation: &Conversation,
) -> io::Result<()> {
    println!(rt; "A terminal with key set {version:02X} opens a channel at level 03:")?;
    print_exchange(rt, &conversation.opening.update)?;
    if let Some(authenticate) = &conversation.opening.authenticate {
        print_exchange(rt, authenticate)?;
    }
    match &conversation.served {
        None => println!(rt; "The channel is not open."),
        Some(all) => {
            println!(rt; "The channel is open.")?;
            for served in all {
                print_served(rt, served)?;
            }
            Ok(())
        }
    }
}

pub fn print_image(rt: &HostRuntime, image: &[u8]) -> io::Result<()> {
    let image = Hex { bytes: image };
    println!(rt; "The card is stored: {image}")
}

pub fn print_trouble(rt: &HostRuntime, trouble: Trouble) -> io::Result<()> {
    let number = u8::from(trouble);
    println!(rt; "No session: trouble {number}.")
}
