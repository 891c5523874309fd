// Two sessions with a card. Strangers hand in commands, and then a terminal that has the card's keys opens a channel, installs an
// application and puts a new key set; the card is stored, made again of its image, and a terminal with the new set opens a channel
// and deletes. Prints what was done and what came back.
#![tactic(auto)]

mod scene;
mod telling;
mod words;

use apdu::Management;
use card::card::Card;
use challenge::recorded::Recorded;
use contents::records::KeySet;
use runs::conduct::{Report, Talk, conduct};
use runs::turns::Turn;
use scp01::Level;
use tripledes::TripleDes;

// A channel at level 03.
fn talk<'a>(set: KeySet, commands: &'a [&'a [u8]]) -> Talk<'a> {
    Talk {
        set,
        host: scene::HOST_CHALLENGE,
        level: Level::MacEncrypted,
        commands,
    }
}

// Conducts a session and prints it; the card, where there was one.
fn conducted(
    rt: &HostRuntime,
    image: &[u8],
    source: Recorded,
    turns: &[Turn],
    talk: &Talk,
) -> anyhow::Result<Option<Card<TripleDes, Recorded, Management>>> {
    match conduct::<TripleDes, Recorded>(rt.alloc(), image, source, turns, talk) {
        Ok(
            Report {
                card,
                turns,
                conversation,
            },
        ) => {
            telling::print_turns(rt, turns.as_slice())?;
            telling::print_conversation(rt, talk.set.version, &conversation)?;
            Ok(Some(card))
        }
        Err(failure) => {
            telling::print_trouble(rt, failure.trouble)?;
            Ok(None)
        }
    }
}

fn first_session(
    rt: &HostRuntime,
) -> anyhow::Result<Option<Card<TripleDes, Recorded, Management>>> {
    let source = Recorded::new(rt.alloc(), scene::CHALLENGES)?;
    let turns = [
        Turn::Command(scene::SELECT_CARD_MANAGER),
        Turn::Command(scene::LIST_APPLICATIONS),
        Turn::Reset,
        Turn::Command(scene::UPDATE_FOR_ABSENT_SET),
        Turn::Command(scene::OTHER_CLASS),
        Turn::Command(scene::THREE_BYTES),
    ];
    conducted(
        rt,
        scene::IMAGE,
        source,
        &turns,
        &talk(scene::FACTORY_KEYS, scene::PERSONALISE),
    )
}

// Stores the card and conducts a session with one made of its image; it goes on with the same source.
fn second_session(
    rt: &HostRuntime,
    card: Card<TripleDes, Recorded, Management>,
) -> anyhow::Result<()> {
    let mut area = [0; 465];
    let Ok(length) = card.write_image(&mut area) else {
        return Ok(());
    };
    let image = &area[0..length.min(465)];
    telling::print_image(rt, image)?;
    let turns = [Turn::Reset];
    let _card = conducted(
        rt,
        image,
        card.end(),
        &turns,
        &talk(scene::NEW_KEYS, scene::CLEAR),
    )?;
    Ok(())
}

fn sessions(rt: &HostRuntime) -> anyhow::Result<()> {
    match first_session(rt)? {
        Some(card) => second_session(rt, card),
        None => Ok(()),
    }
}

fn main(rt: HostRuntime) -> anyhow::Result<()> {
    sessions(&rt)
}
