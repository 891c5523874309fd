// The card: contents, a channel and a source of challenges.
ghost use Rattle.std.specs.Prelude.{◌≡◌, true};
ghost use Rattle.card.specs.Channels.{sized_channel};

use crate::channel::Channel;
use contents::Contents;
use std::marker::PhantomData;

mod inside;
pub mod make;
pub mod opening;
pub mod process;

// A card whose channel uses the cipher `C`, whose challenges come from `S`, and whose commands inside the channel are `M`.
#[derive(Drop)]
pub struct Card<C, S, M> {
    contents: Contents,
    channel: Channel,
    source: S,
    cipher: PhantomData<C>,
    commands: PhantomData<M>,
    ghost sized: { sized_channel channel ≡ true },
}
