// Making a card, asking it, storing it, and ending it.
ghost use Rattle.std.specs.Prelude.{◌≡◌, true, Ok};
ghost use Rattle.contents.specs.Contents.{held};
ghost use Rattle.contents.specs.Held.{sound};
ghost use Rattle.contents.specs.Image.{read_image, image_bytes, image_written};
ghost use Rattle.card.specs.Making.{Made};

use crate::card::Card;
use crate::channel::Channel;
use answers::Refusal;
use challenge::Source;
use cipher::Cipher;
use contents::Contents;
use rules::manage::OwnRule;
use std::marker::PhantomData;

// Why no card was made, and the source that it was to draw from.
#[derive(Drop)]
pub struct Unmade<S> {
    pub refusal: Refusal,
    pub source: S,
}

impl<C: Cipher, S: Source, M: OwnRule> Card<C, S, M> {
    // A card of an image, with no channel. A refused image hands the source back.
    pub fn make(image: &[u8], source: S) -> Result<Card<C, S, M>, Unmade<S>>
        ensures { Made S.Source.coming image.now source result }
    {
        match Contents::from_image(image) {
            Ok(contents) => Ok(Card {
                contents,
                channel: Channel::Closed,
                source,
                cipher: PhantomData,
                commands: PhantomData,
            }),
            Err(refusal) => Err(Unmade { refusal, source }),
        }
    }

    // What the card holds.
    pub fn contents(&self) -> &Contents
        ensures value { held result.now ≡ held self.now.contents }
        ensures sound { sound (held result.now) ≡ true }
    {
        &self.contents
    }

    // Writes the card's image at the front of an area of at least 465 bytes, and gives its length.
    pub fn write_image(&self, area: &mut [u8]) -> Result<usize, Refusal>
        ensures written { (result, area.new) ≡ image_written (held self.now.contents) area.old }
        ensures back { read_image (image_bytes (held self.now.contents)) ≡ Ok (held self.now.contents) }
    {
        self.contents.write_image(area)
    }

    // Ends the card, and gives its source back.
    pub fn end(self) -> S
        ensures { result ≡ self.source }
    {
        let Card { source, .. } = self;
        source
    }
}
