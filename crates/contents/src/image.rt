// The image of a card's contents, in and out.
ghost use Rattle.std.specs.Prelude.{◌≡◌, IfOk, Result, MatchResult};
ghost use Rattle.contents.specs.Contents.{held};
ghost use Rattle.contents.specs.Image.{read_image, image_bytes, image_written};

use crate::Contents;
use crate::image::draft::Draft;
use crate::image::writing::{append, write_all};
use answers::Refusal;
use arrayvec::ArrayVec;

pub(crate) mod draft;
mod fields;
mod reading;
mod writing;

// The header, four key sets, twelve entries and the last record: no image is longer.
const LONGEST_IMAGE: usize = 465;

// An image that is being written, in memory of its own.
type Image = ArrayVec<u8, LONGEST_IMAGE>;

impl Contents {
    // The contents that an image stores, or the refusal of its first bad record.
    pub fn from_image(image: &[u8]) -> Result<Contents, Refusal>
        ensures contents { MatchResult result (λ c. read_image image.now ≡ Result.Ok (held c)) (λ e. read_image image.now ≡ Result.Err e) }
        ensures back { IfOk result (λ c. image_bytes (held c) ≡ image.now) }
    {
        Ok(Contents {
            draft: Draft::from_image(image)?,
        })
    }

    // The bytes of the image.
    fn image(&self) -> Image
        ensures { result.items ≡ image_bytes (held self.now) }
    {
        let mut image = Image::new();
        append(&mut image, &[0x01, u8::from(self.draft.state)]);
        append(&mut image, &self.draft.diversification);
        write_all(&mut image, self.draft.sets.listed());
        write_all(&mut image, self.draft.registry.listed());
        append(&mut image, &[0x00]);
        image
    }

    // Writes the image at the front of an area of at least 465 bytes; the image's length.
    pub fn write_image(&self, area: &mut [u8]) -> Result<usize, Refusal>
        ensures area { (result, area.new) ≡ image_written (held self.now) area.old }
        ensures back { read_image (image_bytes (held self.now)) ≡ Result.Ok (held self.now) }
    {
        if area.len() < LONGEST_IMAGE {
            return Err(Refusal::AreaTooShort);
        }
        let image = self.image();
        area[..image.len()].copy_from_slice(&image);
        Ok(image.len())
    }
}
