// The records of an image, written one behind another.
ghost use Rattle.std.specs.Prelude.{◌≡◌, ℕ, ◌+◌, ◌≤◌, List, ◌++◌, length};
ghost use Rattle.std.specs.List.{flat_map};
ghost use Rattle.arrayvec.specs.ArrayVec.{array_vec_len};
ghost use Rattle.contents.specs.Image.{key_set_bytes, entry_bytes};

use crate::image::Image;
use crate::records::{Entry, KeySet};

// Writes bytes behind an image, which has the room.
pub fn append(image: &mut Image, bytes: &[u8])
    requires { array_vec_len image.old + length bytes.now ≤ 465 }
    ensures { image.new.items ≡ image.old.items ++ bytes.now }
{
    image.try_extend_from_slice(bytes).unwrap();
}

// What is stored as one record.
pub trait Stored {
    ghost bytes: { Self → List ℕ };

    fn write(&self, image: &mut Image)
        requires { array_vec_len image.old + length (bytes self.now) ≤ 465 }
        ensures { image.new.items ≡ image.old.items ++ bytes self.now };
}

impl Stored for KeySet {
    ghost bytes = { key_set_bytes };

    fn write(&self, image: &mut Image) {
        append(image, &[0x02, self.version]);
        append(image, &self.keys.enc);
        append(image, &self.keys.mac);
        append(image, &self.keys.kek);
    }
}

impl Stored for Entry {
    ghost bytes = { entry_bytes };

    fn write(&self, image: &mut Image) {
        append(image, &[0x03, u8::from(self.kind), self.aid.len]);
        append(image, &self.aid.bytes);
        append(image, &[u8::from(self.state), self.privileges]);
    }
}

// Writes records one behind the other.
pub fn write_all<R: Stored>(image: &mut Image, records: &[R])
    requires { array_vec_len image.old + length (flat_map R.Stored.bytes records.now) ≤ 465 }
    ensures { image.new.items ≡ image.old.items ++ flat_map R.Stored.bytes records.now }
{
    for record in records {
        record.write(image);
    }
}
