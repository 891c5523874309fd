// What the session is about: a card's image and challenges, what strangers hand in, and what the terminals send.
use cipher::Keys;
use contents::records::KeySet;

// A SECURED card: its state and diversification data; key set 01, three times the same key, as cards come from the factory; a load
// file; and an application of it that is SELECTABLE.
pub const IMAGE: &[u8] = b"\x01\x0F\x00\x00\x02\x65\x01\x83\x03\x95\x36\x62\
\x02\x01@ABCDEFGHIJKLMNO@ABCDEFGHIJKLMNO@ABCDEFGHIJKLMNO\
\x03\x01\x06\xA0\x00\x00\x00\x18\x01\x00\x00\x00\x00\x00\x00\x00\x00\x00\x00\x01\x00\
\x03\x02\x07\xA0\x00\x00\x00\x18\x01\x01\x00\x00\x00\x00\x00\x00\x00\x00\x00\x07\x00\
\x00";

// Three challenges for the card to draw.
pub const CHALLENGES: &[u8] = b"first...second..third...";

pub const HOST_CHALLENGE: [u8; 8] = *b"hostside";

pub const FACTORY_KEYS: KeySet = KeySet {
    version: 0x01,
    keys: Keys {
        enc: *b"@ABCDEFGHIJKLMNO",
        mac: *b"@ABCDEFGHIJKLMNO",
        kek: *b"@ABCDEFGHIJKLMNO",
    },
};

pub const NEW_KEYS: KeySet = KeySet {
    version: 0x02,
    keys: Keys {
        enc: *b"PQRSTUVWXYZ[\\]^_",
        mac: *b"PQRSTUVWXYZ[\\]^_",
        kek: *b"PQRSTUVWXYZ[\\]^_",
    },
};

// What strangers hand in.

pub const SELECT_CARD_MANAGER: &[u8] = b"\x00\xA4\x04\x00\x08\xA0\x00\x00\x00\x03\x00\x00\x00";

pub const UPDATE_FOR_ABSENT_SET: &[u8] = b"\x80\x50\x05\x00\x08hostside";

pub const OTHER_CLASS: &[u8] = b"\x90\xF2\x40\x00";

pub const THREE_BYTES: &[u8] = b"\x00\xA4\x04";

// What the terminals send.

pub const LIST_APPLICATIONS: &[u8] = b"\x80\xF2\x40\x00\x02\x4F\x00";

// The first terminal lists the applications, makes the one there PERSONALIZED, asks the same of one that is not there, installs
// another from the load file, and puts key set 02: three times a key, enciphered under the third key of set 01, each with three
// check bytes.
pub const PERSONALISE: &[&[u8]] = &[
    LIST_APPLICATIONS,
    b"\x80\xF0\x40\x0F\x07\xA0\x00\x00\x00\x18\x01\x01",
    b"\x80\xF0\x40\x0F\x07\xA0\x00\x00\x00\x18\x01\x02",
    b"\x80\xE6\x0C\x00\x1D\x06\xA0\x00\x00\x00\x18\x01\x07\xA0\x00\x00\x00\x18\x01\x02\x07\xA0\x00\x00\x00\x18\x01\x02\x01\x00\x02\xC9\x00\x00",
    b"\x80\xD8\x00\x81\x43\x02\
\x81\x10\x6C\x24\x2D\xC0\x52\x40\xED\x83\x41\x27\xE2\x98\xA9\x7B\x57\x4D\x03\xA4\xB7\xD6\
\x81\x10\x6C\x24\x2D\xC0\x52\x40\xED\x83\x41\x27\xE2\x98\xA9\x7B\x57\x4D\x03\xA4\xB7\xD6\
\x81\x10\x6C\x24\x2D\xC0\x52\x40\xED\x83\x41\x27\xE2\x98\xA9\x7B\x57\x4D\x03\xA4\xB7\xD6",
    LIST_APPLICATIONS,
];

// The second terminal, with the new key set, deletes the application that was there first.
pub const CLEAR: &[&[u8]] = &[
    b"\x80\xE4\x00\x00\x09\x4F\x07\xA0\x00\x00\x00\x18\x01\x01",
    LIST_APPLICATIONS,
];
