// What the script is about: a card, its challenges, and what a terminal sends to it.
use cipher::Keys;
use contents::records::KeySet;

// An OP_READY card: its state and diversification data; key set 01; a load file.
pub const IMAGE: &[u8] = b"\x01\x01\x00\x00\x02\x65\x01\x83\x03\x95\x36\x62\
\x02\x01@ABCDEFGHIJKLMNOPQRSTUVWXYZ[\\]^_`abcdefghijklmno\
\x03\x01\x05\xA0\x00\x00\x00\x99\x00\x00\x00\x00\x00\x00\x00\x00\x00\x00\x00\x01\x00\
\x00";

pub const CHALLENGES: &[u8] =
    b"\xC0\xFF\xEE\x00\x00\x00\x00\x01\xC0\xFF\xEE\x00\x00\x00\x00\x02\xC0\xFF\xEE\x00\x00\x00\x00\x03";

pub const HOST_CHALLENGE: [u8; 8] = *b"\x11\x22\x33\x44\x55\x66\x77\x88";

pub const KEYS: KeySet = KeySet {
    version: 0x01,
    keys: Keys {
        enc: *b"@ABCDEFGHIJKLMNO",
        mac: *b"PQRSTUVWXYZ[\\]^_",
        kek: *b"`abcdefghijklmno",
    },
};

const LIST_LOAD_FILES: &[u8] = b"\x80\xF2\x20\x00\x02\x4F\x00";

const LIST_APPLICATIONS: &[u8] = b"\x80\xF2\x40\x00\x02\x4F\x00";

const INSTALL: &[u8] =
    b"\x80\xE6\x0C\x00\x18\x05\xA0\x00\x00\x00\x99\x06\xA0\x00\x00\x00\x99\x01\x06\xA0\x00\x00\x00\x99\x01\x01\x04\x00\x00";

// The terminal lists the load files and the applications, installs one, and lists again.
pub const COMMANDS: &[&[u8]] = &[
    LIST_LOAD_FILES,
    LIST_APPLICATIONS,
    INSTALL,
    LIST_APPLICATIONS,
];
