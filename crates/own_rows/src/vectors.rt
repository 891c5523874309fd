// Published vectors of XTEA.
use cipher::Cipher;
use xtea::Xtea;

const COUNTED: [u8; 16] = [0, 1, 2, 3, 4, 5, 6, 7, 8, 9, 10, 11, 12, 13, 14, 15];

const ZEROS: [u8; 16] = [0; 16];

// A key, a block, and that block enciphered.
const VECTORS: [([u8; 16], u64, u64); 6] = [
    (COUNTED, 0x4142434445464748, 0x497DF3D072612CB5),
    (COUNTED, 0x4141414141414141, 0xE78F2D13744341D8),
    (COUNTED, 0x5A5B6E278948D77F, 0x4141414141414141),
    (ZEROS, 0x4142434445464748, 0xA0390589F8B8EFA5),
    (ZEROS, 0x4141414141414141, 0xED23375A821A8C2D),
    (ZEROS, 0x70E1225D6E4E7655, 0x4141414141414141),
];

// Whether a vector agrees in both directions.
fn agrees(key: &[u8; 16], block: u64, enciphered: u64) -> bool {
    let keys = Xtea::expand(key);
    let plain = block.to_be_bytes();
    let closed = enciphered.to_be_bytes();
    Xtea::encipher(&keys, &plain) == closed && Xtea::decipher(&keys, &closed) == plain
}

pub fn all_agree() -> bool {
    VECTORS.iter().all(|(key, block, enciphered)| agrees(key, *block, *enciphered))
}
