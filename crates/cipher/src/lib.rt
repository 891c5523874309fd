// Block ciphers of eight-byte blocks under sixteen-byte keys, and the chained code that they give.
#![tactic(auto)]

ghost use Rattle.std.specs.Prelude.{◌≡◌, ℕ, ◌<◌, List};
ghost use Rattle.cipher.specs.Blocks.{Bytes, Algorithm, halves, xor};

pub mod cbc;
pub mod mac;

// The three keys of a key set or of a channel.
#[derive(Clone, Copy)]
pub struct Keys {
    // enciphers bodies, and gives the cryptograms
    pub enc: [u8; 16],
    // gives the codes
    pub mac: [u8; 16],
    // enciphers new keys
    pub kek: [u8; 16],
}

// A block cipher: for each key one enciphering and one deciphering of blocks, each undoing the other.
pub trait Cipher {
    // the byte by which PUT KEY names the algorithm
    const ALGORITHM: u8;

    ghost ALGORITHM: { ℕ };

    // what a key is expanded to, once for many blocks
    type RoundKeys: Drop;

    // both directions, and the byte
    ghost algorithm: { Algorithm };

    // what expanded keys make of a block
    ghost enciphering: { Self.RoundKeys → List ℕ → List ℕ };

    ghost deciphering: { Self.RoundKeys → List ℕ → List ℕ };

    fn expand(key: &[u8; 16]) -> Self::RoundKeys
        ensures enc { enciphering result ≡ algorithm.enc key.now }
        ensures dec { deciphering result ≡ algorithm.dec key.now };

    fn encipher(keys: &Self::RoundKeys, block: &[u8; 8]) -> [u8; 8]
        ensures { result ≡ enciphering keys.now block.now };

    fn decipher(keys: &Self::RoundKeys, block: &[u8; 8]) -> [u8; 8]
        ensures { result ≡ deciphering keys.now block.now };

    ghost named: { algorithm.identifier ≡ ALGORITHM };

    ghost undone: { (k b : List ℕ) → Bytes 16 k → Bytes 8 b → algorithm.dec k (algorithm.enc k b) ≡ b };

    ghost redone: { (k b : List ℕ) → Bytes 16 k → Bytes 8 b → algorithm.enc k (algorithm.dec k b) ≡ b };

    ghost enciphered: { (k b : List ℕ) → Bytes 16 k → Bytes 8 b → Bytes 8 (algorithm.enc k b) };

    ghost deciphered: { (k b : List ℕ) → Bytes 16 k → Bytes 8 b → Bytes 8 (algorithm.dec k b) };
}

// One block under a key.
pub fn encipher_block<C: Cipher>(key: &[u8; 16], block: &[u8; 8]) -> [u8; 8]
    ensures { result ≡ C.algorithm.enc key.now block.now }
{
    let keys = C::expand(key);
    C::encipher(&keys, block)
}

// The exclusive or of two blocks.
pub fn xored(a: &[u8; 8], b: &[u8; 8]) -> [u8; 8]
    ensures { result ≡ xor a.now b.now }
{
    std::array::from_fn(|i| a[i] ^ b[i])
}

// The two halves of a key.
pub fn halves(key: &[u8; 16]) -> [[u8; 8]; 2]
    ensures { result ≡ halves key.now }
{
    let (halves, _) = key.as_chunks::<8>();
    [halves[0], halves[1]]
}
