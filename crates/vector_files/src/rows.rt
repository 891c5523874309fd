// The rows of a vector file, and what a cipher makes of them.
ghost use Rattle.std.specs.Prelude.{◌≡◌, true, Some, codes};
ghost use Rattle.vector_files.specs.Rows.{exactly, row_of, fault_text, Right, Found};

use cipher::Cipher;
use hex::FromHex;
use std::fmt;

#[derive(Drop)]
pub struct Row {
    pub key: [u8; 16],
    pub plain: [u8; 8],
    pub enciphered: [u8; 8],
}

// What is wrong with a line.
#[derive(Clone, Copy, PartialEq, Eq, Debug)]
pub enum Fault {
    Differs,
    IllFormed,
}

impl fmt::Display for Fault {
    ghost output = { λ fault. Some (fault_text fault) };

    fn fmt<W: fmt::Write>(&self, f: &mut fmt::Formatter<W>) -> fmt::Result {
        match self {
            Fault::Differs => write!(f, "does not agree"),
            Fault::IllFormed => write!(f, "is no row of key, block and enciphered block"),
        }
    }
}

// The `N` bytes that a text of twice as many digits stands for.
fn decoded<const N: usize>(text: &[u8]) -> Option<[u8; N]>
    ensures { result ≡ exactly N text.now }
{
    <[u8; N]>::from_hex(text).ok()
}

// A line as a row, if it is one.
fn parsed(line: &[u8]) -> Option<Row>
    ensures { result ≡ row_of line.now }
{
    if line.len() != 66 || line[32] != b' ' || line[49] != b' ' {
        return None;
    }
    let key = decoded(&line[0..32])?;
    let plain = decoded(&line[33..49])?;
    let enciphered = decoded(&line[50..66])?;
    Some(Row {
        key,
        plain,
        enciphered,
    })
}

// Whether a cipher has the row, in both directions.
fn right<C: Cipher>(row: &Row) -> bool
    ensures sound { result ≡ true → Right C.algorithm.enc C.algorithm.dec row.now }
    ensures complete { Right C.algorithm.enc C.algorithm.dec row.now → result ≡ true }
{
    let keys = C::expand(&row.key);
    let forward = C::encipher(&keys, &row.plain) == row.enciphered;
    let backward = C::decipher(&keys, &row.enciphered) == row.plain;
    forward && backward
}

// Holds a line against a cipher.
pub fn judged<C: Cipher>(line: &[u8]) -> Result<(), Fault>
    ensures { Found C.algorithm.enc C.algorithm.dec line.now result }
{
    let row = parsed(line).ok_or(Fault::IllFormed)?;
    if right::<C>(&row) {
        Ok(())
    } else {
        Err(Fault::Differs)
    }
}
