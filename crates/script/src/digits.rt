// Hexadecimal digits, and the bytes of a line.
ghost use Rattle.std.specs.Prelude.{◌≡◌, ℕ, ◌<◌, IfSome, IfOk, vec_items};
ghost use Rattle.std.specs.Option.{option_map};
ghost use Rattle.script.specs.Digits.{digit_value, byte_of, pairs_of, line_bytes};

use std::alloc::{AllocError, Global};

const MOST_DIGITS: usize = 1024;

// What a letter stands for.
fn digit(letter: char) -> Option<u8>
    ensures value { result ≡ digit_value letter }
    ensures small { IfSome result (λ v. v < 16) }
{
    match letter {
        '0'..='9' => Some((letter as u32 - '0' as u32) as u8),
        'A'..='F' => Some((letter as u32 - 'A' as u32) as u8 + 10),
        'a'..='f' => Some((letter as u32 - 'a' as u32) as u8 + 10),
        _ => None,
    }
}

// The byte of a pair of digits, the higher first.
fn byte(high: u8, low: u8) -> Option<u8>
    ensures { result ≡ byte_of (digit_value high) (digit_value low) }
{
    let high = digit(char::from(high))?;
    let low = digit(char::from(low))?;
    Some(16 * high + low)
}

// The bytes of pairs of digits, or none where anything else stands in the line.
fn pairs(heap: Global, line: &[u8]) -> Result<Option<Vec<u8>>, AllocError>
    ensures { IfOk result (λ o. option_map vec_items o ≡ pairs_of line.now) }
{
    let mut bytes = Vec::new(heap);
    let mut left = line;
    while let [high, low, rest @ ..] = left {
        let Some(byte) = byte(*high, *low) else {
            return Ok(None);
        };
        bytes.push(byte)?;
        left = rest;
    }
    if left.is_empty() {
        Ok(Some(bytes))
    } else {
        Ok(None)
    }
}

// The bytes of a line. A line that is not pairs of digits, or has too many, counts as empty.
pub(crate) fn line_bytes(heap: Global, line: &[u8]) -> Result<Vec<u8>, AllocError>
    ensures { IfOk result (λ v. v.items ≡ line_bytes line.now) }
{
    if line.len() > MOST_DIGITS {
        return Ok(Vec::new(heap));
    }
    Ok(pairs(heap, line)?.unwrap_or_else(|| Vec::new(heap)))
}
