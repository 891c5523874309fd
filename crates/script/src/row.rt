// The printed rows.
ghost use Rattle.std.specs.Prelude.{◌≡◌, ℕ, ◌<◌, Some};
ghost use Rattle.script.specs.Rows.{hex_digit, row_bytes};

use answers::Refusal;
use std::fmt;

// A printed row.
#[derive(Clone, Copy)]
pub enum Row {
    // the number of a reset
    Reset(u16),
    // the number of a command, and the status word of its answer
    Answered(u16, [u8; 2]),
    // no card is made
    ImageRefused(Refusal),
}

fn hex_digit(value: u8) -> char
    requires { value < 16 }
    ensures digit { result ≡ hex_digit value }
    ensures ascii { result < 128 }
{
    char::from(b"0123456789ABCDEF"[value as usize])
}

impl fmt::Display for Row {
    ghost output = { λ row. Some (row_bytes row) };

    fn fmt<W: fmt::Write>(&self, f: &mut fmt::Formatter<W>) -> fmt::Result {
        match self {
            Row::Reset(number) => write!(f, "{number} ----\n"),
            Row::Answered(number, status) => {
                let [sw1, sw2] = *status;
                // Four characters cost less than two padded holes.
                let a = hex_digit(sw1 / 16);
                let b = hex_digit(sw1 % 16);
                let c = hex_digit(sw2 / 16);
                let d = hex_digit(sw2 % 16);
                write!(f, "{number} {a}{b}{c}{d}\n")
            }
            Row::ImageRefused(refusal) => {
                let number = u8::from(*refusal);
                write!(f, "IMAGE {number}\n")
            }
        }
    }
}
