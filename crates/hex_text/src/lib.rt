// Bytes shown as hexadecimal digits, with no memory of their own.
#![tactic(auto)]

ghost use Rattle.std.specs.Prelude.{Some};
ghost use Rattle.hex.specs.Hex.{encode_upper};

use std::fmt;

// Shows two capital digits for each byte, the higher first.
#[derive(Clone, Copy)]
pub struct Hex<'a> {
    pub bytes: &'a [u8],
}

impl<'a> fmt::Display for Hex<'a> {
    ghost output = { λ hex. Some (encode_upper hex.bytes.now) };

    fn fmt<W: fmt::Write>(&self, f: &mut fmt::Formatter<W>) -> fmt::Result {
        for &byte in self.bytes {
            write!(f, "{byte:02X}")?;
        }
        Ok(())
    }
}
