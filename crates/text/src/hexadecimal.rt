//! Bytes as text.

ghost use Rattle.std.specs.Prelude.{Some};
ghost use Rattle.text.specs.Digits.{hexadecimal, two_digits};

use std::fmt;

/// Bytes in hexadecimal, two small digits each.
#[derive(Clone, Copy)]
pub struct Hexadecimal<'a>(pub &'a [u8]);

impl fmt::Display for Hexadecimal<'_> {
    ghost output = { λ bytes. Some (hexadecimal bytes.0.now) };

    fn fmt<W: fmt::Write>(&self, f: &mut fmt::Formatter<W>) -> fmt::Result {
        for byte in self.0 {
            let digits = Digits(*byte);
            write!(f, "{digits}")?;
        }
        Ok(())
    }
}

/// A byte, two small digits.
#[derive(Clone, Copy)]
struct Digits(u8);

impl fmt::Display for Digits {
    ghost output = { λ digits. Some (two_digits digits.0) };

    fn fmt<W: fmt::Write>(&self, f: &mut fmt::Formatter<W>) -> fmt::Result {
        let byte = self.0;
        write!(f, "{byte:02x}")
    }
}
