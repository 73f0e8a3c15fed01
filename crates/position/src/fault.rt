ghost use Rattle.std.specs.Prelude.{◌≡◌, Some};
ghost use Rattle.position.specs.Fault.{code_of, text_of};

use std::fmt;
use thiserror::Error;

/// Why a geometry is refused.
#[derive(Clone, Copy, Debug, PartialEq, Eq, Error)]
pub enum GeometryError {
    /// The term length isn't a power of two from 65,536 to 16,777,216.
    TermLength,
    /// The MTU isn't a multiple of 32 from 256 to 65,504 and at most an eighth of the term length.
    Mtu,
}

impl fmt::Display for GeometryError {
    ghost output = { λ fault. Some (text_of fault) };

    fn fmt<W: fmt::Write>(&self, f: &mut fmt::Formatter<W>) -> fmt::Result {
        f.write_str(self.text())
    }
}

impl GeometryError {
    /// The code alone.
    pub fn code(self) -> &'static str
        ensures { result.now ≡ code_of self }
    {
        match self {
            GeometryError::TermLength => "G1",
            GeometryError::Mtu => "G2",
        }
    }

    /// The code and the name that a user sees.
    pub fn text(self) -> &'static str
        ensures { result.now ≡ text_of self }
    {
        match self {
            GeometryError::TermLength => "G1 term length",
            GeometryError::Mtu => "G2 mtu",
        }
    }
}
