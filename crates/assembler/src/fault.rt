ghost use Rattle.std.specs.Prelude.{◌≡◌, Some};
ghost use Rattle.assembler.specs.Codes.{code_of};

use std::fmt;
use thiserror::Error;

/// Why a frame isn't taken. Nothing is begun then.
#[derive(Clone, Copy, Debug, PartialEq, Eq, Error)]
pub enum AssemblyError {
    /// Memory was refused.
    Memory,
    /// The message would be longer than the greatest.
    TooLong,
}

impl fmt::Display for AssemblyError {
    ghost output = { λ fault. Some (code_of fault) };

    fn fmt<W: fmt::Write>(&self, f: &mut fmt::Formatter<W>) -> fmt::Result {
        f.write_str(self.code())
    }
}

impl AssemblyError {
    /// The code that a user sees.
    pub fn code(self) -> &'static str
        ensures { result.now ≡ code_of self }
    {
        match self {
            AssemblyError::Memory => "A1",
            AssemblyError::TooLong => "A2",
        }
    }
}
