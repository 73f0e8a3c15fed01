ghost use Rattle.std.specs.Prelude.{◌≡◌, Some};
ghost use Rattle.receiver.specs.SetupFaults.{code_of};

use std::fmt;
use thiserror::Error;

/// Why a SETUP opens no image: the first of these that applies.
#[derive(Clone, Copy, Debug, PartialEq, Eq, Error)]
pub enum SetupError {
    /// The term length or the MTU is no geometry's.
    Geometry,
    /// The term id and the offset are no position of the stream.
    Position,
    /// The receiver's window isn't one of that geometry.
    Window,
}

impl fmt::Display for SetupError {
    ghost output = { λ fault. Some (code_of fault) };

    fn fmt<W: fmt::Write>(&self, f: &mut fmt::Formatter<W>) -> fmt::Result {
        f.write_str(self.code())
    }
}

impl SetupError {
    /// The code that a user sees.
    pub fn code(self) -> &'static str
        ensures { result.now ≡ code_of self }
    {
        match self {
            SetupError::Geometry => "S1",
            SetupError::Position => "S2",
            SetupError::Window => "S3",
        }
    }
}
