ghost use Rattle.std.specs.Prelude.{◌≡◌, Some};
ghost use Rattle.image.specs.Codes.{code_of};

use std::fmt;
use thiserror::Error;

/// How many consumers an image has at the most.
pub const CONSUMERS: usize = 8;

/// Why an image can't be opened. Nothing was made then.
#[derive(Clone, Copy, Debug, PartialEq, Eq, Error)]
pub enum ImageError {
    /// The join isn't a multiple of 32, or above the greatest position.
    Join,
    /// The window isn't a multiple of 32 from the MTU to half a term.
    Window,
    /// There are fewer than one or more than eight consumers.
    Consumers,
    /// Memory was refused.
    Memory,
}

impl fmt::Display for ImageError {
    ghost output = { λ fault. Some (code_of fault) };

    fn fmt<W: fmt::Write>(&self, f: &mut fmt::Formatter<W>) -> fmt::Result {
        f.write_str(self.code())
    }
}

impl ImageError {
    /// The code that a user sees.
    pub fn code(self) -> &'static str
        ensures { result.now ≡ code_of self }
    {
        match self {
            ImageError::Join => "J1",
            ImageError::Window => "J2",
            ImageError::Consumers => "J3",
            ImageError::Memory => "J4",
        }
    }
}
