ghost use Rattle.std.specs.Prelude.{◌≡◌, Some};
ghost use Rattle.messages.specs.Texts.{number_of, text_of};
ghost use Rattle.messages.specs.declared.fault.InputFault.TheVariants.{Memory};

use std::alloc::AllocFailed;
use std::error::Error;
use std::fmt;

/// Why no message was read.
#[derive(Clone, Copy, Debug, PartialEq, Eq)]
pub enum InputFault {
    /// The input failed; with the system's number, where it gave one.
    Read(Option<i32>),
    /// The message of this number, counted from 1, is longer than the greatest, in bytes.
    TooLong(u64, usize),
    /// The input ends within the block of this number, counted from 1.
    Cut(u64),
    /// Memory was refused.
    Memory,
}

impl fmt::Display for InputFault {
    ghost output = { λ fault. Some (text_of fault) };

    fn fmt<W: fmt::Write>(&self, f: &mut fmt::Formatter<W>) -> fmt::Result {
        match *self {
            InputFault::Read(_) => write!(f, "read"),
            InputFault::TooLong(number, greatest) => {
                write!(f, "message {number} is longer than ")?;
                write!(f, "{greatest} bytes")
            }
            InputFault::Cut(number) => write!(f, "block {number} is cut short"),
            InputFault::Memory => write!(f, "memory"),
        }
    }
}

impl Error for InputFault {}

impl InputFault {
    /// The system's number of what failed, if it gave one.
    pub fn number(&self) -> Option<i32>
        ensures { result ≡ number_of self.now }
    {
        match *self {
            InputFault::Read(number) => number,
            _ => None,
        }
    }
}

impl<T: Drop> From<AllocFailed<T>> for InputFault {
    ghost from_gives = { λ _ fault. fault ≡ Memory };

    fn from(_error: AllocFailed<T>) -> InputFault {
        InputFault::Memory
    }
}
