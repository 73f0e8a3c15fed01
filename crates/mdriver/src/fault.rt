//! Why no command is begun.

ghost use Rattle.std.specs.Prelude.{◌≡◌, Some};
ghost use Rattle.mdriver.specs.Faults.{IsFaultOf, shown_fault};
ghost use Rattle.mdriver.specs.declared.fault.Fault.TheVariants.{Memory};

use command_line::Descriptor;
use std::alloc::AllocError;
use std::fmt;
use std::io::{self, ErrorKind};

/// Why no command is begun: nothing was read, and no thread or socket was asked for. The program ends with status 1.
#[derive(Clone, Copy, Debug, PartialEq, Eq)]
pub enum Fault {
    /// A word of the command line is no text.
    Word,
    /// Memory was refused.
    Memory,
    /// The command can't do without this descriptor, which is closed.
    Closed(Descriptor),
    /// A standard descriptor is closed, and the null device can't be opened in its place.
    Null,
}

impl fmt::Display for Fault {
    ghost output = { λ fault. Some (shown_fault fault) };

    fn fmt<W: fmt::Write>(&self, f: &mut fmt::Formatter<W>) -> fmt::Result {
        match self {
            Fault::Word => f.write_str("a word of the command line is no text"),
            Fault::Memory => f.write_str("memory"),
            Fault::Closed(descriptor) => write!(f, "{descriptor} is closed"),
            Fault::Null => {
                f.write_str("a standard descriptor is closed, and /dev/null can't be opened")
            }
        }
    }
}

impl From<AllocError> for Fault {
    ghost from_gives = { λ _ fault. fault ≡ Memory };

    fn from(_error: AllocError) -> Fault {
        Fault::Memory
    }
}

impl From<io::Error> for Fault {
    ghost from_gives = { λ error fault. IsFaultOf error fault };

    fn from(error: io::Error) -> Fault {
        match error.kind() {
            ErrorKind::InvalidData => Fault::Word,
            _ => Fault::Memory,
        }
    }
}
