ghost use Rattle.std.specs.Prelude.{◌≡◌, ◌↔◌, IsTrue};
ghost use Rattle.clap.specs.Words.{kind_of};
ghost use Rattle.command_line.specs.Refusals.{IsRefusal, output_of};

use clap::Error;
use clap::error::ErrorKind;
use std::fmt;

/// Why a command line isn't carried out.
#[derive(Debug, Drop)]
pub enum LineFault {
    /// It was refused, or it asked for help: what to print.
    Shown(Error),
    /// Memory was refused.
    Memory,
}

impl LineFault {
    /// Whether the line was refused: its text belongs to the error output. Help that was asked for is no refusal.
    pub fn is_refusal(&self) -> bool
        ensures { IsTrue result ↔ IsRefusal self.now }
    {
        match self {
            LineFault::Shown(error) => error.use_stderr(),
            LineFault::Memory => false,
        }
    }
}

impl fmt::Display for LineFault {
    ghost output = { λ fault. output_of fault };

    fn fmt<W: fmt::Write>(&self, f: &mut fmt::Formatter<W>) -> fmt::Result {
        match self {
            LineFault::Shown(error) => write!(f, "{error}"),
            LineFault::Memory => f.write_str("memory"),
        }
    }
}

/// A parser's error: `Memory` where memory was refused, and only there.
pub(crate) fn fault_of(error: Error) -> LineFault
    ensures memory { (kind_of error ≡ ErrorKind.OutOfMemory) ↔ (result ≡ LineFault.Memory) }
    ensures shown { (e : Error) → result ≡ LineFault.Shown e
        → (kind_of e ≡ kind_of error) × (kind_of e ≡ ErrorKind.OutOfMemory → ⊥) }
{
    if error.kind() == ErrorKind::OutOfMemory {
        return LineFault::Memory;
    }
    LineFault::Shown(error)
}
