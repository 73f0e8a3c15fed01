//! What a user reads where the program gives up.

ghost use Rattle.std.specs.Prelude.{◌≡◌, Some};
ghost use Rattle.commands.specs.Faults.{of_device, of_script, shown_fault};
ghost use Rattle.commands.specs.declared.fault.Fault.TheVariants.{Frame, Memory, Plan};

use endpoint::DeviceError;
use frames::FrameError;
use options::PlanFault;
use script::ScriptFault;
use std::alloc::AllocError;
use std::error::Error;
use std::fmt;

/// Why the program did nothing more. It ends with status 1.
#[derive(Clone, Copy, Debug, PartialEq, Eq)]
pub enum Fault {
    /// This line of the script, counted from 1, can't be read.
    Line(u64),
    /// The input is longer than 1 MiB.
    Input,
    /// Memory was refused.
    Memory,
    /// The word isn't an even number of hexadecimal digits, at most 131,072.
    Hex,
    /// The bytes are no datagram.
    Frame(FrameError),
    /// The standard input failed.
    Read,
    /// The standard output failed.
    Write,
    /// What a run is told makes no plan.
    Plan(PlanFault),
    /// A publisher's messages weren't polled in its order, each once.
    Order,
    /// A socket, a thread or the clock failed.
    Device,
}

impl fmt::Display for Fault {
    ghost output = { λ fault. Some (shown_fault fault) };

    fn fmt<W: fmt::Write>(&self, f: &mut fmt::Formatter<W>) -> fmt::Result {
        match *self {
            Fault::Line(number) => write!(f, "line {number}: script"),
            Fault::Input => write!(f, "input"),
            Fault::Memory => write!(f, "memory"),
            Fault::Hex => write!(f, "hex"),
            Fault::Frame(error) => f.write_str(error.text()),
            Fault::Read => write!(f, "read"),
            Fault::Write => write!(f, "write"),
            Fault::Plan(fault) => f.write_str(fault.text()),
            Fault::Order => write!(f, "order"),
            Fault::Device => write!(f, "device"),
        }
    }
}

impl Error for Fault {}

impl From<AllocError> for Fault {
    ghost from_gives = { λ _ fault. fault ≡ Memory };

    fn from(_error: AllocError) -> Fault {
        Fault::Memory
    }
}

impl From<FrameError> for Fault {
    ghost from_gives = { λ from fault. fault ≡ Frame from };

    fn from(fault: FrameError) -> Fault {
        Fault::Frame(fault)
    }
}

impl From<ScriptFault> for Fault {
    ghost from_gives = { λ from fault. fault ≡ of_script from };

    fn from(fault: ScriptFault) -> Fault {
        match fault {
            ScriptFault::Line(number) => Fault::Line(number),
            ScriptFault::Memory => Fault::Memory,
        }
    }
}

impl From<DeviceError> for Fault {
    ghost from_gives = { λ from fault. fault ≡ of_device from };

    fn from(fault: DeviceError) -> Fault {
        match fault {
            DeviceError::Device => Fault::Device,
            DeviceError::Memory => Fault::Memory,
        }
    }
}

impl From<PlanFault> for Fault {
    ghost from_gives = { λ from fault. fault ≡ Plan from };

    fn from(fault: PlanFault) -> Fault {
        Fault::Plan(fault)
    }
}
