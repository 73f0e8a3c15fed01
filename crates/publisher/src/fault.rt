ghost use Rattle.std.specs.Prelude.{◌≡◌, Some};
ghost use Rattle.publisher.specs.Faults.{publish_fault};
ghost use Rattle.publisher.specs.Texts.{number_of, text_of};
ghost use Rattle.endpoint.specs.declared.device_error.DeviceError.TheVariants.{Memory};
ghost use Rattle.publisher.specs.declared.fault.PublishFault.TheVariants.{Failed};

use crate::offering::ReadingFault;
use endpoint::{DeviceError, Route};
use messages::InputFault;
use std::alloc::AllocError;
use std::error::Error;
use std::fmt;

/// Why a publisher did nothing more.
#[derive(Clone, Copy, Debug, PartialEq, Eq)]
pub enum PublishFault {
    /// The next message couldn't be read; those before it were delivered, or it gave up on them.
    Input(InputFault),
    /// The stream has come to its last position.
    Full,
    /// The system refuses a socket along this route: this machine doesn't have the address, no way leads to the peer, or it
    /// isn't permitted; with the system's number, where it gave one.
    NoSocket(Route, Option<i32>),
    /// The system gives no thread.
    NoThread,
    /// The socket or the clock failed, or memory was refused.
    Failed(DeviceError),
}

impl fmt::Display for PublishFault {
    ghost output = { λ fault. Some (text_of fault) };

    fn fmt<W: fmt::Write>(&self, f: &mut fmt::Formatter<W>) -> fmt::Result {
        match *self {
            PublishFault::Input(fault) => write!(f, "{fault}"),
            PublishFault::Full => write!(f, "the stream is at its last position"),
            PublishFault::NoSocket(route, _) => {
                let (from, to) = (route.binding.address, route.peer);
                write!(f, "the system gives no socket from {from} to {to}")
            }
            PublishFault::NoThread => write!(f, "device: the system gives no thread"),
            PublishFault::Failed(error) => write!(f, "{error}"),
        }
    }
}

impl Error for PublishFault {}

impl PublishFault {
    /// The system's number of what failed, if it gave one.
    pub fn number(&self) -> Option<i32>
        ensures { result ≡ number_of self.now }
    {
        match *self {
            PublishFault::Input(fault) => fault.number(),
            PublishFault::NoSocket(_, number) => number,
            _ => None,
        }
    }
}

impl From<ReadingFault> for PublishFault {
    ghost from_gives = { λ from fault. fault ≡ publish_fault from };

    fn from(fault: ReadingFault) -> PublishFault {
        match fault {
            ReadingFault::Input(fault) => PublishFault::Input(fault),
            ReadingFault::Full => PublishFault::Full,
        }
    }
}

impl From<DeviceError> for PublishFault {
    ghost from_gives = { λ from fault. fault ≡ Failed from };

    fn from(error: DeviceError) -> PublishFault {
        PublishFault::Failed(error)
    }
}

impl From<AllocError> for PublishFault {
    ghost from_gives = { λ _ fault. fault ≡ Failed Memory };

    fn from(_error: AllocError) -> PublishFault {
        PublishFault::Failed(DeviceError::Memory)
    }
}
