ghost use Rattle.std.specs.Prelude.{◌≡◌, Some};
ghost use Rattle.subscriber.specs.FaultTexts.{number_of, of_delivery, text_of};
ghost use Rattle.endpoint.specs.declared.device_error.DeviceError.TheVariants.{Memory};
ghost use Rattle.subscriber.specs.declared.fault.SubscribeFault.TheVariants.{Failed};

use crate::images::delivery::DeliveryFault;
use endpoint::DeviceError;
use std::alloc::AllocError;
use std::error::Error;
use std::fmt;
use std::net::SocketAddr;

/// Why a subscriber did nothing more.
#[derive(Clone, Copy, Debug, PartialEq, Eq)]
pub enum SubscribeFault {
    /// Another socket of this machine has the address and its port.
    Taken(SocketAddr),
    /// This machine doesn't have the address.
    NotHere(SocketAddr),
    /// The output failed, with the system's number, if any. What was polled last may be lost; no status message told of it.
    Output(Option<i32>),
    /// A message was refused, and is lost.
    Message,
    /// The system refuses the socket, or a second handle of it; with the system's number, where it gave one.
    NoSocket(Option<i32>),
    /// The system gives no thread.
    NoThread,
    /// `Device`: all calls of the socket failed for 5 seconds, or the clock can't be read. `Memory`: memory was refused.
    Failed(DeviceError),
}

impl fmt::Display for SubscribeFault {
    ghost output = { λ fault. Some (text_of fault) };

    fn fmt<W: fmt::Write>(&self, f: &mut fmt::Formatter<W>) -> fmt::Result {
        match *self {
            SubscribeFault::Taken(address) => write!(f, "{address} is in use"),
            SubscribeFault::NotHere(address) => {
                write!(f, "{address} isn't an address of this machine")
            }
            SubscribeFault::Output(_) => write!(f, "output"),
            SubscribeFault::Message => write!(f, "message"),
            SubscribeFault::NoSocket(_) => write!(f, "device"),
            SubscribeFault::NoThread => write!(f, "device: the system gives no thread"),
            SubscribeFault::Failed(error) => write!(f, "{error}"),
        }
    }
}

impl Error for SubscribeFault {}

impl SubscribeFault {
    /// The system's number of what failed, if it gave one.
    pub fn number(&self) -> Option<i32>
        ensures { result ≡ number_of self.now }
    {
        match *self {
            SubscribeFault::Output(number) | SubscribeFault::NoSocket(number) => number,
            _ => None,
        }
    }
}

impl From<DeliveryFault> for SubscribeFault {
    ghost from_gives = { λ from fault. fault ≡ of_delivery from };

    fn from(fault: DeliveryFault) -> SubscribeFault {
        match fault {
            DeliveryFault::Output(number) => SubscribeFault::Output(number),
            DeliveryFault::Message(_) => SubscribeFault::Message,
            DeliveryFault::Failed(error) => SubscribeFault::Failed(error),
        }
    }
}

impl From<DeviceError> for SubscribeFault {
    ghost from_gives = { λ from fault. fault ≡ Failed from };

    fn from(error: DeviceError) -> SubscribeFault {
        SubscribeFault::Failed(error)
    }
}

impl From<AllocError> for SubscribeFault {
    ghost from_gives = { λ _ fault. fault ≡ Failed Memory };

    fn from(_error: AllocError) -> SubscribeFault {
        SubscribeFault::Failed(DeviceError::Memory)
    }
}
