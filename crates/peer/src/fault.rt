ghost use Rattle.std.specs.Prelude.{◌≡◌, Some};
ghost use Rattle.peer.specs.Texts.{text_of};

use endpoint::DeviceError;
use std::fmt;
use thiserror::Error;

/// Why a subscriber's end can't be had.
#[derive(Clone, Copy, Debug, PartialEq, Eq, Error)]
pub enum BindError {
    /// Another socket of this machine has the port.
    Taken,
    /// This machine doesn't have the address.
    NotHere,
    /// The system refused the socket for another reason; with the system's number, where it gave one.
    Refused(Option<i32>),
    /// Memory was refused.
    Memory,
}

impl fmt::Display for BindError {
    ghost output = { λ error. Some (text_of error) };

    fn fmt<W: fmt::Write>(&self, f: &mut fmt::Formatter<W>) -> fmt::Result {
        f.write_str(self.text())
    }
}

impl BindError {
    /// What a user sees.
    pub fn text(self) -> &'static str
        ensures { result.now ≡ text_of self }
    {
        match self {
            BindError::Taken => "the port is in use",
            BindError::NotHere => "this machine doesn't have the address",
            BindError::Refused(_) => DeviceError::Device.text(),
            BindError::Memory => DeviceError::Memory.text(),
        }
    }
}
