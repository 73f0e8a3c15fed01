//! Why what stands on a device did nothing more.

ghost use Rattle.std.specs.Prelude.{◌≡◌, Some};
ghost use Rattle.endpoint.specs.Texts.{text_of};
ghost use Rattle.endpoint.specs.declared.device_error.DeviceError.TheVariants.{Device, Memory};

use crate::datagrams::DeviceFailed;
use std::alloc::AllocError;
use std::fmt;
use thiserror::Error;

/// Why a device, or an agent over one, did nothing more. The next call may be tried after it.
#[derive(Clone, Copy, Debug, PartialEq, Eq, Error)]
pub enum DeviceError {
    /// The device failed, or the system refused a socket, a thread or the clock.
    Device,
    /// Memory was refused; in a cycle the datagram for which it was wanted is lost.
    Memory,
}

impl fmt::Display for DeviceError {
    ghost output = { λ error. Some (text_of error) };

    fn fmt<W: fmt::Write>(&self, f: &mut fmt::Formatter<W>) -> fmt::Result {
        f.write_str(self.text())
    }
}

impl DeviceError {
    /// What a user sees.
    pub fn text(self) -> &'static str
        ensures { result.now ≡ text_of self }
    {
        match self {
            DeviceError::Device => "device",
            DeviceError::Memory => "memory",
        }
    }
}

impl From<DeviceFailed> for DeviceError {
    ghost from_gives = { λ _ e. e ≡ Device };

    fn from(_failed: DeviceFailed) -> DeviceError {
        DeviceError::Device
    }
}

impl From<AllocError> for DeviceError {
    ghost from_gives = { λ _ e. e ≡ Memory };

    fn from(_error: AllocError) -> DeviceError {
        DeviceError::Memory
    }
}
