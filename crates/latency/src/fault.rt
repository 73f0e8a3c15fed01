ghost use Rattle.std.specs.Prelude.{◌≡◌};
ghost use Rattle.latency.specs.Faults.{of_device};
ghost use Rattle.latency.specs.declared.fault.LatencyError.TheVariants.{Memory};

use endpoint::DeviceError;
use std::alloc::AllocError;
use thiserror::Error;

/// Why nothing was timed.
#[derive(Clone, Copy, Debug, Error)]
pub enum LatencyError {
    #[error("memory was refused")]
    Memory,
    #[error("the clock can't be read")]
    Clock,
    #[error("a thread couldn't be started")]
    Thread,
    #[error("a socket couldn't be had, or failed")]
    Device,
    #[error("the log is used up")]
    Full,
    #[error("no message was read")]
    Nothing,
}

impl From<AllocError> for LatencyError {
    ghost from_gives = { λ _ fault. fault ≡ Memory };

    fn from(_error: AllocError) -> LatencyError {
        LatencyError::Memory
    }
}

impl From<DeviceError> for LatencyError {
    ghost from_gives = { λ from fault. fault ≡ of_device from };

    fn from(fault: DeviceError) -> LatencyError {
        match fault {
            DeviceError::Device => LatencyError::Device,
            DeviceError::Memory => LatencyError::Memory,
        }
    }
}
