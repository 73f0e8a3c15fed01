//! The moment from which a run counts time.

ghost use Rattle.std.specs.Prelude.{◌≡◌, ◌-◌, ◌^◌, min, IfErr};
ghost use Rattle.std.specs.Duration.{as_nanos};
ghost use Rattle.endpoint.specs.declared.device_error.DeviceError.TheVariants.{Device};

use endpoint::DeviceError;
use std::time::{Clock, Duration, Instant};

/// The moment from which time is counted.
#[derive(Clone, Copy)]
pub struct Began {
    at: Instant,
}

/// A time in nanoseconds; the greatest `u64` where it is more.
pub fn nanoseconds(time: Duration) -> u64
    ensures { result ≡ min (as_nanos time) (2 ^ 64 - 1) }
{
    u64::try_from(time.as_nanos()).unwrap_or(u64::MAX)
}

impl Began {
    /// Time is counted from now on. A clock that can't be read is a device that failed.
    pub fn now<R: Clock>(rt: &R) -> Result<Began, DeviceError>
        ensures { IfErr result (λ error. error ≡ Device) }
    {
        match Instant::now(rt) {
            Ok(at) => Ok(Began { at }),
            Err(_) => Err(DeviceError::Device),
        }
    }

    /// The time since then, in nanoseconds; the greatest `u64` where it is more. A clock that can't be read is a device that
    /// failed.
    pub fn moment<R: Clock>(&self, rt: &R) -> Result<u64, DeviceError>
        ensures { IfErr result (λ error. error ≡ Device) }
    {
        match self.at.elapsed(rt) {
            Ok(time) => Ok(nanoseconds(time)),
            Err(_) => Err(DeviceError::Device),
        }
    }
}
