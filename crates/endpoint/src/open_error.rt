//! Why a socket can't be had.

ghost use Rattle.std.specs.Prelude.{◌≡◌, Some};
ghost use Rattle.endpoint.specs.Texts.{open_text};

use crate::device_error::DeviceError;
use std::fmt;
use thiserror::Error;

/// Why a socket can't be had. Nothing is left of it.
#[derive(Clone, Copy, Debug, PartialEq, Eq, Error)]
pub enum OpenError {
    /// The system refused it; with the system's number, where it gave one.
    Refused(Option<i32>),
    /// There is no memory for its datagrams.
    Memory,
}

impl fmt::Display for OpenError {
    ghost output = { λ error. Some (open_text error) };

    fn fmt<W: fmt::Write>(&self, f: &mut fmt::Formatter<W>) -> fmt::Result {
        let error = match self {
            OpenError::Refused(_) => DeviceError::Device,
            OpenError::Memory => DeviceError::Memory,
        };
        f.write_str(error.text())
    }
}
