ghost use Rattle.std.specs.Prelude.{◌≡◌, alloc_error};
ghost use Rattle.speed.specs.declared.fault.SpeedError.TheVariants.{Memory};

use shared_log::LogError;
use std::alloc::{AllocError, AllocFailed};
use thiserror::Error;

/// Why nothing was measured.
#[derive(Debug, Drop, Error)]
pub enum SpeedError {
    #[error("the log wasn't opened: {0}")]
    Open(#[from] LogError),
    #[error("memory was refused: {0}")]
    Memory(#[from] AllocError),
    #[error("the clock can't be read")]
    Clock,
}

impl<T: Drop> From<AllocFailed<T>> for SpeedError {
    ghost from_gives = { λ _ e. e ≡ Memory alloc_error };

    fn from(_failed: AllocFailed<T>) -> SpeedError {
        SpeedError::Memory(AllocError)
    }
}
