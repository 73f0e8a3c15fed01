ghost use Rattle.std.specs.Prelude.{◌≡◌, Some};
ghost use Rattle.shared_log.specs.Faults.{code_of};
ghost use Rattle.shared_log.specs.declared.fault.LogError.TheVariants.{Memory};

use std::alloc::{AllocError, AllocFailed};
use std::fmt;
use thiserror::Error;

/// Why a log can't be opened, or why a consumer can't join or leave. Nothing was made or changed
/// then.
#[derive(Clone, Copy, Debug, PartialEq, Eq, Error)]
pub enum LogError {
    /// The start isn't a multiple of 32, or not below the greatest position.
    Start,
    /// There are fewer than one or more than eight consumers.
    Consumers,
    /// Memory was refused.
    Memory,
    /// Eight consumers are there: no other can join.
    Full,
    /// No other consumer is there: the last one can't leave.
    Last,
}

impl fmt::Display for LogError {
    ghost output = { λ fault. Some (code_of fault) };

    fn fmt<W: fmt::Write>(&self, f: &mut fmt::Formatter<W>) -> fmt::Result {
        f.write_str(self.code())
    }
}

impl LogError {
    /// The code that a user sees.
    pub fn code(self) -> &'static str
        ensures { result.now ≡ code_of self }
    {
        match self {
            LogError::Start => "L1",
            LogError::Consumers => "L2",
            LogError::Memory => "L3",
            LogError::Full => "L4",
            LogError::Last => "L5",
        }
    }
}

impl From<AllocError> for LogError {
    ghost from_gives = { λ _ e. e ≡ Memory };

    fn from(_error: AllocError) -> LogError {
        LogError::Memory
    }
}
