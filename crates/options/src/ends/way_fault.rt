ghost use Rattle.std.specs.Prelude.{◌≡◌, Some};
ghost use Rattle.options.specs.Ends.Texts.{way_text};
ghost use Rattle.options.specs.declared.ends.way_fault.WayFault.TheVariants.{Memory};

use channel::Parameter;
use std::alloc::AllocFailed;
use std::error::Error;
use std::fmt;

/// Why a publisher gets no ways to the endpoints that it is told.
#[derive(Clone, Copy, Debug)]
pub enum WayFault<'a> {
    /// There are more than seven beside the channel's own.
    Many,
    /// This text is no endpoint.
    Endpoint(&'a str),
    /// Its address doesn't go with the channel's interface or its time to live.
    Family(&'a str),
    /// The channel's endpoint is the same, or one before it.
    Twice(&'a str),
    /// Memory was refused.
    Memory,
}

impl fmt::Display for WayFault<'_> {
    ghost output = { λ fault. Some (way_text fault) };

    fn fmt<W: fmt::Write>(&self, f: &mut fmt::Formatter<W>) -> fmt::Result {
        match *self {
            WayFault::Many => write!(f, "to: more than eight endpoints, with the channel's"),
            WayFault::Endpoint(text) => {
                let range = Parameter::Endpoint.range();
                write!(f, "to: {text}: {range}")
            }
            WayFault::Family(text) => {
                write!(
                    f,
                    "to: {text} doesn't go with the channel's interface or ttl"
                )
            }
            WayFault::Twice(text) => write!(f, "to: {text} stands twice"),
            WayFault::Memory => write!(f, "memory"),
        }
    }
}

impl Error for WayFault<'_> {}

impl<T: Drop> From<AllocFailed<T>> for WayFault<'_> {
    ghost from_gives = { λ _ fault. fault ≡ Memory };

    fn from(_failed: AllocFailed<T>) -> Self {
        WayFault::Memory
    }
}
