//! How often each fault came.

ghost use Rattle.std.specs.Prelude.{◌≡◌, ◌↔◌, ◌<◌, IsTrue, Some};
ghost use Rattle.frames.specs.FaultCounts.{counting, counts_text, place_of, uncounted};

use crate::fault::FrameError;
use std::fmt;

/// How many frames or datagrams were refused, by their faults `F1` to `F8`. A count stays at the greatest `u64`.
#[derive(Clone, Copy, Debug, PartialEq, Eq)]
pub struct FaultCounts {
    /// From `F1` to `F8`.
    pub counts: [u64; 8],
}

/// Where a fault is counted.
fn place_of(error: FrameError) -> usize
    ensures place { result ≡ place_of error }
    ensures few { result < 8 }
{
    match error {
        FrameError::Short => 0,
        FrameError::Version => 1,
        FrameError::Kind => 2,
        FrameError::Length => 3,
        FrameError::Flags => 4,
        FrameError::Alignment => 5,
        FrameError::Range => 6,
        FrameError::Datagram => 7,
    }
}

impl FaultCounts {
    /// Nothing was refused yet.
    pub fn new() -> FaultCounts
        ensures { result ≡ uncounted }
    {
        FaultCounts { counts: [0; 8] }
    }

    /// One was refused for this fault.
    pub fn count(&mut self, error: FrameError)
        ensures { self.new ≡ counting self.old error }
    {
        let place = place_of(error);
        self.counts[place] = self.counts[place].saturating_add(1);
    }

    /// Whether nothing was refused.
    pub fn is_none(&self) -> bool
        ensures { IsTrue result ↔ self.now ≡ uncounted }
    {
        *self == FaultCounts::new()
    }
}

/// The eight counts from `F1` to `F8`, each behind its fault's name, and a space before each word.
impl fmt::Display for FaultCounts {
    ghost output = { λ c. Some (counts_text c.counts) };

    fn fmt<W: fmt::Write>(&self, f: &mut fmt::Formatter<W>) -> fmt::Result {
        let c = self.counts;
        write!(
            f,
            " short {} version {} type {} length {}",
            c[0], c[1], c[2], c[3]
        )?;
        write!(
            f,
            " flags {} alignment {} range {} datagram {}",
            c[4], c[5], c[6], c[7]
        )
    }
}
