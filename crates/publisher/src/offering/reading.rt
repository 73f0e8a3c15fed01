//! How the reading of the input ended.

ghost use Rattle.std.specs.Prelude.{◌≡◌, IfErr};
ghost use Rattle.publisher.specs.Inputs.{StopsReading};
ghost use Rattle.publisher.specs.declared.offering.reading.ReadingFault.TheVariants.{Input};

use messages::InputFault;
use position::Geometry;

/// Why no message is read and offered any more, before the input's end.
#[derive(Clone, Copy, Debug, PartialEq, Eq)]
pub enum ReadingFault {
    /// The next message couldn't be read; those before it were accepted.
    Input(InputFault),
    /// The stream has come to its last position.
    Full,
}

impl From<InputFault> for ReadingFault {
    ghost from_gives = { λ from fault. fault ≡ Input from };

    fn from(fault: InputFault) -> ReadingFault {
        ReadingFault::Input(fault)
    }
}

/// How many messages were accepted, and where they end: at the log's start, as long as there are none.
#[derive(Clone, Copy, Debug, PartialEq, Eq)]
pub struct Offered {
    pub messages: u64,
    pub tail: u64,
}

/// How the reading ended without a fault.
#[derive(Clone, Copy, Debug, PartialEq, Eq)]
pub enum ReadingEnd {
    /// At the input's end.
    All,
    /// All was to stop: one more message was read, and wasn't accepted.
    Stopped,
}

/// How the reading of messages for a stream of this shape ended, and what was accepted before.
#[derive(Clone, Copy)]
pub struct Reading {
    pub geometry: Geometry,
    pub offered: Offered,
    pub ended: Result<ReadingEnd, ReadingFault>,
    ghost stops: { ∥ IfErr ended (λ f. StopsReading geometry f) ∥₁ },
}

impl Reading {
    pub fn new(
        geometry: Geometry,
        offered: Offered,
        ended: Result<ReadingEnd, ReadingFault>,
    ) -> Reading
        requires { IfErr ended (λ f. StopsReading geometry f) }
        ensures geometry { result.geometry ≡ geometry }
        ensures offered { result.offered ≡ offered }
        ensures ended { result.ended ≡ ended }
    {
        Reading {
            geometry,
            offered,
            ended,
        }
    }
}
