//! A row of a table of measurements.

ghost use Rattle.std.specs.Prelude.{◌≡◌, ◌*◌, ◌/◌, ◌-◌, ◌^◌, ◌<◌, max, min};

use crate::percentiles::Percentiles;
use crate::plan::Plan;
use crate::samples::Timed;
use std::fmt;
use text::Pace;

/// The table's head.
pub const HEADER: &str =
    "program,publishers,length,term,mtu,loss,rate,messages,seconds,per_second,p50,p90,p99,p999,greatest";

/// What was measured of a program, as a row.
#[derive(Clone, Copy)]
pub struct Row {
    pub program: &'static str,
    pub plan: Plan,
    pub timed: Timed,
}

impl Timed {
    /// How many messages were read in a second, rounded down. No time at all is taken for a nanosecond.
    pub fn per_second(&self) -> u64
        ensures { result ≡ min (self.now.messages * 1000000000 / max self.now.nanoseconds 1) (2 ^ 64 - 1) }
    {
        let pace = Pace {
            count: self.messages,
            nanoseconds: self.nanoseconds,
        };
        pace.rate()
    }
}

impl fmt::Display for Timed {
    fn fmt<W: fmt::Write>(&self, f: &mut fmt::Formatter<W>) -> fmt::Result {
        let messages = self.messages;
        let Percentiles {
            p50,
            p90,
            p99,
            p999,
            greatest,
        } = self.percentiles;
        let micros = self.nanoseconds / 1000;
        let (seconds, rest) = (micros / 1_000_000, micros % 1_000_000);
        let per_second = self.per_second();
        write!(f, "{messages},{seconds}.{rest:06},{per_second},")?;
        write!(f, "{p50},{p90},{p99},{p999},{greatest}")
    }
}

impl fmt::Display for Row {
    fn fmt<W: fmt::Write>(&self, f: &mut fmt::Formatter<W>) -> fmt::Result {
        let (program, timed) = (self.program, self.timed);
        let (publishers, length) = (self.plan.load.publishers, self.plan.load.length);
        let (term, mtu) = (self.plan.geometry.term_length(), self.plan.geometry.mtu());
        let (loss, rate) = (self.plan.loss, self.plan.load.rate);
        write!(
            f,
            "{program},{publishers},{length},{term},{mtu},{loss},{rate},{timed}"
        )
    }
}
