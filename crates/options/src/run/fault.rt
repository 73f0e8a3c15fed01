ghost use Rattle.std.specs.Prelude.{◌≡◌, Some};
ghost use Rattle.options.specs.Run.Texts.{of_geometry, text_of};

use position::GeometryError;
use std::fmt;
use thiserror::Error;

/// Why what a run is told makes no plan.
#[derive(Clone, Copy, Debug, PartialEq, Eq, Error)]
pub enum PlanFault {
    /// The term length isn't a power of two from 65,536 to 16,777,216.
    TermLength,
    /// The MTU isn't a multiple of 32 from 256 to 65,504 and at most an eighth of the term length.
    Mtu,
    /// The message is longer than an eighth of the term.
    Length,
    /// The three rates together pass a thousand.
    Rates,
}

impl fmt::Display for PlanFault {
    ghost output = { λ fault. Some (text_of fault) };

    fn fmt<W: fmt::Write>(&self, f: &mut fmt::Formatter<W>) -> fmt::Result {
        f.write_str(self.text())
    }
}

impl PlanFault {
    /// What a user sees.
    pub fn text(self) -> &'static str
        ensures { result.now ≡ text_of self }
    {
        match self {
            PlanFault::TermLength => "G1 term length",
            PlanFault::Mtu => "G2 mtu",
            PlanFault::Length => "length",
            PlanFault::Rates => "E1 rates",
        }
    }
}

impl From<GeometryError> for PlanFault {
    ghost from_gives = { λ from fault. fault ≡ of_geometry from };

    fn from(error: GeometryError) -> PlanFault {
        match error {
            GeometryError::TermLength => PlanFault::TermLength,
            GeometryError::Mtu => PlanFault::Mtu,
        }
    }
}
