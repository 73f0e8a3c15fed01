ghost use Rattle.std.specs.Prelude.{◌≡◌, Some};
ghost use Rattle.publication.specs.Refusals.{number_of};
ghost use Rattle.std.specs.Fmt.{signed_decimal};

use std::fmt;
use thiserror::Error;

/// Why an offer isn't accepted. No entry was added then but, where the message didn't fit the rest of its term and its
/// addition began in it, a padding up to the term's end, which is counted to the publisher.
#[derive(Clone, Copy, Debug, PartialEq, Eq, Error)]
pub enum Refusal {
    /// Nobody is connected, and the tail is at the limit.
    NotConnected,
    /// The tail is at the limit.
    BackPressured,
    /// A term came to its end; a later offer may be accepted.
    AdminAction,
    /// The log is closed, for good.
    Closed,
    /// The last term is used up, for good.
    MaxPositionExceeded,
}

impl fmt::Display for Refusal {
    ghost output = { λ refusal. Some (signed_decimal (number_of refusal)) };

    fn fmt<W: fmt::Write>(&self, f: &mut fmt::Formatter<W>) -> fmt::Result {
        let code = self.code();
        write!(f, "{code}")
    }
}

impl Refusal {
    /// The number that a user sees, from -1 to -5.
    pub fn code(self) -> i32
        ensures { result ≡ number_of self }
    {
        match self {
            Refusal::NotConnected => -1,
            Refusal::BackPressured => -2,
            Refusal::AdminAction => -3,
            Refusal::Closed => -4,
            Refusal::MaxPositionExceeded => -5,
        }
    }
}
