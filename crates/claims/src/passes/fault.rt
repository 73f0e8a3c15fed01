//! Why a call fails.

ghost use Rattle.std.specs.Prelude.{◌≡◌};
ghost use Rattle.claims.specs.Passes.Codes.{code_of};

use publication::Refusal;

/// Why a call fails. Nothing has changed then, but what a refused offer or claim leaves (`Refusal`).
#[derive(Clone, Copy, Debug, PartialEq, Eq)]
pub enum Fault {
    /// The log refuses the message.
    Refused(Refusal),
    /// The message is longer than the log takes, at once or in one claim.
    Long,
    /// These bytes aren't all inside the claim.
    Outside,
    /// All passes of this kind are taken.
    NoneLeft,
    /// Memory was refused.
    Memory,
    /// The term length isn't a power of two from 65,536 to 16,777,216.
    TermLength,
    /// The MTU isn't a multiple of 32 from 256 to 65,504, or more than an eighth of a term.
    Mtu,
    /// The start isn't a multiple of 32, or not below the greatest position.
    Start,
    /// There are fewer than one or more than eight consumers.
    Consumers,
    /// Eight consumers are there: no other can join.
    Full,
}

impl Fault {
    /// The number that a user sees.
    pub fn code(self) -> i32
        ensures { result ≡ code_of self }
    {
        match self {
            Fault::Refused(refusal) => refusal.code(),
            Fault::Long => -6,
            Fault::Outside => -10,
            Fault::NoneLeft => -18,
            Fault::Memory => -19,
            Fault::TermLength => -20,
            Fault::Mtu => -21,
            Fault::Start => -22,
            Fault::Consumers => -23,
            Fault::Full => -24,
        }
    }
}
