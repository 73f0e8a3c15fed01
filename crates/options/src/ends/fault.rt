ghost use Rattle.std.specs.Prelude.{Some};
ghost use Rattle.options.specs.Ends.Texts.{text_of};

use channel::{ChannelFault, Parameter};
use std::error::Error;
use std::fmt;

/// Why what an end is told makes no plan.
#[derive(Clone, Copy, Debug)]
pub enum EndFault<'a> {
    /// The text is no channel.
    Channel(ChannelFault<'a>),
    /// This term length isn't a power of two from 65,536 to 16,777,216.
    TermLength(u32),
    /// This MTU isn't a multiple of 32 from 256 to 65,504 and at most an eighth of the term length.
    Mtu(u32),
    /// The term id lies before the first one, or the offset isn't a multiple of 32 below the term length.
    Start,
    /// The three rates together pass a thousand.
    Rates,
}

impl fmt::Display for EndFault<'_> {
    ghost output = { λ fault. Some (text_of fault) };

    fn fmt<W: fmt::Write>(&self, f: &mut fmt::Formatter<W>) -> fmt::Result {
        match *self {
            EndFault::Channel(fault) => write!(f, "{fault}"),
            EndFault::TermLength(bytes) => {
                let range = Parameter::TermLength.range();
                write!(f, "channel: term-length={bytes}: {range}")
            }
            EndFault::Mtu(bytes) => {
                let range = Parameter::Mtu.range();
                write!(f, "channel: mtu={bytes}: {range}")
            }
            EndFault::Start => {
                let range = Parameter::TermOffset.range();
                write!(
                    f,
                    "channel: term-id isn't before init-term-id, and term-offset is {range}"
                )
            }
            EndFault::Rates => write!(f, "E1 rates"),
        }
    }
}

impl Error for EndFault<'_> {}
