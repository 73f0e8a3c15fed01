ghost use Rattle.std.specs.Prelude.{Some};
ghost use Rattle.channel.specs.Texts.{text_of};

use crate::parameter::Parameter;
use std::error::Error;
use std::fmt;

/// Why a text is no channel: the first fault from the left.
#[derive(Clone, Copy, Debug)]
pub enum ChannelFault<'a> {
    /// The text doesn't begin with `aeron:udp?`.
    Prefix,
    /// This part has no `=`.
    Part(&'a str),
    /// No parameter of this name is taken.
    Unknown(&'a str),
    /// The parameter stands a second time.
    Repeated(Parameter),
    /// This value isn't of the parameter's form, or out of its range.
    Value(Parameter, &'a str),
    /// No part is an endpoint.
    NoEndpoint,
    /// The endpoint's address and the interface are one of IPv4 and one of IPv6.
    Families,
    /// A time to live stands with an address of IPv6.
    Ttl,
    /// Of `init-term-id`, `term-id` and `term-offset` one or two stand.
    Apart,
}

impl fmt::Display for ChannelFault<'_> {
    ghost output = { λ fault. Some (text_of fault) };

    fn fmt<W: fmt::Write>(&self, f: &mut fmt::Formatter<W>) -> fmt::Result {
        match *self {
            ChannelFault::Prefix => write!(f, "channel: it doesn't begin with aeron:udp?"),
            ChannelFault::Part(part) => write!(f, "channel: no name=value: {part}"),
            ChannelFault::Unknown(name) => write!(f, "channel: {name} isn't taken"),
            ChannelFault::Repeated(parameter) => {
                let name = parameter.name();
                write!(f, "channel: {name} stands twice")
            }
            ChannelFault::Value(parameter, value) => {
                let (name, range) = (parameter.name(), parameter.range());
                write!(f, "channel: {name}={value}: {range}")
            }
            ChannelFault::NoEndpoint => write!(f, "channel: no endpoint=HOST:PORT"),
            ChannelFault::Families => write!(
                f,
                "channel: endpoint and interface aren't both IPv4 or both IPv6"
            ),
            ChannelFault::Ttl => write!(f, "channel: ttl is for IPv4 alone"),
            ChannelFault::Apart => write!(
                f,
                "channel: init-term-id, term-id and term-offset stand together"
            ),
        }
    }
}

impl Error for ChannelFault<'_> {}
