//! The parameters of a channel, and what a part sets.

ghost use Rattle.std.specs.Prelude.{◌≡◌, ◌≢◌, IfSome, IfNone};
ghost use Rattle.channel.specs.declared.parameter.Parameter.{Parameter};
ghost use Rattle.channel.specs.declared.parameter.Parameter.TheVariants.{Endpoint, Interface};
ghost use Rattle.channel.specs.Texts.{range_of};
ghost use Rattle.channel.specs.Settings.{name_of, parameter_of, IsValueOf, HasNoValue};

use crate::endpoint;
use crate::values::{positive, size};
use std::net::IpAddr;
use text::{number, signed};

/// A parameter that is taken.
#[derive(Clone, Copy, Debug, PartialEq, Eq)]
pub enum Parameter {
    /// `endpoint`: where the datagrams go.
    Endpoint,
    /// `interface`: where an end's own socket is bound.
    Interface,
    /// `ttl`: the time to live of datagrams.
    Ttl,
    /// `mtu`: the most bytes of a datagram.
    Mtu,
    /// `term-length`: the bytes of a term.
    TermLength,
    /// `session-id`.
    SessionId,
    /// `init-term-id`: the id of the stream's first term.
    InitialTermId,
    /// `term-id`: the id of the term in which it starts.
    TermId,
    /// `term-offset`: where in that term.
    TermOffset,
}

/// What a part of a channel sets.
#[derive(Clone, Copy)]
pub enum Setting {
    Endpoint(endpoint::Endpoint),
    Interface(IpAddr),
    /// 1 to 255.
    Ttl(u8),
    /// In bytes.
    Mtu(u32),
    /// In bytes.
    TermLength(u32),
    SessionId(i32),
    InitialTermId(i32),
    TermId(i32),
    /// In bytes.
    TermOffset(u32),
}

impl Parameter {
    /// Its name in a channel.
    pub fn name(self) -> &'static str
        ensures { result.now ≡ name_of self }
    {
        match self {
            Parameter::Endpoint => "endpoint",
            Parameter::Interface => "interface",
            Parameter::Ttl => "ttl",
            Parameter::Mtu => "mtu",
            Parameter::TermLength => "term-length",
            Parameter::SessionId => "session-id",
            Parameter::InitialTermId => "init-term-id",
            Parameter::TermId => "term-id",
            Parameter::TermOffset => "term-offset",
        }
    }

    /// Which values it takes, for a user to read.
    pub fn range(self) -> &'static str
        ensures { result.now ≡ range_of self }
    {
        match self {
            Parameter::Endpoint => {
                "an IPv4 address, an IPv6 address in brackets or a name, a colon and a port from 1 to 65535; no multicast or broadcast address"
            }
            Parameter::Interface => {
                "an IPv4 address or an IPv6 address in brackets; no multicast or broadcast address"
            }
            Parameter::Ttl => "a whole number from 1 to 255",
            Parameter::Mtu => {
                "a multiple of 32 from 256 to an eighth of the term, at most 65504"
            }
            Parameter::TermLength => "a power of two from 65536 to 16777216, as 64k or 16m",
            Parameter::SessionId | Parameter::InitialTermId | Parameter::TermId => {
                "a whole number of 32 bits"
            }
            Parameter::TermOffset => "a multiple of 32 below the term's length",
        }
    }

    /// The parameter of this name, if it is taken.
    pub fn named(name: &str) -> Option<Parameter>
        ensures found { IfSome result (λ p. name.now ≡ name_of p) }
        ensures none { IfNone result ((p : Parameter) → name.now ≢ name_of p) }
    {
        match name {
            "endpoint" => Some(Parameter::Endpoint),
            "interface" => Some(Parameter::Interface),
            "ttl" => Some(Parameter::Ttl),
            "mtu" => Some(Parameter::Mtu),
            "term-length" => Some(Parameter::TermLength),
            "session-id" => Some(Parameter::SessionId),
            "init-term-id" => Some(Parameter::InitialTermId),
            "term-id" => Some(Parameter::TermId),
            "term-offset" => Some(Parameter::TermOffset),
            _ => None,
        }
    }

    /// What the parameter's value sets, of any parameter whose value is a number.
    pub(crate) fn number_setting(self, value: &[u8]) -> Option<Setting>
        requires no_endpoint { self ≢ Endpoint }
        requires no_interface { self ≢ Interface }
        ensures set { IfSome result (λ s. (parameter_of s ≡ self) × IsValueOf value.now s) }
        ensures none { IfNone result (HasNoValue self value.now) }
    {
        match self {
            Parameter::Endpoint | Parameter::Interface => None,
            Parameter::Ttl => Some(Setting::Ttl(positive(value, 255)? as u8)),
            Parameter::Mtu => Some(Setting::Mtu(size(value)?)),
            Parameter::TermLength => Some(Setting::TermLength(size(value)?)),
            Parameter::SessionId => Some(Setting::SessionId(signed(value)?)),
            Parameter::InitialTermId => Some(Setting::InitialTermId(signed(value)?)),
            Parameter::TermId => Some(Setting::TermId(signed(value)?)),
            Parameter::TermOffset => {
                Some(Setting::TermOffset(number(value, u32::MAX as u64)? as u32))
            }
        }
    }
}
