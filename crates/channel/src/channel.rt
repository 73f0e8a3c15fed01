//! A channel, read from its text.

ghost use Rattle.std.specs.Prelude.{◌≡◌, false, IfOk, IfErr, IfSome, IfNone, IsOkAnd};
ghost use Rattle.channel.specs.Settings.{Sets, nothing};
ghost use Rattle.channel.specs.declared.channel.Channel.{Channel};
ghost use Rattle.channel.specs.Channels.{IsChannel, IsEndFault, IsFaultAmong, IsFirstFault, IsFit, IsMadeOf, IsToAddress, IsToEndpoint, has_lost_ttl, is_mixed, names_ipv4, names_ipv6, parts, start_of, to_address, to_endpoint};
ghost use Rattle.channel.specs.Hosts.{is_of_many};

use crate::endpoint::{Endpoint, part_setting};
use crate::fault::ChannelFault;
use crate::host::{Host, is_of_many};
use crate::parts::Parts;
use crate::settings::Settings;
use std::net::IpAddr;

/// Where in the stream a publisher starts.
#[derive(Clone, Copy, Debug, PartialEq, Eq)]
pub struct Start {
    pub initial_term_id: i32,
    pub term_id: i32,
    /// In bytes.
    pub term_offset: u32,
}

/// Where the datagrams go, and how. Its addresses are all of IPv4 or all of IPv6, and with a time to live none is of IPv6.
#[derive(Clone, Copy, Debug)]
pub struct Transport {
    pub endpoint: Endpoint,
    /// Where an end's own socket is bound.
    pub interface: Option<IpAddr>,
    /// The time to live of datagrams, 1 to 255.
    pub ttl: Option<u8>,
}

impl Transport {
    /// The same to this address, if that is of one host, neither multicast nor broadcast, and its family goes with what else is
    /// named.
    pub fn to_address(&self, address: IpAddr) -> Option<Transport>
        ensures found { IfSome result (IsToAddress self.now address) }
        ensures none { IfNone result (IsFit (to_address self.now address) → is_of_many address ≡ false → ⊥) }
    {
        if is_of_many(address) {
            return None;
        }
        let transport = Transport {
            endpoint: Endpoint {
                host: Host::Address(address),
                port: self.endpoint.port,
            },
            interface: self.interface,
            ttl: self.ttl,
        };
        if transport.is_mixed() || transport.has_lost_ttl() {
            return None;
        }
        Some(transport)
    }

    /// The same to this endpoint, if its family goes with what else is named.
    pub fn to_endpoint(&self, endpoint: &Endpoint) -> Option<Transport>
        ensures found { IfSome result (IsToEndpoint self.now endpoint.now) }
        ensures none { IfNone result (¬ IsFit (to_endpoint self.now endpoint.now)) }
    {
        let transport = Transport {
            endpoint: *endpoint,
            interface: self.interface,
            ttl: self.ttl,
        };
        if transport.is_mixed() || transport.has_lost_ttl() {
            return None;
        }
        Some(transport)
    }

    /// Whether it names an address of each family.
    fn is_mixed(&self) -> bool
        ensures { result ≡ is_mixed self.now }
    {
        self.names_ipv4() && self.names_ipv6()
    }

    /// Whether a time to live stands with an address of IPv6.
    fn has_lost_ttl(&self) -> bool
        ensures { result ≡ has_lost_ttl self.now }
    {
        self.ttl.is_some() && self.names_ipv6()
    }

    /// Whether it names an address of IPv4.
    fn names_ipv4(&self) -> bool
        ensures { result ≡ names_ipv4 self.now }
    {
        let endpoint = match self.endpoint.host {
            Host::Address(address) => address.is_ipv4(),
            Host::Name(_) => false,
        };
        let interface = match self.interface {
            Some(address) => address.is_ipv4(),
            None => false,
        };
        endpoint || interface
    }

    /// Whether it names an address of IPv6.
    fn names_ipv6(&self) -> bool
        ensures { result ≡ names_ipv6 self.now }
    {
        let endpoint = match self.endpoint.host {
            Host::Address(address) => address.is_ipv6(),
            Host::Name(_) => false,
        };
        let interface = match self.interface {
            Some(address) => address.is_ipv6(),
            None => false,
        };
        endpoint || interface
    }
}

/// A channel. What isn't set is the caller's to choose. Which lengths go together isn't judged here.
#[derive(Clone, Copy, Debug)]
pub struct Channel {
    pub transport: Transport,
    /// In bytes.
    pub mtu: Option<u32>,
    /// In bytes.
    pub term_length: Option<u32>,
    pub session_id: Option<i32>,
    pub start: Option<Start>,
}

/// What the parts have set, if each of them fits behind those before it.
fn settings(rest: &str) -> Result<Settings, ChannelFault<'_>>
    ensures set { IfOk result (λ s. Sets nothing (parts rest.now) s) }
    ensures fault { IfErr result (λ f. IsFaultAmong (parts rest.now) f) }
{
    let mut settings = Settings::none();
    for part in Parts::new(rest) {
        let setting = part_setting(part, &settings)?;
        settings = settings.with(setting);
    }
    Ok(settings)
}

/// The start, if the three stand together; none if none does.
fn start_in(settings: &Settings) -> Option<Option<Start>>
    ensures { result ≡ start_of settings.now.initial_term_id settings.now.term_id settings.now.term_offset }
{
    match (
        settings.initial_term_id,
        settings.term_id,
        settings.term_offset,
    ) {
        (Some(initial_term_id), Some(term_id), Some(term_offset)) => Some(Some(Start {
            initial_term_id,
            term_id,
            term_offset,
        })),
        (None, None, None) => Some(None),
        _ => None,
    }
}

/// The channel of what all parts have set.
fn made(settings: &Settings) -> Result<Channel, ChannelFault<'static>>
    ensures made { IfOk result (λ c. IsMadeOf settings.now c) }
    ensures fault { IfErr result (λ f. IsEndFault settings.now f) }
{
    let Some(endpoint) = settings.endpoint else {
        return Err(ChannelFault::NoEndpoint);
    };
    let transport = Transport {
        endpoint,
        interface: settings.interface,
        ttl: settings.ttl,
    };
    if transport.is_mixed() {
        return Err(ChannelFault::Families);
    }
    if transport.has_lost_ttl() {
        return Err(ChannelFault::Ttl);
    }
    let Some(start) = start_in(settings) else {
        return Err(ChannelFault::Apart);
    };
    Ok(Channel {
        transport,
        mtu: settings.mtu,
        term_length: settings.term_length,
        session_id: settings.session_id,
        start,
    })
}

/// What the text is, as it is read from the left.
fn read(text: &str) -> Result<Channel, ChannelFault<'_>>
    ensures read { IfOk result (λ c. IsChannel text.now c) }
    ensures fault { IfErr result (λ f. IsFirstFault text.now f) }
{
    let Some(rest) = text.strip_prefix("aeron:udp?") else {
        return Err(ChannelFault::Prefix);
    };
    let settings = settings(rest)?;
    made(&settings)
}

/// The channel that a text is, or its first fault from the left. Behind the last part it is judged whether an endpoint
/// stands, then the families of its addresses, the time to live, and the start.
pub fn read_channel(text: &str) -> Result<Channel, ChannelFault<'_>>
    // What is read is what the text is.
    ensures read { IfOk result (λ c. IsChannel text.now c) }
    // What the text is is read, and it is nothing else.
    ensures only { (meant : Channel) → IsChannel text.now meant → IsOkAnd result (λ c. c ≡ meant) }
    ensures fault { IfErr result (λ f. IsFirstFault text.now f) }
{
    read(text)
}
