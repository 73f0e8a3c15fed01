//! Hosts: addresses and names.

ghost use Rattle.std.specs.Prelude.{◌≡◌, ◌≤◌, ◌↔◌, ℕ, ◌-◌, List, ◌++◌, length, take, min, replicate, IfSome, IfNone, IsTrue};
ghost use Rattle.std.specs.Char.{is_ascii_digit};
ghost use Rattle.std.specs.List.{list_all};
ghost use Rattle.std.specs.declared.net.IpAddr.{IpAddr as AnyAddress};
ghost use Rattle.std.specs.declared.net.Ipv6Addr.{Ipv6Addr as LongAddress};
ghost use Rattle.channel.specs.declared.host.Host.{Host as AnyHost};
ghost use Rattle.channel.specs.Hosts.{IsAddress, IsBracketed, IsHost, IsLastLabel, IsName, IsNamed, Spells, bracketed, is_here, is_here_at, is_localhost, is_name_byte, is_of_many};

use std::net::{IpAddr, Ipv4Addr, Ipv6Addr};
use std::str;

/// The most bytes of a name.
const NAME: usize = 253;

/// A host's name, which is to be looked up: at most 253 letters, digits, hyphens, underscores and dots, where what stands
/// behind the last dot, or all of it, isn't digits alone.
#[derive(Clone, Copy, Debug)]
pub struct Name {
    /// The name, and zeros behind it.
    bytes: [u8; NAME],
    length: u8,
}

/// These bytes, and zeros behind them.
fn padded(text: &[u8]) -> [u8; NAME]
    requires { length text.now ≤ 253 }
    ensures { result ≡ text.now ++ replicate (253 - length text.now) 0 }
{
    let mut bytes = [0; NAME];
    bytes[..text.len()].copy_from_slice(text);
    bytes
}

impl Name {
    /// A name of these bytes.
    fn of(text: &[u8]) -> Name
        requires { length text.now ≤ 253 }
        ensures { IsNamed text.now result }
    {
        Name {
            bytes: padded(text),
            length: text.len() as u8,
        }
    }

    fn is_localhost(&self) -> bool
        ensures { result ≡ is_localhost self.now }
    {
        self.length == 9 && self.bytes.starts_with(b"localhost")
    }

    /// Whether the other is spelled so, too.
    fn is(&self, other: &Name) -> bool
        ensures { IsTrue result ↔ (self.now ≡ other.now) }
    {
        self.length == other.length && self.bytes == other.bytes
    }

    /// As it was spelled.
    pub fn text(&self) -> &str
        ensures { (text : List ℕ) → IsNamed text self.now → IsName text → result.now ≡ text }
    {
        match str::from_utf8(self.used()) {
            Ok(text) => text,
            Err(_) => "",
        }
    }

    /// Its bytes.
    fn used(&self) -> &[u8]
        ensures { result.now ≡ take (min self.now.length 253) self.now.bytes }
    {
        &self.bytes[..usize::from(self.length).min(NAME)]
    }
}

/// A host.
#[derive(Clone, Copy, Debug)]
pub enum Host {
    Address(IpAddr),
    Name(Name),
}

/// Whether an address is this machine's alone: one of 127.0.0.0/8, or `::1`.
fn is_here_at(address: IpAddr) -> bool
    ensures { result ≡ is_here_at address }
{
    match address {
        IpAddr::V4(address) => address.octets()[0] == 127,
        IpAddr::V6(address) => address.segments() == [0, 0, 0, 0, 0, 0, 0, 1],
    }
}

impl Host {
    /// Whether the other is the same address, or the same name.
    pub(crate) fn is(&self, other: &Host) -> bool
        ensures { IsTrue result ↔ (self.now ≡ other.now) }
    {
        match (self, other) {
            (Host::Address(address), Host::Address(other)) => address == other,
            (Host::Name(name), Host::Name(other)) => name.is(other),
            _ => false,
        }
    }

    /// Whether it is this machine by what is spelled: an address of 127.0.0.0/8, `::1`, or the name `localhost`.
    pub fn is_here(&self) -> bool
        ensures { result ≡ is_here self.now }
    {
        match self {
            Host::Address(address) => is_here_at(*address),
            Host::Name(name) => name.is_localhost(),
        }
    }
}

/// Whether a byte may stand in a name.
fn is_name_byte(byte: u8) -> bool
    ensures { result ≡ is_name_byte byte }
{
    byte.is_ascii_alphanumeric() || byte == b'-' || byte == b'.' || byte == b'_'
}

/// What stands behind the last dot of a text, or all of it.
fn last_label(text: &str) -> &str
    ensures { IsLastLabel text.now result.now }
{
    match text.rsplit_once('.') {
        Some((_, label)) => label,
        None => text,
    }
}

/// Whether there are digits alone.
fn are_digits(bytes: &[u8]) -> bool
    ensures { result ≡ list_all is_ascii_digit bytes.now }
{
    bytes.iter().all(|byte| byte.is_ascii_digit())
}

/// Whether all bytes may stand in a name.
fn are_name_bytes(bytes: &[u8]) -> bool
    ensures { result ≡ list_all is_name_byte bytes.now }
{
    bytes.iter().all(|byte| is_name_byte(*byte))
}

/// Whether a text is a name.
fn is_name(text: &str) -> bool
    ensures { IsTrue result ↔ IsName text.now }
{
    if text.len() > 253 || are_digits(last_label(text).as_bytes()) {
        return false;
    }
    are_name_bytes(text.as_bytes())
}

/// What stands between brackets.
fn inside(text: &str) -> Option<&str>
    ensures found { IfSome result (λ inner. text.now ≡ bracketed inner.now) }
    ensures none { IfNone result ((inner : List ℕ) → text.now ≡ bracketed inner → ⊥) }
{
    let rest = text.strip_prefix('[')?;
    rest.strip_suffix(']')
}

/// The IPv6 address in brackets that a text is.
fn bracketed_in(text: &str) -> Option<Ipv6Addr>
    ensures found { IfSome result (IsBracketed text.now) }
    ensures none { IfNone result ((a : LongAddress) → IsBracketed text.now a → ⊥) }
{
    let inner = inside(text)?;
    match Ipv6Addr::parse_ascii(inner.as_bytes()) {
        Ok(address) => Some(address),
        Err(_) => None,
    }
}

/// Whether an address is of many: multicast, or broadcast.
pub(crate) fn is_of_many(address: IpAddr) -> bool
    ensures { result ≡ is_of_many address }
{
    match address {
        IpAddr::V4(address) => {
            address.octets()[0] / 16 == 14 || address.octets() == [255, 255, 255, 255]
        }
        IpAddr::V6(address) => address.segments()[0] / 256 == 255,
    }
}

/// The address that a text is: four decimal numbers below 256 with dots between them, or an IPv6 address in brackets.
fn spelled_in(text: &str) -> Option<IpAddr>
    ensures found { IfSome result (Spells text.now) }
    ensures none { IfNone result ((a : AnyAddress) → Spells text.now a → ⊥) }
{
    if let Some(address) = bracketed_in(text) {
        return Some(IpAddr::V6(address));
    }
    match Ipv4Addr::parse_ascii(text.as_bytes()) {
        Ok(address) => Some(IpAddr::V4(address)),
        Err(_) => None,
    }
}

/// The address of one host that a text is: it is neither multicast nor broadcast.
pub(crate) fn address_in(text: &str) -> Option<IpAddr>
    ensures found { IfSome result (IsAddress text.now) }
    ensures none { IfNone result ((a : AnyAddress) → IsAddress text.now a → ⊥) }
{
    let address = spelled_in(text)?;
    if is_of_many(address) {
        return None;
    }
    Some(address)
}

/// The host that a text is.
pub(crate) fn host_in(text: &str) -> Option<Host>
    ensures found { IfSome result (IsHost text.now) }
    ensures none { IfNone result ((h : AnyHost) → IsHost text.now h → ⊥) }
{
    if let Some(address) = address_in(text) {
        return Some(Host::Address(address));
    }
    if is_name(text) {
        return Some(Host::Name(Name::of(text.as_bytes())));
    }
    None
}
