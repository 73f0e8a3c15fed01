//! Which text is which channel, apart from any socket: Aeron's channel URI for UDP, as
//! `aeron:udp?endpoint=127.0.0.1:40123|mtu=1408|term-length=64k`. The text is the prefix `aeron:udp?` and then parts,
//! parted by `|`, each `name=value`; each parameter stands once at the most, and in any order. Nothing is decoded or
//! resolved.
//!
//! The host of an endpoint is an IPv4 address, an IPv6 address in brackets, or a name; one that ends in a number is a whole
//! IPv4 address, or refused (`IsHost`).
//!
//! `read_channel` gives the channel that a text is, and else the first fault from the left. What is read is spelled
//! so, what is spelled so is read, and as nothing else (`IsChannel`); a fault is one where it is named, behind parts
//! that fit (`IsFirstFault`), and then the text is no channel. Numbers are whole and in their ranges; a size has a
//! unit of 1,024, its square or its cube, or none. What is missing or doesn't go together is judged behind the last part, the
//! endpoint first. Which lengths go together isn't judged. The faults' texts are said, too (`ChannelFault` as `Display` writes
//! it).
#![tactic(auto)]

mod channel;
mod endpoint;
mod fault;
mod host;
mod parameter;
mod parts;
mod settings;
mod values;

pub use crate::channel::{Channel, Start, Transport, read_channel};
pub use endpoint::{Endpoint, endpoint_in};
pub use fault::ChannelFault;
pub use host::{Host, Name};
pub use parameter::Parameter;
