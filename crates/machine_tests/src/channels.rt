use channel::{Host, read_channel};
use std::net::{IpAddr, Ipv4Addr, Ipv6Addr};
use std::test::Fail;

#[test]
fn all_parameters(rt: HostRuntime) -> Result<(), Fail> {
    let text =
        "aeron:udp?mtu=1408|endpoint=localhost:40123|ttl=255|interface=10.0.0.7|term-length=64K|session-id=-7|term-id=9|init-term-id=7|term-offset=96";
    let channel = read_channel(text)?;
    assert_eq!(rt; channel.transport.endpoint.port, 40_123);
    match channel.transport.endpoint.host {
        Host::Address(_) => assert!(rt; false, "an address"),
        Host::Name(name) => assert_eq!(rt; name.text(), "localhost"),
    }
    assert!(rt; channel.transport.endpoint.host.is_here());
    assert_eq!(rt;
        channel.transport.interface,
        Some(IpAddr::V4(Ipv4Addr::new(10, 0, 0, 7)))
    );
    assert_eq!(rt; channel.transport.ttl, Some(255));
    assert_eq!(rt; channel.mtu, Some(1408));
    assert_eq!(rt; channel.term_length, Some(65_536));
    assert_eq!(rt; channel.session_id, Some(-7));
    let start = channel.start.ok_or("no start")?;
    assert_eq!(rt; start.initial_term_id, 7);
    assert_eq!(rt; start.term_id, 9);
    assert_eq!(rt; start.term_offset, 96);
    Ok(())
}

/// The address that is the host of an endpoint.
fn address_of(text: &str) -> Option<IpAddr> {
    match read_channel(text) {
        Ok(channel) => match channel.transport.endpoint.host {
            Host::Address(address) => Some(address),
            Host::Name(_) => None,
        },
        Err(_) => None,
    }
}

#[test]
fn addresses(rt: HostRuntime) -> Result<(), Fail> {
    let short = address_of("aeron:udp?endpoint=10.0.0.255:40123").ok_or("no address")?;
    assert_eq!(rt; short, IpAddr::V4(Ipv4Addr::new(10, 0, 0, 255)));
    let long = address_of("aeron:udp?interface=[::]|endpoint=[2001:db8::7]:40123").ok_or("none")?;
    assert_eq!(rt;
        long,
        IpAddr::V6(Ipv6Addr::new(0x2001, 0xdb8, 0, 0, 0, 0, 0, 7))
    );
    assert!(rt; address_of("aeron:udp?endpoint=feed:40123").is_none());
    Ok(())
}

#[test]
fn machines(rt: HostRuntime) -> Result<(), Fail> {
    for text in ["127.0.0.1", "127.255.0.9", "[::1]", "localhost"] {
        let text = format!(in rt.alloc(); "aeron:udp?endpoint={text}:40123")?;
        let channel = read_channel(text.as_str()).map_err(|_| "refused")?;
        assert!(rt; channel.transport.endpoint.host.is_here());
    }
    for text in [
        "126.0.0.1",
        "0.0.0.0",
        "[::]",
        "[::2]",
        "localhost.org",
        "localhos",
    ] {
        let text = format!(in rt.alloc(); "aeron:udp?endpoint={text}:40123")?;
        let channel = read_channel(text.as_str()).map_err(|_| "refused")?;
        assert!(rt; !channel.transport.endpoint.host.is_here());
    }
    Ok(())
}

/// What a user reads of each text, none of which is a channel.
const FAULTS: [(&str, &str); 15] = [
    ("aeron:ipc", "channel: it doesn't begin with aeron:udp?"),
    ("aeron:udp?mtu=1408", "channel: no endpoint=HOST:PORT"),
    (
        "aeron:udp?endpoint=127.0.0.1:0",
        "channel: endpoint=127.0.0.1:0: an IPv4 address, an IPv6 address in brackets or a name, a colon and a port from 1 to 65535; no multicast or broadcast address",
    ),
    (
        "aeron:udp?endpoint=10.0.0:4|ttl=0",
        "channel: endpoint=10.0.0:4: an IPv4 address, an IPv6 address in brackets or a name, a colon and a port from 1 to 65535; no multicast or broadcast address",
    ),
    (
        "aeron:udp?endpoint=localhost:4|ttl=256",
        "channel: ttl=256: a whole number from 1 to 255",
    ),
    (
        "aeron:udp?ttl=0|endpoint=10.0.0:4",
        "channel: ttl=0: a whole number from 1 to 255",
    ),
    (
        "aeron:udp?endpoint=localhost:4|interface=localhost",
        "channel: interface=localhost: an IPv4 address or an IPv6 address in brackets; no multicast or broadcast address",
    ),
    (
        "aeron:udp?endpoint=localhost:4|interface=::1",
        "channel: interface=::1: an IPv4 address or an IPv6 address in brackets; no multicast or broadcast address",
    ),
    (
        "aeron:udp?endpoint=[::1]:4|interface=10.0.0.1|ttl=3",
        "channel: endpoint and interface aren't both IPv4 or both IPv6",
    ),
    (
        "aeron:udp?ttl=3|endpoint=[::1]:4|term-offset=0",
        "channel: ttl is for IPv4 alone",
    ),
    (
        "aeron:udp?endpoint=localhost:4|alias=feed",
        "channel: alias isn't taken",
    ),
    (
        "aeron:udp?endpoint=localhost:4|mtu",
        "channel: no name=value: mtu",
    ),
    (
        "aeron:udp?endpoint=localhost:4|mtu=1k|mtu=1k",
        "channel: mtu stands twice",
    ),
    (
        "aeron:udp?endpoint=localhost:4|term-length=4g",
        "channel: term-length=4g: a power of two from 65536 to 16777216, as 64k or 16m",
    ),
    (
        "aeron:udp?endpoint=localhost:4|term-offset=0",
        "channel: init-term-id, term-id and term-offset stand together",
    ),
];

#[test]
fn faults(rt: HostRuntime) -> Result<(), Fail> {
    for (text, shown) in FAULTS {
        match read_channel(text) {
            Ok(_) => assert!(rt; false, "{text} is taken"),
            Err(fault) => {
                let seen = format!(in rt.alloc(); "{fault}")?;
                assert_eq!(rt; seen.as_str(), shown);
            }
        }
    }
    Ok(())
}
