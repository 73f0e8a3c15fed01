//! Where an end's socket is bound, and to whom it sends.

ghost use Rattle.std.specs.Prelude.{◌≡◌, Some, IfErr, IfOk, IfSome, OnOk, length, true, false};
ghost use Rattle.std.specs.Io.KnownBytes.{Appends};
ghost use Rattle.channel.specs.declared.host.Host.TheVariants.{Name as Named};
ghost use Rattle.channel.specs.declared.host.Name.{Name as AnyName};
ghost use Rattle.commands.specs.Routes.{ArePeersApart, AreRoutesAlong, IsAnyAddress, IsBindingOf, IsFound, IsPeer, IsRouteAlong, IsRouteOf, IsUnknown, LeadElsewhere, LeadsAway, LeadsThere, TellsFound, route_text};

use channel::{Host, Name, Transport};
use endpoint::{Binding, Route};
use std::alloc::Global;
use std::error::Error;
use std::io::Write;
use std::net::{IpAddr, Ipv4Addr, Ipv6Addr, Net, SocketAddr, ToSocketAddrs};
use std::{fmt, io};

/// Why there are no routes.
#[derive(Clone, Copy, Debug)]
pub enum RouteFault<'a> {
    /// No address of a host of this name is known to the system that goes with what else the channel names.
    Unknown(&'a str),
    /// Two endpoints lead to this address: one of them by a name.
    Twice(SocketAddr),
    /// Memory was refused.
    Memory,
}

impl fmt::Display for RouteFault<'_> {
    ghost output = { λ fault. Some (route_text fault) };

    fn fmt<W: fmt::Write>(&self, f: &mut fmt::Formatter<W>) -> fmt::Result {
        match *self {
            RouteFault::Unknown(name) => write!(f, "no address of {name} was found"),
            RouteFault::Twice(peer) => write!(f, "to: {peer} stands twice"),
            RouteFault::Memory => write!(f, "memory"),
        }
    }
}

impl Error for RouteFault<'_> {}

/// The first address that the system gives for a name and that goes with what else the channel names.
fn looked_up<R: Net>(rt: &R, transport: &Transport, name: &Name) -> Option<SocketAddr>
    ensures { IfSome result (IsFound transport.now) }
{
    let port = transport.endpoint.port;
    let Ok(addresses) = (name.text(), port).to_socket_addrs(rt) else {
        return None;
    };
    for address in addresses {
        if transport.to_address(address.ip()).is_some() {
            let mut found = address;
            found.set_port(port);
            return Some(found);
        }
    }
    None
}

/// The address of the channel's endpoint. A name is looked up, once.
pub(crate) fn peer_of<'a, R: Net>(
    rt: &R,
    transport: &'a Transport,
) -> Result<SocketAddr, RouteFault<'a>>
    ensures found { IfOk result (IsPeer transport.now transport.now.endpoint.host) }
    ensures unknown { IfErr result (λ fault. IsUnknown fault × ((n : AnyName) × (transport.now.endpoint.host ≡ Named n))) }
{
    match &transport.endpoint.host {
        Host::Address(address) => Ok(SocketAddr::new(*address, transport.endpoint.port)),
        Host::Name(name) => match looked_up(rt, transport, name) {
            Some(peer) => Ok(peer),
            None => Err(RouteFault::Unknown(name.text())),
        },
    }
}

/// Tells to which address the name of a host has led, a line. Of an address nothing is told.
pub(crate) fn tell_found<E: Write>(errors: &mut E, host: &Host, peer: SocketAddr) -> io::Result<()>
    ensures { TellsFound host.now peer (λ line. OnOk result (Appends (E.contents errors.old) (E.contents errors.new) line)) (E.contents errors.new ≡ E.contents errors.old) }
{
    match host {
        Host::Address(_) => Ok(()),
        Host::Name(name) => {
            let name = name.text();
            writeln!(errors, "{name} is {peer}")
        }
    }
}

/// Tells to which addresses the names of several have led.
pub(crate) fn tell_each_found<E: Write>(errors: &mut E, ways: &[Transport], routes: &[Route]) {
    for number in 0..ways.len().min(routes.len()) {
        let _ = tell_found(errors, &ways[number].endpoint.host, routes[number].peer);
    }
}

/// The address that stands for all of this machine's, of the family of another.
fn any_address(peer: IpAddr) -> IpAddr
    ensures { IsAnyAddress peer result }
{
    match peer {
        IpAddr::V4(_) => IpAddr::V4(Ipv4Addr::UNSPECIFIED),
        IpAddr::V6(_) => IpAddr::V6(Ipv6Addr::UNSPECIFIED),
    }
}

/// The route of a publisher: from the interface, or any address, at a port that the system chooses.
pub(crate) fn route_of(transport: &Transport, peer: SocketAddr) -> Route
    ensures { IsRouteOf transport.now peer result }
{
    let address = match transport.interface {
        Some(address) => address,
        None => any_address(peer.ip()),
    };
    Route {
        binding: Binding {
            address: SocketAddr::new(address, 0),
            ttl: transport.ttl,
        },
        peer,
    }
}

/// The route of a publisher along one of its ways.
fn route_along<'a, R: Net>(rt: &R, way: &'a Transport) -> Result<Route, RouteFault<'a>>
    ensures route { IfOk result (IsRouteAlong way.now) }
    ensures unknown { IfErr result IsUnknown }
{
    match peer_of(rt, way) {
        Ok(peer) => Ok(route_of(way, peer)),
        Err(fault) => Err(fault),
    }
}

/// Whether a route leads to this peer.
fn leads_to(route: &Route, peer: SocketAddr) -> bool
    ensures there { result ≡ true → route.now.peer ≡ peer }
    ensures away { result ≡ false → LeadsAway peer route.now }
{
    route.peer == peer
}

/// Whether one of the routes leads to this peer.
fn is_led(routes: &[Route], peer: SocketAddr) -> bool
    ensures led { result ≡ true → LeadsThere routes.now peer }
    ensures elsewhere { result ≡ false → LeadElsewhere routes.now peer }
{
    for route in routes {
        if leads_to(route, peer) {
            return true;
        }
    }
    false
}

/// The routes of a publisher along its ways, in order, to a peer each.
pub(crate) fn routes_of<'a, R: Net>(
    rt: &R,
    alloc: Global,
    ways: &'a [Transport],
) -> Result<Vec<Route>, RouteFault<'a>>
    ensures routes { IfOk result (λ routes. AreRoutesAlong ways.now routes.items) }
    ensures many { IfOk result (λ routes. length routes.items ≡ length ways.now) }
    ensures apart { IfOk result (λ routes. ArePeersApart routes.items) }
{
    let mut routes = Vec::new(alloc);
    for way in ways {
        let route = route_along(rt, way)?;
        if is_led(&routes, route.peer) {
            return Err(RouteFault::Twice(route.peer));
        }
        if routes.push(route).is_err() {
            return Err(RouteFault::Memory);
        }
    }
    Ok(routes)
}

/// Where a subscriber is bound: at the interface, or the endpoint's own address, and the endpoint's port.
pub(crate) fn binding_of(transport: &Transport, endpoint: SocketAddr) -> Binding
    ensures { IsBindingOf transport.now endpoint result }
{
    let address = match transport.interface {
        Some(address) => SocketAddr::new(address, endpoint.port()),
        None => endpoint,
    };
    Binding {
        address,
        ttl: transport.ttl,
    }
}
