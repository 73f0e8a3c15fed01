//! A device over UDP.

ghost use Rattle.std.specs.Prelude.{◌≡◌, ◌⊎◌, ◌↔◌, Some, IsTrue, IfOk, OnErr, OnOk};
ghost use Rattle.std.specs.IoError.{error_kind};
ghost use Rattle.endpoint.specs.Devices.{HasGrown, NeverFall, fresh, with_failure, with_none};

use crate::datagrams::{Datagrams, DeviceFailed, GREATEST_DATAGRAM};
use crate::device_error::DeviceError;
use std::alloc::Global;
use std::io::ErrorKind;
use std::marker::Model;
use std::net::{Ipv4Addr, Net, SocketAddr, SocketAddrV4, UdpSocket};
use std::{fmt, io};
use thiserror::Error;

/// Where a socket is bound, and the time to live of what it sends.
#[derive(Clone, Copy, Debug, PartialEq, Eq)]
pub struct Binding {
    pub address: SocketAddr,
    /// 1 to 255, for IPv4 alone; the system's own where it is none.
    pub ttl: Option<u8>,
}

/// Where a socket is bound, and its one peer.
#[derive(Clone, Copy, Debug, PartialEq, Eq)]
pub struct Route {
    pub binding: Binding,
    pub peer: SocketAddr,
}

impl Binding {
    /// A socket there, on which no call waits. The error is the system's, where it refuses the address or the time to live.
    pub fn open<R: Net>(&self, rt: &R) -> io::Result<UdpSocket> {
        let socket = UdpSocket::bind(rt, self.address)?;
        socket.set_nonblocking(true)?;
        if let Some(ttl) = self.ttl {
            socket.set_ttl(u32::from(ttl))?;
        }
        Ok(socket)
    }
}

/// A device over UDP. A call that finds the system not ready, or its peer's port closed, hasn't failed: what was to be sent
/// is lost, and nothing has come.
#[derive(Drop)]
pub struct UdpDevice {
    socket: UdpSocket,
    port: u16,
    // What came is taken here first, so that a caller's buffer changes only where a datagram stands.
    arrived: Vec<u8>,
    failures: u64,
    nones: u64,
}

impl Model for UdpDevice {
    ghost use Rattle.std.specs.Prelude.{[]};
    ghost use Rattle.endpoint.specs.Udp.{Udp};

    ghost Value = { Udp };

    ghost view = { λ u. record { device = record { sent = []; received = []; failures = u.failures; nones = u.nones }; port = u.port } };
}

/// This port of 127.0.0.1.
fn here(port: u16) -> SocketAddr {
    SocketAddr::V4(SocketAddrV4::new(Ipv4Addr::LOCALHOST, port))
}

/// A socket at a port of 127.0.0.1 that the system chooses, and that port.
fn open<R: Net>(rt: &R) -> io::Result<(UdpSocket, u16)> {
    let binding = Binding {
        address: here(0),
        ttl: None,
    };
    let socket = binding.open(rt)?;
    let port = socket.local_addr()?.port();
    Ok((socket, port))
}

/// Whether a call that failed so has lost a datagram: the system isn't ready, or the peer's port is closed.
pub fn is_loss(error: &io::Error) -> bool
    ensures { IsTrue result ↔ ((error_kind error.now ≡ ErrorKind.WouldBlock) ⊎ (error_kind error.now ≡ ErrorKind.ConnectionRefused)) }
{
    let kind = error.kind();
    kind == ErrorKind::WouldBlock || kind == ErrorKind::ConnectionRefused
}

impl UdpDevice {
    /// A device at a port of 127.0.0.1 that the system chooses, with no peer yet. `Device`: the system refuses the socket;
    /// `Memory`: there is none for its datagrams. So it is with the calls below; of a refused one nothing is left.
    pub fn bind<R: Net>(rt: &R, alloc: Global) -> Result<UdpDevice, DeviceError>
        ensures { IfOk result (λ u. u.device ≡ fresh) }
    {
        let arrived = vec![in alloc; 0; GREATEST_DATAGRAM]?;
        let Ok((socket, port)) = open(rt) else {
            return Err(DeviceError::Device);
        };
        Ok(UdpDevice {
            socket,
            port,
            arrived,
            failures: 0,
            nones: 0,
        })
    }

    /// A device at a port of 127.0.0.1 that the system chooses, whose one peer is the device at this port of it.
    pub fn bind_to<R: Net>(rt: &R, alloc: Global, peer: u16) -> Result<UdpDevice, DeviceError>
        ensures { IfOk result (λ u. u.device ≡ fresh) }
    {
        let mut device = UdpDevice::bind(rt, alloc)?;
        device.connect(peer)?;
        Ok(device)
    }

    /// Two devices at ports of 127.0.0.1 that the system chooses, each the other's peer.
    pub fn pair<R: Net>(rt: &R, alloc: Global) -> Result<(UdpDevice, UdpDevice), DeviceError>
        ensures { IfOk result (λ pair. (pair.0.device ≡ fresh) × (pair.1.device ≡ fresh)) }
    {
        let mut one = UdpDevice::bind(rt, alloc)?;
        let other = UdpDevice::bind_to(rt, alloc, one.port())?;
        one.connect(other.port())?;
        Ok((one, other))
    }

    /// Its own port.
    pub fn port(&self) -> u16
        ensures { result ≡ self.now.port }
    {
        self.port
    }

    /// Makes the device at this port of 127.0.0.1 its one peer. The error comes where the system refuses it, and is counted.
    pub fn connect(&mut self, port: u16) -> Result<(), DeviceFailed>
        ensures connected { OnOk result (self.new ≡ self.old) }
        ensures failed { OnErr result (self.new ≡ record self.old { device = with_failure self.old.device }) }
    {
        self.connect_to(here(port))
    }

    /// Makes this its one peer. The error comes where the system refuses it, and is counted.
    pub fn connect_to(&mut self, peer: SocketAddr) -> Result<(), DeviceFailed>
        ensures connected { OnOk result (self.new ≡ self.old) }
        ensures failed { OnErr result (self.new ≡ record self.old { device = with_failure self.old.device }) }
    {
        if self.socket.connect(peer).is_err() {
            return Err(self.fail());
        }
        Ok(())
    }

    /// Counts a failure.
    fn fail(&mut self) -> DeviceFailed
        ensures counted { self.new ≡ record self.old { device = with_failure self.old.device } }
        ensures grown { HasGrown self.old.device.failures self.new.device.failures }
        ensures not_fallen { NeverFall self.old.device self.new.device }
    {
        self.failures = self.failures.saturating_add(1);
        DeviceFailed
    }

    /// Counts a receive that found nothing.
    fn find_none(&mut self)
        ensures counted { self.new ≡ record self.old { device = with_none self.old.device } }
        ensures grown { HasGrown self.old.device.nones self.new.device.nones }
        ensures not_fallen { NeverFall self.old.device self.new.device }
    {
        self.nones = self.nones.saturating_add(1);
    }
}

impl Datagrams for UdpDevice {
    ghost device = { λ u. u.device };

    ghost tells = { λ _. ⊥ };

    ghost lives_still = { λ _. tt };

    ghost lives_on = { λ _ _ _ _ _. tt };

    /// Hands a datagram to the system.
    fn send(&mut self, datagram: &[u8]) -> Result<(), DeviceFailed> {
        match self.socket.send(datagram) {
            Err(error) if !is_loss(&error) => Err(self.fail()),
            _ => Ok(()),
        }
    }

    fn recv(&mut self, buffer: &mut [u8]) -> Result<Option<usize>, DeviceFailed> {
        match self.socket.recv(self.arrived.as_mut_slice()) {
            Ok(arrived) => {
                let length = arrived.min(buffer.len());
                buffer[..length].copy_from_slice(&self.arrived[..length]);
                Ok(Some(length))
            }
            Err(error) if is_loss(&error) => {
                self.find_none();
                Ok(None)
            }
            Err(_) => Err(self.fail()),
        }
    }

    fn failures(&self) -> u64 {
        self.failures
    }

    fn nones(&self) -> u64 {
        self.nones
    }
}
