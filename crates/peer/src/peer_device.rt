//! A device that sends to one peer, by a further handle of a subscriber's socket.

ghost use Rattle.std.specs.Prelude.{◌≡◌, None, Ok};
ghost use Rattle.endpoint.specs.Calls.{Receives, Sends};
ghost use Rattle.endpoint.specs.Devices.{HasGrown, NeverFall};
ghost use Rattle.peer.specs.Peers.{after_send, sending_to, to_peer, with_fault, with_given, with_nothing};

use crate::listener::sent_by;
use endpoint::{Datagrams, DeviceFailed};
use std::marker::Model;
use std::net::{SocketAddr, UdpSocket};

/// A device that sends to its peer, from the port of the socket of which it has a further handle. It hears nothing. No call
/// waits. A send that finds the system not ready hasn't failed: what was to be sent is lost. It keeps for whom the last datagram
/// was that it was given.
#[derive(Drop)]
pub struct PeerDevice {
    socket: UdpSocket,
    peer: SocketAddr,
    given: Option<SocketAddr>,
    failures: u64,
    nones: u64,
}

impl Model for PeerDevice {
    ghost use Rattle.std.specs.Prelude.{[]};
    ghost use Rattle.peer.specs.Peers.{ToPeer};

    ghost Value = { ToPeer };

    ghost view = { λ d. record { device = record { sent = []; received = []; failures = d.failures; nones = d.nones }; peer = d.peer; given = d.given } };
}

impl PeerDevice {
    /// A device by this handle, through which nothing has gone yet.
    pub(crate) fn new(socket: UdpSocket, peer: SocketAddr) -> PeerDevice
        ensures { result ≡ sending_to peer }
    {
        PeerDevice {
            socket,
            peer,
            given: None,
            failures: 0,
            nones: 0,
        }
    }

    /// Its peer.
    pub fn peer(&self) -> SocketAddr
        ensures { result ≡ self.now.peer }
    {
        self.peer
    }

    /// Makes this its peer from now on.
    pub fn turn_to(&mut self, peer: SocketAddr)
        ensures { self.new ≡ to_peer self.old peer }
    {
        self.peer = peer;
    }

    /// Counts a failure.
    fn fail(&mut self) -> DeviceFailed
        ensures counted { self.new ≡ with_fault self.old }
        ensures grown { HasGrown self.old.device.failures self.new.device.failures }
        ensures not_fallen { NeverFall self.old.device self.new.device }
    {
        self.failures = self.failures.saturating_add(1);
        DeviceFailed
    }

    /// Hands a datagram for its peer to the system.
    fn give(&mut self, datagram: &[u8]) -> Result<(), DeviceFailed>
        ensures { self.new ≡ with_given self.old }
    {
        self.given = Some(self.peer);
        sent_by(self.socket.send_to(datagram, self.peer))
    }
}

impl Datagrams for PeerDevice {
    ghost device = { λ d. d.device };

    ghost tells = { λ _. ⊥ };

    ghost lives_still = { λ _. tt };

    ghost lives_on = { λ _ _ _ _ _. tt };

    /// Hands a datagram to the system, for its peer.
    fn send(&mut self, datagram: &[u8]) -> Result<(), DeviceFailed>
        ensures counts { NeverFall self.old.device self.new.device }
        ensures sends { Sends ⊥ self.old.device datagram.now result self.new.device }
        ensures given { self.new ≡ after_send self.old result }
    {
        match self.give(datagram) {
            Ok(()) => Ok(()),
            Err(_) => Err(self.fail()),
        }
    }

    /// Finds nothing.
    fn recv(&mut self, buffer: &mut [u8]) -> Result<Option<usize>, DeviceFailed>
        ensures counts { NeverFall self.old.device self.new.device }
        ensures receives { Receives ⊥ self.old.device buffer.old result buffer.new self.new.device }
        ensures nothing { result ≡ Ok None }
        ensures counted { self.new ≡ with_nothing self.old }
    {
        let _ = buffer;
        self.nones = self.nones.saturating_add(1);
        Ok(None)
    }

    fn failures(&self) -> u64 {
        self.failures
    }

    fn nones(&self) -> u64 {
        self.nones
    }
}
