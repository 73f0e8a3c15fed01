//! A subscriber's socket.

ghost use Rattle.std.specs.Prelude.{◌≡◌, ◌≢◌, ◌⊎◌, None, Ok, IfErr, IfOk, IfSome, IsErr, IsOk, OnErr, OnOk, option_map};
ghost use Rattle.std.specs.IoError.{error_kind, raw_os_error};
ghost use Rattle.theory.specs.Wire.{SM, spelling};
ghost use Rattle.frames.specs.Frames.{status_of};
ghost use Rattle.peer.specs.Peers.{sending_to};
ghost use Rattle.peer.specs.StatusSockets.{unused};
ghost use Rattle.peer.specs.Ties.{asking, giving, hearing_anybody, with_came};

use crate::fault::BindError;
use crate::peer_device::PeerDevice;
use crate::status_socket::StatusSocket;
use endpoint::{Binding, DeviceFailed, GREATEST_DATAGRAM, OpenError, Route, is_loss};
use frames::{Frame, STATUS_LENGTH, Status, write_frame};
use std::alloc::Global;
use std::io;
use std::io::ErrorKind;
use std::marker::Model;
use std::net::{Net, SocketAddr, UdpSocket};

/// Who sent a datagram, and how many bytes it has.
#[derive(Clone, Copy)]
struct Arrival {
    from: SocketAddr,
    length: usize,
}

/// A message that asks for a SETUP, and who is asked.
#[derive(Clone, Copy)]
struct Asked {
    to: SocketAddr,
    status: Status,
}

/// A socket that hears anybody, and asks for SETUPs. A subscriber's is bound once and never connected, so that the port is this
/// process's until it ends. No call waits. It keeps the datagram that came last, the last message that it was given to ask with, and for whom the last datagram was
/// that it was given.
#[derive(Drop)]
pub struct Listener {
    socket: UdpSocket,
    arrived: Vec<u8>,
    last: Option<Arrival>,
    asks: u64,
    asked: Option<Asked>,
    given: Option<SocketAddr>,
    connected: Option<SocketAddr>,
}

impl Model for Listener {
    ghost use Rattle.std.specs.Prelude.{◌≤◌, take, vec_len, option_map};
    ghost use Rattle.std.specs.Option.{ForSome};
    ghost use Rattle.theory.specs.Wire.{SM};
    ghost use Rattle.frames.specs.Frames.{status_of};
    ghost use Rattle.peer.specs.Ties.{Listening};

    ghost Value = { Listening };

    ghost view = { λ l. record { came = option_map (λ a. record { from = a.from; bytes = take a.length l.arrived.items }) l.last; asks = l.asks; asked = option_map (λ a. record { to = a.to; frame = SM 128 (status_of a.status) }) l.asked; given = l.given } };

    ghost invariant = { λ l. ForSome l.last (λ a. a.length ≤ vec_len l.arrived) };
}

/// Why it can't be had.
fn fault_of(error: &io::Error) -> BindError
    ensures taken { error_kind error.now ≡ ErrorKind.AddrInUse → result ≡ BindError.Taken }
    ensures not_here { error_kind error.now ≡ ErrorKind.AddrNotAvailable → result ≡ BindError.NotHere }
    ensures others { error_kind error.now ≢ ErrorKind.AddrInUse → error_kind error.now ≢ ErrorKind.AddrNotAvailable → result ≡ BindError.Refused (raw_os_error error.now) }
{
    match error.kind() {
        ErrorKind::AddrInUse => BindError::Taken,
        ErrorKind::AddrNotAvailable => BindError::NotHere,
        _ => BindError::Refused(error.raw_os_error()),
    }
}

/// Whether the system gives a socket along a route; the error is the system's. It is closed again.
fn lead<R: Net>(rt: &R, route: &Route) -> io::Result<()> {
    let socket = route.binding.open(rt)?;
    socket.connect(route.peer)
}

/// The datagram that asks for a SETUP with a status message.
fn asking_bytes(status: Status) -> [u8; STATUS_LENGTH]
    ensures { result ≡ spelling (SM 128 (status_of status)) }
{
    let mut bytes = [0; STATUS_LENGTH];
    write_frame(&Frame::Status { asks: true, status }, &mut bytes);
    bytes
}

/// What a receive has brought. One that isn't ready brings nothing; the error comes where the system refuses the call.
fn arrival_in(answer: io::Result<(usize, SocketAddr)>) -> Result<Option<Arrival>, DeviceFailed>
    ensures came { IfOk result (λ found. IfSome found (λ a. answer ≡ Ok (a.length, a.from))) }
    ensures taken { OnOk answer (IsOk result) }
    ensures not_ready { IfErr answer (λ error. (error_kind error ≡ ErrorKind.WouldBlock) ⊎ (error_kind error ≡ ErrorKind.ConnectionRefused) → result ≡ Ok None) }
    ensures refused { IfErr answer (λ error. error_kind error ≢ ErrorKind.WouldBlock → error_kind error ≢ ErrorKind.ConnectionRefused → IsErr result) }
{
    match answer {
        Ok((length, from)) => Ok(Some(Arrival { from, length })),
        Err(error) if is_loss(&error) => Ok(None),
        Err(_) => Err(DeviceFailed),
    }
}

/// What a send's answer says. One that isn't ready loses the datagram; the error comes where the system refuses the call.
pub(crate) fn sent_by(answer: io::Result<usize>) -> Result<(), DeviceFailed>
    ensures sent { OnOk answer (IsOk result) }
    ensures not_ready { IfErr answer (λ error. (error_kind error ≡ ErrorKind.WouldBlock) ⊎ (error_kind error ≡ ErrorKind.ConnectionRefused) → IsOk result) }
    ensures refused { IfErr answer (λ error. error_kind error ≢ ErrorKind.WouldBlock → error_kind error ≢ ErrorKind.ConnectionRefused → IsErr result) }
{
    match answer {
        Err(error) if !is_loss(&error) => Err(DeviceFailed),
        _ => Ok(()),
    }
}

impl Listener {
    /// A socket that is bound so, to which nothing has come yet, and with which nobody was asked.
    pub fn bind<R: Net>(rt: &R, alloc: Global, binding: &Binding) -> Result<Listener, BindError>
        ensures { IfOk result (λ l. l ≡ hearing_anybody) }
    {
        let arrived = vec![in alloc; 0; GREATEST_DATAGRAM].map_err(|_| BindError::Memory)?;
        let socket = binding.open(rt).map_err(|error| fault_of(&error))?;
        Ok(Listener {
            socket,
            arrived,
            last: None,
            asks: 0,
            asked: None,
            given: None,
            connected: None,
        })
    }

    /// A socket that is bound as the route says, to which nothing has come yet. The error says, too, where the system gives none
    /// that leads to the route's peer.
    pub(crate) fn along<R: Net>(rt: &R, alloc: Global, route: &Route) -> Result<Listener, OpenError>
        ensures { IfOk result (λ l. l ≡ hearing_anybody) }
    {
        if let Err(error) = lead(rt, route) {
            return Err(OpenError::Refused(error.raw_os_error()));
        }
        match Listener::bind(rt, alloc, &route.binding) {
            Ok(listener) => Ok(listener),
            Err(BindError::Refused(number)) => Err(OpenError::Refused(number)),
            Err(BindError::Taken | BindError::NotHere) => Err(OpenError::Refused(None)),
            Err(BindError::Memory) => Err(OpenError::Memory),
        }
    }

    /// A second handle of the socket, to which no status message was given yet. The error is the system's, where it refuses it.
    pub fn status_socket(&self) -> io::Result<StatusSocket>
        ensures { IfOk result (λ s. s ≡ unused) }
    {
        let socket = self.socket.try_clone()?;
        Ok(StatusSocket::new(socket))
    }

    /// A device that sends to this peer by a further handle of the socket. The error is the system's, where it refuses it.
    pub fn peer_device(&self, peer: SocketAddr) -> io::Result<PeerDevice>
        ensures { IfOk result (λ d. d ≡ sending_to peer) }
    {
        let socket = self.socket.try_clone()?;
        Ok(PeerDevice::new(socket, peer))
    }

    /// Takes a datagram, if one has come. The error comes where the system refuses the call; then none has.
    pub fn hear(&mut self) -> Result<(), DeviceFailed>
        ensures none { OnErr result (self.new.came ≡ None) }
        ensures same { self.new ≡ with_came self.old self.new.came }
    {
        self.last = None;
        let answer = self.socket.recv_from(self.arrived.as_mut_slice());
        self.last = arrival_in(answer)?;
        Ok(())
    }

    /// The datagram that came when it was last asked for one, and who sent it.
    pub fn last(&self) -> Option<(SocketAddr, &[u8])>
        ensures { option_map (λ r. record { from = r.0; bytes = r.1.now }) result ≡ self.now.came }
    {
        let arrival = self.last?;
        Some((arrival.from, &self.arrived[..arrival.length]))
    }

    /// Asks somebody for a SETUP, with this status message. Whether it gets there nobody says. The count of these stays at the
    /// greatest `u64`.
    pub fn ask(&mut self, to: SocketAddr, status: Status)
        ensures { self.new ≡ asking self.old to (SM 128 (status_of status)) }
    {
        let bytes = asking_bytes(status);
        let _ = self.send(to, &bytes);
        self.asks = self.asks.saturating_add(1);
        self.asked = Some(Asked { to, status });
    }

    /// Hands a datagram for somebody to the system. One that isn't ready loses it; the error comes where it refuses the call.
    pub(crate) fn send(&mut self, to: SocketAddr, datagram: &[u8]) -> Result<(), DeviceFailed>
        ensures { self.new ≡ giving self.old to }
    {
        self.given = Some(to);
        if self.connected == Some(to) {
            return sent_by(self.socket.send(datagram));
        }
        sent_by(self.socket.send_to(datagram, to))
    }

    /// Lets the system throw away what others than this one send, if it does, and send to it at less cost.
    pub(crate) fn connect(&mut self, peer: SocketAddr)
        ensures { self.new ≡ self.old }
    {
        if self.socket.connect(peer).is_ok() {
            self.connected = Some(peer);
        }
    }
}
