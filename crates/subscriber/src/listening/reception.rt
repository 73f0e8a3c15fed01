//! A subscriber's socket, at the one place where it is read.

ghost use Rattle.std.specs.Prelude.{◌≡◌, Result, Some, IfOk, IfSome, OnOk, option_map};
ghost use Rattle.endpoint.specs.declared.datagrams.DeviceFailed.{DeviceFailed as Failed};
ghost use Rattle.frames.specs.Frames.{header_of, status_of};
ghost use Rattle.peer.specs.Peers.{sending_to};
ghost use Rattle.peer.specs.Ties.{asking};
ghost use Rattle.subscriber.specs.Receivings.{bringing, caller_given, keeping, offer_given, receiving};
ghost use Rattle.subscriber.specs.Routing.{Routes, kept_of};
ghost use Rattle.subscriber.specs.Sessions.{IsRouted};
ghost use Rattle.subscriber.specs.Watches.{after_call};
ghost use Rattle.std.specs.List.{AllZip};
ghost use Rattle.theory.specs.Wire.{IsHeader, SM};

use crate::images::session::Session;
use crate::images::session_device::RoutedDatagram;
use crate::listening::first_frame::{FirstFrame, HeardFrame, first_frame};
use crate::watch::Watch;
use frames::{Header, Setup, Status};
use peer::{Listener, PeerDevice};
use std::alloc::{AllocError, Global};
use std::io;
use std::marker::Model;
use std::net::SocketAddr;

/// What became of a read.
#[derive(Clone, Copy, Debug, PartialEq, Eq)]
pub enum Read {
    /// Nothing had come.
    Nothing,
    /// A datagram that is the session's.
    Routed,
    /// One that is nobody's.
    Passed,
}

/// The socket, and what of no session that is followed came by it: the first SETUP since one was taken, the last behind it, and the
/// last frame of a stream since one was taken, each with who sent it.
#[derive(Drop)]
pub struct Reception {
    listener: Listener,
    offer: Option<(SocketAddr, Setup)>,
    later: Option<(SocketAddr, Setup)>,
    caller: Option<(SocketAddr, HeardFrame)>,
}

impl Model for Reception {
    ghost use Rattle.subscriber.specs.Receivings.{Receiving};

    ghost Value = { Receiving };

    ghost view = { λ r. record { socket = r.listener; offer = r.offer; later = r.later; caller = r.caller } };
}

impl Reception {
    /// Over this socket.
    pub fn new(listener: Listener) -> Reception
        ensures { result ≡ receiving listener }
    {
        Reception {
            listener,
            offer: None,
            later: None,
            caller: None,
        }
    }

    /// Takes a datagram, if one has come, and notes whether the call worked.
    pub(crate) fn hear(&mut self, watch: &mut Watch)
        ensures same { self.new ≡ bringing self.old self.new.socket.came }
        ensures noted { (answer : Result (Unit {0}) Failed) × (watch.new ≡ after_call answer watch.old) }
        ensures moment { watch.new.moment ≡ watch.old.moment }
    {
        match self.listener.hear() {
            Ok(()) => watch.work(),
            Err(_) => watch.lose(),
        }
    }

    /// The datagram that came when it was last asked for one, and who sent it.
    pub(crate) fn last(&self) -> Option<(SocketAddr, &[u8])>
        ensures { option_map (λ r. record { from = r.0; bytes = r.1.now }) result ≡ self.now.socket.came }
    {
        self.listener.last()
    }

    /// Asks somebody for a SETUP, with this status message.
    pub(crate) fn ask(&mut self, to: SocketAddr, status: Status)
        ensures { self.new ≡ record self.old { socket = asking self.old.socket to (SM 128 (status_of status)) } }
    {
        self.listener.ask(to, status);
    }

    /// A device that sends to this peer.
    pub(crate) fn peer_device(&self, peer: SocketAddr) -> io::Result<PeerDevice>
        ensures { IfOk result (λ d. d ≡ sending_to peer) }
    {
        self.listener.peer_device(peer)
    }

    /// Takes the first SETUP of those that it keeps, and who sent it.
    pub fn take_offer(&mut self) -> Option<(SocketAddr, Setup)>
        ensures taken { result ≡ self.old.offer }
        ensures left { self.new ≡ offer_given self.old }
    {
        let first = self.offer;
        self.offer = self.later;
        self.later = None;
        first
    }

    /// Takes the last frame of a stream that it keeps, by its header, and who sent it.
    pub(crate) fn take_caller(&mut self) -> Option<(SocketAddr, Header)>
        ensures taken { result ≡ self.old.caller }
        ensures legal { IfSome result (λ c. IsHeader (header_of c.1)) }
        ensures left { self.new ≡ caller_given self.old }
    {
        let (from, frame) = self.caller?;
        self.caller = None;
        Some((from, frame.header()))
    }

    /// Keeps a SETUP.
    fn keep(&mut self, from: SocketAddr, setup: Setup)
        ensures { self.new ≡ keeping (Some (from, setup)) self.old }
    {
        match self.offer {
            None => self.offer = Some((from, setup)),
            Some(_) => self.later = Some((from, setup)),
        }
    }

    /// Keeps a SETUP, or a frame of a stream, if that is one.
    fn keep_first(&mut self, from: SocketAddr, first: &FirstFrame)
        ensures { self.new ≡ kept_of from first.now self.old }
    {
        match *first {
            FirstFrame::Heard(frame) => self.caller = Some((from, frame)),
            FirstFrame::Setup(setup) => self.keep(from, setup),
            FirstFrame::Other => {}
        }
    }

    /// Gives what came to the session whose it is, and else passes it over. Where memory is refused it's lost.
    pub(crate) fn route(
        &mut self,
        alloc: Global,
        sessions: &mut [Session],
        watch: &mut Watch,
    ) -> Result<Read, AllocError>
        ensures routes { OnOk result (Routes self.old.socket.came (record { sessions = sessions.old; socket = self.old; seen = watch.old }) (record { sessions = sessions.new; socket = self.new; seen = watch.new })) }
        ensures kept { AllZip IsRouted sessions.old sessions.new }
        ensures moment { watch.new.moment ≡ watch.old.moment }
    {
        let Some((from, datagram)) = self.listener.last() else {
            return Ok(Read::Nothing);
        };
        let first = first_frame(datagram);
        let its = sessions
            .iter()
            .position(|session| session.duty.device().is_of(from, &first));
        let Some(place) = its else {
            watch.count_stranger();
            self.keep_first(from, &first);
            return Ok(Read::Passed);
        };
        let routed = RoutedDatagram::new(alloc, first, datagram)?;
        sessions[place].duty.device_mut().route(routed)?;
        Ok(Read::Routed)
    }
}
