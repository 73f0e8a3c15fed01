//! A device of a session: it takes what was routed to it, and sends.

ghost use Rattle.std.specs.Prelude.{◌≡◌, ◌↔◌, IfOk, IsOk, IsTrue, OnErr, OnOk};
ghost use Rattle.endpoint.specs.Calls.{Receives, Sends};
ghost use Rattle.endpoint.specs.Devices.{HasGrown, NeverFall, counted};
ghost use Rattle.subscriber.specs.FirstFrames.{NamesNoOther, TellsFirst, named_first};
ghost use Rattle.subscriber.specs.Hearings.{Takes, after_sending, device_of, following, noted_after, notes_after, turned_to, with_routed};
ghost use Rattle.subscriber.specs.Offers.{news_of, news_taken, peer_of, tied_anew};
ghost use Rattle.subscriber.specs.Routing.{IsOf};

use crate::listening::first_frame::{FirstFrame, HeardFrame};
use endpoint::{Datagrams, DeviceFailed};
use frames::{NAK_LENGTH, STATUS_LENGTH, Setup};
use loss_injector::Lossy;
use peer::{PatientDevice, PeerDevice};
use std::alloc::{AllocError, Global};
use std::collections::VecDeque;
use std::marker::Model;
use std::net::SocketAddr;

/// How many datagrams wait at the most: as many as a cycle takes.
const MOST_WAITING: usize = 16;

/// A datagram, and what stands first in it.
#[derive(Drop)]
pub struct RoutedDatagram {
    first: FirstFrame,
    bytes: Vec<u8>,
}

impl Model for RoutedDatagram {
    ghost use Rattle.subscriber.specs.FirstFrames.{TellsFirst};
    ghost use Rattle.subscriber.specs.Hearings.{Routed};

    ghost Value = { Routed };

    ghost view = { λ r. record { first = r.first; bytes = r.bytes.items } };

    ghost invariant = { λ r. TellsFirst r.bytes.items r.first };
}

impl RoutedDatagram {
    /// A copy of a datagram, in which this stands first.
    pub fn new(
        alloc: Global,
        first: FirstFrame,
        datagram: &[u8],
    ) -> Result<RoutedDatagram, AllocError>
        requires { TellsFirst datagram.now first }
        ensures { IfOk result (λ r. r ≡ record { first = first; bytes = datagram.now }) }
    {
        let bytes = Vec::from_slice(alloc, datagram)?;
        Ok(RoutedDatagram { first, bytes })
    }
}

/// What was heard of a session.
#[derive(Clone, Copy, Debug, PartialEq, Eq)]
pub struct Notes {
    /// How many datagrams began with a DATA frame, a padding or a heartbeat of its stream, modulo 2^64.
    pub frames: u64,
    /// The last of these frames.
    pub last: Option<HeardFrame>,
    /// The last SETUP of its peer, until it is taken.
    pub setup: Option<Setup>,
}

/// A status message that a device was given to send, and its peer. Only `SessionDevice::take_news` makes one.
#[derive(Clone, Copy)]
pub struct SentStatus {
    to: SocketAddr,
    bytes: [u8; STATUS_LENGTH],
}

impl Model for SentStatus {
    ghost use Rattle.std.specs.Prelude.{◌≡◌, length};
    ghost use Rattle.subscriber.specs.Statuses.{Sent};

    ghost Value = { Sent };

    ghost view = { λ s. record { to = s.to; bytes = s.bytes } };

    ghost invariant = { λ s. length s.bytes ≡ 36 };

    ghost inverse = { λ s. record { to = s.to; bytes = s.bytes } };
}

impl SentStatus {
    /// The peer that it was for.
    pub fn to(&self) -> SocketAddr
        ensures { result ≡ self.now.to }
    {
        self.to
    }

    /// What was sent.
    pub fn bytes(&self) -> &[u8; STATUS_LENGTH]
        ensures { result.now ≡ self.now.bytes }
    {
        &self.bytes
    }
}

/// What is new of a subscriber's status messages.
#[derive(Clone, Copy)]
pub enum StatusNews {
    /// This one was sent, and is the last.
    Sent(SentStatus),
    /// The session or the peer is another, and none was sent since: those before are of no use any more.
    Cleared,
}

/// What a device has noted of the status messages that it was given to send, since that was taken.
#[derive(Clone, Copy)]
pub enum PendingStatus {
    /// It was given none.
    Nothing,
    /// The bytes of the last one.
    Given([u8; STATUS_LENGTH]),
    /// The session or the peer is another, and it was given none since.
    Cleared,
}

/// A device that takes what was routed to it of a session, and notes that, and what it is given to send, whether the one by which
/// it sends takes that or not.
#[derive(Drop)]
pub struct SessionDevice<D> {
    inner: D,
    inbox: VecDeque<RoutedDatagram>,
    session: i32,
    stream: i32,
    notes: Notes,
    naks: u64,
    noted: PendingStatus,
    nones: u64,
}

impl<D> Model for SessionDevice<D> {
    ghost use Rattle.subscriber.specs.Hearings.{Following};

    ghost Value = { Following D };

    ghost view = { λ f. record { inner = f.inner; inbox = f.inbox.items; session = f.session; stream = f.stream; notes = f.notes; naks = f.naks; noted = f.noted; nones = f.nones } };
}

/// Whether what stands first in a datagram names no other session than this one.
fn names_no_other(first: &FirstFrame, session: i32) -> bool
    ensures { IsTrue result ↔ NamesNoOther (named_first first.now) session }
{
    match first.session() {
        None => true,
        Some(named) => named == session,
    }
}

/// What is noted once a datagram was given.
fn noted_after(before: PendingStatus, datagram: &[u8]) -> PendingStatus
    ensures { result ≡ noted_after before datagram.now }
{
    if datagram.len() != STATUS_LENGTH {
        return before;
    }
    let mut bytes = [0; STATUS_LENGTH];
    bytes.copy_from_slice(datagram);
    PendingStatus::Given(bytes)
}

impl Notes {
    /// Notes what stands first in a datagram: a frame of the session's stream counts, and a SETUP is kept.
    fn note(&mut self, session: i32, stream: i32, first: &FirstFrame)
        ensures { self.new ≡ notes_after session stream first.now self.old }
    {
        match *first {
            FirstFrame::Heard(frame) => {
                let header = frame.header();
                if header.session == session && header.stream == stream {
                    self.frames = self.frames.wrapping_add(1);
                    self.last = Some(frame);
                }
            }
            FirstFrame::Setup(setup) => self.setup = Some(setup),
            FirstFrame::Other => {}
        }
    }
}

impl<D> SessionDevice<D> {
    /// A device that sends by this one, and has heard nothing of a session's stream yet.
    pub fn new(alloc: Global, inner: D, session: i32, stream: i32) -> SessionDevice<D>
        ensures { result ≡ following inner session stream }
    {
        SessionDevice {
            inner,
            inbox: VecDeque::new(alloc),
            session,
            stream,
            notes: Notes {
                frames: 0,
                last: None,
                setup: None,
            },
            naks: 0,
            noted: PendingStatus::Nothing,
            nones: 0,
        }
    }

    /// The device by which it sends.
    pub fn inner(&self) -> &D
        ensures { result.now ≡ self.now.inner }
    {
        &self.inner
    }

    /// What was heard.
    pub fn notes(&self) -> Notes
        ensures { result ≡ self.now.notes }
    {
        self.notes
    }

    /// How many negative acknowledgements it was given to send. At the greatest `u64` it stays.
    pub fn naks(&self) -> u64
        ensures { result ≡ self.now.naks }
    {
        self.naks
    }

    /// Takes the last SETUP.
    pub fn take_setup(&mut self) -> Option<Setup>
        ensures taken { result ≡ self.old.notes.setup }
        ensures left { self.new ≡ record self.old { notes = record (self.old.notes) { setup = None } } }
    {
        self.notes.setup.take()
    }

    /// Whether no more is to be routed to it before it has taken something.
    pub(crate) fn is_full(&self) -> bool {
        self.inbox.len() >= MOST_WAITING
    }

    /// Gets a datagram that is the session's. Where memory is refused it's lost.
    pub(crate) fn route(&mut self, routed: RoutedDatagram) -> Result<(), AllocError>
        ensures routed { OnOk result (self.new ≡ with_routed self.old routed) }
        ensures lost { OnErr result (self.new ≡ self.old) }
    {
        match self.inbox.push_back(routed) {
            Ok(()) => Ok(()),
            Err(_) => Err(AllocError),
        }
    }

    /// Counts a receive that finds nothing.
    fn find_none(&mut self)
        ensures counted { self.new ≡ record self.old { nones = counted self.old.nones } }
        ensures grown { HasGrown self.old.nones self.new.nones }
    {
        self.nones = self.nones.saturating_add(1);
    }
}

/// The device of a session.
pub type SubscriberDevice = SessionDevice<Lossy<PatientDevice<PeerDevice>>>;

impl SubscriberDevice {
    /// Its peer.
    pub(crate) fn peer(&self) -> SocketAddr
        ensures { result ≡ peer_of self.now }
    {
        self.inner.inner().inner().peer()
    }

    /// Whether a datagram that this one sent is of its session, by what stands first in it.
    pub(crate) fn is_of(&self, from: SocketAddr, first: &FirstFrame) -> bool
        ensures { IsTrue result ↔ IsOf self.now from first.now }
    {
        from == self.peer() && names_no_other(first, self.session)
    }

    /// Makes this the peer. What was sent to the one before is of no use any more.
    pub(crate) fn tie(&mut self, peer: SocketAddr)
        ensures { self.new ≡ tied_anew self.old peer }
    {
        let patient = self.inner.inner_mut();
        let device = patient.inner_mut();
        device.turn_to(peer);
        self.noted = PendingStatus::Cleared;
    }

    /// Makes this the peer, and turns to a session.
    pub(crate) fn turn(&mut self, peer: SocketAddr, session: i32)
        ensures { self.new ≡ turned_to (tied_anew self.old peer) session }
    {
        self.tie(peer);
        self.inbox.clear();
        self.session = session;
        self.notes.last = None;
        self.notes.setup = None;
    }

    /// Takes what is new of its status messages since this was called last.
    pub fn take_news(&mut self) -> Option<StatusNews>
        ensures taken { result ≡ news_of (peer_of self.old) self.old.noted }
        ensures left { self.new ≡ news_taken self.old }
    {
        let news = match self.noted {
            PendingStatus::Nothing => return None,
            PendingStatus::Given(bytes) => StatusNews::Sent(SentStatus {
                to: self.peer(),
                bytes,
            }),
            PendingStatus::Cleared => StatusNews::Cleared,
        };
        self.noted = PendingStatus::Nothing;
        Some(news)
    }
}

impl<D: Datagrams> Datagrams for SessionDevice<D> {
    ghost device = { λ f. device_of (D.device f.inner) f.nones };

    ghost tells = { λ _. ⊥ };

    ghost lives_still = { λ _. tt };

    ghost lives_on = { λ _ _ _ _ _. tt };

    /// Hands a datagram to the device by which it sends.
    fn send(&mut self, datagram: &[u8]) -> Result<(), DeviceFailed>
        ensures counts { NeverFall (device_of (D.device self.old.inner) self.old.nones) (device_of (D.device self.new.inner) self.new.nones) }
        ensures sends { Sends ⊥ (device_of (D.device self.old.inner) self.old.nones) datagram.now result (device_of (D.device self.new.inner) self.new.nones) }
        ensures given { self.new ≡ after_sending self.old datagram.now self.new.inner }
    {
        // no other frame that a receiver sends has so many bytes
        if datagram.len() == NAK_LENGTH {
            self.naks = self.naks.saturating_add(1);
        }
        self.noted = noted_after(self.noted, datagram);
        self.inner.send(datagram)
    }

    /// Takes the oldest of what was routed to it: copies it to the buffer's front, as far as there is room.
    fn recv(&mut self, buffer: &mut [u8]) -> Result<Option<usize>, DeviceFailed>
        ensures counts { NeverFall (device_of (D.device self.old.inner) self.old.nones) (device_of (D.device self.new.inner) self.new.nones) }
        ensures receives { Receives ⊥ (device_of (D.device self.old.inner) self.old.nones) buffer.old result buffer.new (device_of (D.device self.new.inner) self.new.nones) }
        ensures never_fails { IsOk result }
        ensures takes { IfOk result (λ found. Takes self.old found buffer.new self.new) }
    {
        let Some(routed) = self.inbox.pop_front() else {
            self.find_none();
            return Ok(None);
        };
        let bytes = routed.bytes.as_slice();
        let length = bytes.len().min(buffer.len());
        buffer[..length].copy_from_slice(&bytes[..length]);
        self.notes.note(self.session, self.stream, &routed.first);
        Ok(Some(length))
    }

    fn failures(&self) -> u64 {
        self.inner.failures()
    }

    fn nones(&self) -> u64 {
        self.nones
    }
}
