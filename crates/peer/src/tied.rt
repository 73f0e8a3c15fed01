//! A device with one peer, over a socket that hears anybody: a publisher's.

ghost use Rattle.std.specs.Prelude.{◌≡◌, ◌≢◌, ◌↔◌, ◌<◌, IfOk, IsTrue, None, Some, OnErr, OnOk};
ghost use Rattle.endpoint.specs.Calls.{CountsFailure, Fills, Receives, Sends};
ghost use Rattle.frames.specs.Frames.{asks_of, status_of};
ghost use Rattle.endpoint.specs.Devices.{HasGrown, NeverFall};
ghost use Rattle.peer.specs.Ties.{HandsCame, HandsOver, Hears, IsAwaited, Looks, PassingIsBounded, Seeks, SettlesCame, TellsStart, hearing_anybody, is_at, is_of_start, is_start, sending, tied_waiting, with_fault, with_nothing};

use crate::listener::Listener;
use crate::numbering::status_in;
use crate::screen::{is_own, told_position};
use endpoint::{Datagrams, DeviceFailed, OpenError, Route};
use frames::Status;
use position::Identity;
use std::alloc::Global;
use std::marker::Model;
use std::net::{Net, SocketAddr};

/// How many datagrams of strangers are passed over at the most, before a receive finds nothing.
pub(crate) const MOST_PASSED: u64 = 256;

/// What a look at the socket has found.
#[derive(Clone, Copy, Debug, PartialEq, Eq)]
enum Look {
    /// A datagram of one that is heard.
    Peers,
    /// One of another, which is passed over.
    Strangers,
    /// None has come.
    Nothing,
}

/// A stream, and where it begins, in bytes of it.
#[derive(Clone, Copy)]
pub struct Awaited {
    pub sent: Identity,
    pub start: u64,
}

/// A device with one peer, over a socket that hears anybody. One that waits for a stream's start hears any address of its peer's
/// port, until a status message of the stream has told that: who has told it is its peer from then on. It goes on sending to whom
/// it did: a host may answer from another of its addresses than it was called at. What others send it passes over. A receive
/// finds nothing where nothing has come, or 256 datagrams of others were passed over since one did; so what ends there has
/// passed over no more. A call that finds the system not ready hasn't failed: what was to be sent is lost, and nothing has
/// come.
#[derive(Drop)]
pub struct TiedDevice {
    listener: Listener,
    peer: SocketAddr,
    to: SocketAddr,
    awaited: Option<Awaited>,
    passed: u64,
    failures: u64,
    nones: u64,
}

impl Model for TiedDevice {
    ghost use Rattle.std.specs.Prelude.{[]};
    ghost use Rattle.peer.specs.Ties.{Tied};

    ghost Value = { Tied };

    ghost view = { λ t. record { device = record { sent = []; received = []; failures = t.failures; nones = t.nones }; peer = t.peer; to = t.to; awaited = t.awaited; passed = t.passed; socket = t.listener } };
}

/// Whether a position is this one.
#[tactic(auto, using(crate::proofs::Passing::stands_at, crate::proofs::Passing::stands_below))]
fn is_at(position: i64, start: u64) -> bool
    ensures { result ≡ is_at position start }
{
    match u64::try_from(position) {
        Ok(position) => position == start,
        Err(_) => false,
    }
}

/// Whether a status message is of the stream, and of its start.
fn is_of_start(awaited: &Awaited, status: &Status) -> bool
    ensures { result ≡ is_of_start awaited.now (status_of status.now) }
{
    is_own(&awaited.sent, status.session, status.stream)
        && is_at(told_position(&awaited.sent, status), awaited.start)
}

/// Whether a status message tells the stream's start.
fn is_start(awaited: &Awaited, asks: bool, status: &Status) -> bool
    ensures { result ≡ is_start awaited.now (asks_of asks) (status_of status.now) }
{
    !asks && is_of_start(awaited, status)
}

/// Whether a datagram is a status message of the stream that tells its start.
fn tells_start(awaited: &Awaited, datagram: &[u8]) -> bool
    ensures { IsTrue result ↔ TellsStart awaited.now datagram.now }
{
    match status_in(datagram) {
        None => false,
        Some((asks, status)) => is_start(awaited, asks, &status),
    }
}

/// A law: what is passed over is counted, and is 256 datagrams at the most before a receive finds nothing.
pub fn passing_is_bounded()
    ensures { PassingIsBounded }
{}

impl TiedDevice {
    /// A device over this socket whose peer this is, which waits for a start, or for none.
    fn waiting(listener: Listener, peer: SocketAddr, awaited: Option<Awaited>) -> TiedDevice
        ensures { result ≡ tied_waiting listener peer awaited }
    {
        TiedDevice {
            listener,
            peer,
            to: peer,
            awaited,
            passed: 0,
            failures: 0,
            nones: 0,
        }
    }

    /// A device along a route that waits for this start. `Refused`: the system refuses a socket along it; `Memory`: there is none
    /// for what comes.
    pub fn along<R: Net>(
        rt: &R,
        alloc: Global,
        route: &Route,
        awaited: Awaited,
    ) -> Result<TiedDevice, OpenError>
        ensures { IfOk result (λ t. t ≡ tied_waiting hearing_anybody route.now.peer (Some awaited)) }
    {
        let listener = Listener::along(rt, alloc, route)?;
        Ok(TiedDevice::waiting(listener, route.peer, Some(awaited)))
    }

    /// Its peer.
    pub fn peer(&self) -> SocketAddr
        ensures { result ≡ self.now.peer }
    {
        self.peer
    }

    /// Counts a failure.
    fn fail(&mut self) -> DeviceFailed
        ensures counted { self.new ≡ with_fault self.old }
        ensures grown { HasGrown self.old.device.failures self.new.device.failures }
        ensures not_fallen { NeverFall self.old.device self.new.device }
    {
        self.failures = self.failures.saturating_add(1);
        DeviceFailed
    }

    /// Counts a call of the socket, if it failed.
    fn note(&mut self, answer: Result<(), DeviceFailed>) -> Result<(), DeviceFailed>
        ensures same { result ≡ answer }
        ensures worked { OnOk answer (self.new ≡ self.old) }
        ensures failed { OnErr answer (self.new ≡ with_fault self.old) }
        ensures grown { OnErr answer (HasGrown self.old.device.failures self.new.device.failures) }
        ensures not_fallen { NeverFall self.old.device self.new.device }
    {
        match answer {
            Ok(()) => Ok(()),
            Err(_) => Err(self.fail()),
        }
    }

    /// Counts a receive that found nothing.
    fn find_none(&mut self)
        ensures counted { self.new ≡ with_nothing self.old }
        ensures grown { HasGrown self.old.device.nones self.new.device.nones }
        ensures not_fallen { NeverFall self.old.device self.new.device }
    {
        self.nones = self.nones.saturating_add(1);
        self.passed = 0;
    }

    /// Whether a start is waited for, and this is another address of the peer's port.
    fn is_awaited(&self, from: SocketAddr) -> bool
        ensures { IsTrue result ↔ IsAwaited self.now.awaited self.now.peer from }
    {
        match self.awaited {
            None => false,
            Some(_) => from.port() == self.peer.port(),
        }
    }

    /// Whether this one is heard.
    fn hears(&self, from: SocketAddr) -> bool
        ensures { IsTrue result ↔ Hears self.now from }
    {
        from == self.peer || self.is_awaited(from)
    }

    /// Takes a datagram, if one has come, and passes it over where its sender isn't heard.
    fn look(&mut self) -> Result<Look, DeviceFailed>
        requires room { self.old.passed < 256 }
        ensures looks { Looks self.old result self.new }
        ensures failures { CountsFailure result self.old.device.failures self.new.device.failures }
    {
        let heard = self.listener.hear();
        self.note(heard)?;
        let Some((from, _datagram)) = self.listener.last() else {
            return Ok(Look::Nothing);
        };
        if self.hears(from) {
            return Ok(Look::Peers);
        }
        self.passed += 1;
        Ok(Look::Strangers)
    }

    /// Looks until a datagram of one that is heard is found. Whether one was: where not, nothing came, or 256 were passed over.
    fn seek(&mut self) -> Result<bool, DeviceFailed>
        ensures seeks { Seeks self.old result self.new }
        ensures failures { CountsFailure result self.old.device.failures self.new.device.failures }
        ensures nones { self.new.device.nones ≡ self.old.device.nones }
        ensures carried { (self.new.device.sent ≡ self.old.device.sent) × (self.new.device.received ≡ self.old.device.received) }
    {
        for _ in self.passed..MOST_PASSED {
            match self.look()? {
                Look::Peers => return Ok(true),
                Look::Strangers => {}
                Look::Nothing => return Ok(false),
            }
        }
        Ok(false)
    }

    /// Where what was found tells the start that is waited for, its sender is the peer from now on.
    fn settle(&mut self)
        ensures settles { SettlesCame self.old self.old.socket.came self.new }
        ensures device { self.new.device ≡ self.old.device }
        ensures socket { self.new.socket ≡ self.old.socket }
    {
        let Some(awaited) = self.awaited else {
            return;
        };
        let Some((from, datagram)) = self.listener.last() else {
            return;
        };
        if !tells_start(&awaited, datagram) {
            return;
        }
        self.peer = from;
        self.awaited = None;
        if from == self.to {
            self.listener.connect(from);
        }
    }

    /// Hands over what was found. How many bytes it has, as far as there is room.
    fn hand_over(&self, buffer: &mut [u8]) -> usize
        requires found { self.now.socket.came ≢ None }
        ensures hands { HandsCame self.now.socket.came result buffer.new }
        ensures filled { Fills result buffer.old buffer.new }
    {
        let Some((_, datagram)) = self.listener.last() else {
            unreachable!()
        };
        let length = datagram.len().min(buffer.len());
        buffer[..length].copy_from_slice(&datagram[..length]);
        length
    }
}

impl Datagrams for TiedDevice {
    ghost device = { λ t. t.device };

    ghost tells = { λ _. ⊥ };

    ghost lives_still = { λ _. tt };

    ghost lives_on = { λ _ _ _ _ _. tt };

    /// Hands a datagram to the system, for the one to whom it sends.
    fn send(&mut self, datagram: &[u8]) -> Result<(), DeviceFailed>
        ensures counts { NeverFall self.old.device self.new.device }
        ensures sends { Sends ⊥ self.old.device datagram.now result self.new.device }
        // It is given for that one.
        ensures sent { OnOk result (self.new ≡ sending self.old) }
        ensures failed { OnErr result (self.new ≡ with_fault (sending self.old)) }
    {
        let answer = self.listener.send(self.to, datagram);
        self.note(answer)
    }

    fn recv(&mut self, buffer: &mut [u8]) -> Result<Option<usize>, DeviceFailed>
        ensures counts { NeverFall self.old.device self.new.device }
        ensures receives { Receives ⊥ self.old.device buffer.old result buffer.new self.new.device }
        ensures takes { HandsOver self.old result buffer.new self.new }
    {
        if !self.seek()? {
            self.find_none();
            return Ok(None);
        }
        self.settle();
        Ok(Some(self.hand_over(buffer)))
    }

    fn failures(&self) -> u64 {
        self.failures
    }

    fn nones(&self) -> u64 {
        self.nones
    }
}
