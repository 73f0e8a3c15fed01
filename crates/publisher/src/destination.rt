//! A destination of a publisher: its device, what was seen of it, and how a publisher ends by that.

ghost use Rattle.std.specs.Prelude.{◌≡◌, map};
ghost use Rattle.std.specs.List.{list_all};
ghost use Rattle.endpoint.specs.Calls.{Receives, Sends};
ghost use Rattle.endpoint.specs.Devices.{NeverFall};
ghost use Rattle.publisher.specs.Endings.{ending_along, is_broken_along, is_over_along, is_whole_along};
ghost use Rattle.publisher.specs.Looking.{calls_of, is_at_rest};
ghost use Rattle.publisher.specs.Numbers.{GoesOn, NumbersBy, ReceivesNumbered, goes_on, goes_still};
ghost use Rattle.publisher.specs.Seeing.{back_now, begun, behind_now, is_quiet, label_of, news_along, seen_along, shown};

use crate::progress::Progress;
use endpoint::{Datagrams, DeviceFailed};
use flow_control::LIVE;
use loss_injector::Lossy;
use peer::{Attendance, Attended, Behind, Ending, PatientDevice, Tally, number_status};
use std::net::SocketAddr;

/// A publisher's device: what fails is lost, losses are made on purpose, and what comes is screened and noted.
pub type ChannelDevice<D> = Attended<Lossy<PatientDevice<D>>>;

/// How many receives found nothing at the socket, and how many calls failed.
#[derive(Clone, Copy)]
pub struct Calls {
    pub nones: u64,
    pub lost: u64,
}

/// What a cycle has shown.
#[derive(Clone, Copy)]
pub struct Seen {
    pub attendance: Attendance,
    pub tally: Tally,
    /// How many calls failed.
    pub lost: u64,
    /// How many didn't.
    pub worked: u64,
    /// Whether all that had come was heard: the receiving ended at an empty socket.
    pub at_rest: bool,
}

/// A destination, over a device to it. Where it is one of several, a status message that comes from there names its id as its
/// receiver: a group's flow control knows its receivers by the ids of their destinations.
#[derive(Drop)]
pub struct Destination<D> {
    pub device: D,
    /// The number that stands for its receiver among several; none where it is the only one, whatever its receiver's id is.
    pub id: Option<i64>,
    /// Where it is.
    pub peer: SocketAddr,
    /// Its device's calls as the cycle began.
    pub before: Calls,
    /// What was seen and told of it.
    pub progress: Progress,
    /// For how many nanoseconds no status message came from there, where that was judged.
    pub silence: Option<u64>,
    /// For how many nanoseconds none was noted, by what was seen last.
    pub unheard: u64,
    /// Whether one that was heard, and lacks something, is silent, by what was seen last.
    pub quiet: bool,
    /// How far the one that was heard last is left behind, by what was seen last.
    pub behind: Option<Behind>,
    /// Whether each call of its device has failed for too long.
    pub broken: bool,
}

/// Lets a status message name this id, if there is one, as its receiver.
fn number_by(id: Option<i64>, datagram: &mut [u8])
    ensures { NumbersBy id datagram.old datagram.new }
{
    if let Some(id) = id {
        number_status(id, datagram);
    }
}

impl<D: Datagrams> Datagrams for Destination<D> {
    ghost device = { λ w. D.device w.device };

    ghost tells = { λ _. ⊥ };

    ghost lives = { λ v w. GoesOn D.lives v w };

    ghost lives_still = { λ w. goes_still D.lives D.lives_still w };

    ghost lives_on = { λ u v w. goes_on D.lives D.lives_on u v w };

    /// Sends a datagram there.
    fn send(&mut self, datagram: &[u8]) -> Result<(), DeviceFailed>
        ensures counts { NeverFall (D.device self.old.device) (D.device self.new.device) }
        ensures sends { Sends ⊥ (D.device self.old.device) datagram.now result (D.device self.new.device) }
        ensures through { Sends (D.tells self.old.device) (D.device self.old.device) datagram.now result (D.device self.new.device) }
        ensures lives { GoesOn D.lives self.old self.new }
    {
        self.device.send(datagram)
    }

    /// Hands over what its device does; of several a status message names this one.
    fn recv(&mut self, buffer: &mut [u8]) -> Result<Option<usize>, DeviceFailed>
        ensures counts { NeverFall (D.device self.old.device) (D.device self.new.device) }
        ensures receives { Receives ⊥ (D.device self.old.device) buffer.old result buffer.new (D.device self.new.device) }
        ensures numbered { ReceivesNumbered D.device D.tells self.old buffer.old result buffer.new self.new }
        ensures lives { GoesOn D.lives self.old self.new }
    {
        let Some(length) = self.device.recv(buffer)? else {
            return Ok(None);
        };
        number_by(self.id, &mut buffer[..length]);
        Ok(Some(length))
    }

    fn failures(&self) -> u64 {
        self.device.failures()
    }

    fn nones(&self) -> u64 {
        self.device.nones()
    }
}

/// How many receives found nothing at the socket, and how many calls failed.
fn calls_of<D: Datagrams>(device: &ChannelDevice<D>) -> Calls
    ensures { result ≡ calls_of device.now }
{
    let patient = device.inner().inner();
    Calls {
        nones: patient.nones(),
        lost: patient.lost(),
    }
}

/// Whether between these a receive found nothing, and no call failed.
fn is_at_rest(before: Calls, after: Calls) -> bool
    ensures { result ≡ is_at_rest before after }
{
    after.nones != before.nones && after.lost == before.lost
}

/// What is to be told of a destination.
#[derive(Clone, Copy, Debug, PartialEq, Eq)]
pub struct News {
    /// Another receiver is heard than before.
    pub changed: bool,
    /// Nobody was ever heard.
    pub alone: bool,
    /// The one that was heard is silent now.
    pub quiet: bool,
    /// The one that was heard last is left behind now, so far.
    pub behind: Option<Behind>,
    /// It was left behind, and is heard again, so far behind.
    pub back: Option<Behind>,
}

/// What is news of one that is left behind so far, if it is: it wasn't before.
fn behind_now(behind: Option<Behind>, before: Option<Behind>) -> Option<Behind>
    ensures { result ≡ behind_now behind before }
{
    match before {
        None => behind,
        Some(_) => None,
    }
}

/// What is news of one that is left behind so far, if it is: it was before, and is heard again.
fn back_now(behind: Option<Behind>, before: Option<Behind>, heard: bool) -> Option<Behind>
    ensures { result ≡ back_now behind before heard }
{
    match before {
        Some(_) if heard => behind,
        _ => None,
    }
}

/// Whether one that was heard, and hasn't told the stream's end, is silent for so long that the others go on without it; as before
/// where that isn't judged.
fn is_quiet(attendance: &Attendance, end: Option<u64>, silence: Option<u64>, before: bool) -> bool
    ensures { result ≡ is_quiet attendance.now end silence before }
{
    match silence {
        None => before,
        Some(silence) => {
            attendance.present.is_some() && !attendance.is_told(end) && silence > LIVE
        }
    }
}

impl<D> Destination<D> {
    /// What names it in a line: its address, where it is one of several.
    pub(crate) fn label(&self) -> Option<SocketAddr>
        ensures { result ≡ label_of self.now }
    {
        match self.id {
            None => None,
            Some(_) => Some(self.peer),
        }
    }
}

impl<D: Datagrams> Destination<ChannelDevice<D>> {
    /// A cycle begins, with the stream sent up to this position.
    pub(crate) fn begin(&mut self, position: u64)
        ensures { self.new ≡ begun position self.old }
    {
        self.before = calls_of(&self.device);
        self.device.believe(position);
    }

    /// What its device shows after a cycle that has begun.
    pub(crate) fn look(&self) -> Seen
        ensures { result ≡ shown self.now }
    {
        let patient = self.device.inner().inner();
        Seen {
            attendance: self.device.attendance(),
            tally: self.device.tally(),
            lost: patient.lost(),
            worked: patient.worked(),
            at_rest: is_at_rest(self.before, calls_of(&self.device)),
        }
    }

    /// Sees at a moment what the cycle has shown, of a stream that ends at `end`, if that is known. What is to be told of that.
    pub(crate) fn see(&mut self, end: Option<u64>, linger: u64, now: u64) -> News
        ensures seen { self.new ≡ seen_along end linger now self.old }
        ensures news { result ≡ news_along end linger now self.old }
    {
        let seen = self.look();
        let (was_quiet, was_behind) = (self.quiet, self.behind);
        let heard = self.progress.is_back(seen.tally.statuses, now);
        self.broken = self.progress.is_broken(seen.worked, linger, now);
        let changed = self.progress.see(&seen, now);
        let alone = self.progress.is_alone(&seen.attendance, now);
        self.silence = self.progress.statuses.judged(seen.at_rest, now);
        self.unheard = self.progress.statuses.lasts(now);
        self.quiet = is_quiet(&seen.attendance, end, self.silence, was_quiet);
        self.behind = self.device.behind();
        News {
            changed,
            alone,
            quiet: self.quiet && !was_quiet,
            behind: behind_now(self.behind, was_behind),
            back: back_now(self.behind, was_behind, heard),
        }
    }

    /// Whether one receiver was heard there from the start to the stream's end, and no other.
    fn is_whole(&self, end: Option<u64>) -> bool
        ensures { result ≡ is_whole_along end self.now }
    {
        self.device.attendance().is_whole(end)
    }

    /// Whether nothing more is waited for there: one that is left behind can't come to the stream's end any more.
    fn is_over(&self, end: Option<u64>, linger: u64, wait: u64) -> bool
        ensures { result ≡ is_over_along end linger wait self.now }
    {
        let attendance = self.device.attendance();
        self.behind.is_some() || attendance.ending(end, self.silence, linger, wait).is_some()
    }
}

/// A cycle begins at each destination.
pub(crate) fn begin_all<D: Datagrams>(
    destinations: &mut [Destination<ChannelDevice<D>>],
    position: u64,
)
    ensures { destinations.new ≡ map (begun position) destinations.old }
{
    for destination in destinations.iter_mut() {
        destination.begin(position);
    }
}

fn are_whole<D: Datagrams>(destinations: &[Destination<ChannelDevice<D>>], end: Option<u64>) -> bool
    ensures { result ≡ list_all (is_whole_along end) destinations.now }
{
    destinations
        .iter()
        .all(|destination| destination.is_whole(end))
}

fn are_over<D: Datagrams>(
    destinations: &[Destination<ChannelDevice<D>>],
    end: Option<u64>,
    linger: u64,
    wait: u64,
) -> bool
    ensures { result ≡ list_all (is_over_along end linger wait) destinations.now }
{
    destinations
        .iter()
        .all(|destination| destination.is_over(end, linger, wait))
}

/// Whether each call of each destination's device has failed for too long.
pub(crate) fn are_broken<D>(destinations: &[Destination<D>]) -> bool
    ensures { result ≡ list_all is_broken_along destinations.now }
{
    destinations.iter().all(|destination| destination.broken)
}

/// Whether a publisher ends, and how, by what was seen of its destinations. Its stream ends at `end`, if its input has ended. It
/// ends whole where each of its receivers has received all. It gives up where nothing more is waited for at any destination: the
/// tail was told; or no status message has come for `linger` nanoseconds, or none at all for `wait`; or its receiver is left
/// behind.
pub fn ending_along<D: Datagrams>(
    destinations: &[Destination<ChannelDevice<D>>],
    end: Option<u64>,
    linger: u64,
    wait: u64,
) -> Option<Ending>
    ensures { result ≡ ending_along destinations.now end linger wait }
{
    if are_whole(destinations, end) {
        return Some(Ending::Whole);
    }
    if are_over(destinations, end, linger, wait) {
        return Some(Ending::Short);
    }
    None
}
