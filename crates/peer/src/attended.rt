//! A publisher's end: what it notes of what comes and goes.

ghost use Rattle.std.specs.Prelude.{◌≡◌, ◌≤◌, ◌<◌, IfNone, IfSome, Some, drop, is_some, length, min, take};
ghost use Rattle.std.specs.Option.{option_map};
ghost use Rattle.endpoint.specs.Calls.{CountsFailure, Receives, Sends};
ghost use Rattle.endpoint.specs.Devices.{HasGrown, NeverFall};
ghost use Rattle.theory.specs.Wire.{NAK, spelling};
ghost use Rattle.frames.specs.Frames.{nak_of, wire};
ghost use Rattle.peer.specs.Attends.{Attends, attends_on, attends_still};
ghost use Rattle.peer.specs.Screening.{is_handed};
ghost use Rattle.peer.specs.Watching.{CountsLook, CountsRefused, FillsLook, Finds, Gives, LooksInto, Screens, Takes, after_frame, after_verdict, behind_of, disbelieving, due_of, given, held_after, is_again, is_behind, is_below, is_left_behind, missed, passed_after, passing, plus_one, refusing, released, screened, screened_of, told, told_by, told_last, watching, watching_device, with_end, with_none, with_told};

use crate::attendance::{Attendance, Heard};
use crate::farewell::{StreamEnd, end_told, farewell_bytes};
use crate::screen::{Bounds, Verdict, asked_bytes, has_room_for, judge};
use crate::tied::MOST_PASSED;
use endpoint::{Datagrams, DeviceFailed};
use frames::{
    FaultCounts, Frame, FrameError, Header, NAK_LENGTH, Nak, SETUP_LENGTH, check_datagram,
    read_frame, write_frame,
};
use position::Identity;
use std::marker::Model;

/// What a look at the inner device has found.
#[derive(Clone, Copy, Debug, PartialEq, Eq)]
pub(crate) enum Found {
    /// A datagram of so many bytes, which is handed over.
    Handed(usize),
    /// One that is passed over.
    Passed,
    /// None has come.
    Nothing,
}

/// What a publisher's device has counted, each modulo 2^64 but for the last.
#[derive(Clone, Copy, Debug, PartialEq, Eq)]
pub struct Tally {
    /// The datagrams that it was given to send.
    pub datagrams: u64,
    /// Those of them that begin below what was sent before.
    pub resends: u64,
    /// The status messages that it noted.
    pub statuses: u64,
    /// The negative acknowledgements that it handed over.
    pub naks: u64,
    /// The status messages that it didn't believe.
    pub disbelieved: u64,
    /// The datagrams that it has passed over: status messages that it didn't believe, and what is held back or not answered.
    pub passed: u64,
    /// The datagrams that can't be read, by their faults. These counts stay at the greatest `u64`.
    pub refused: FaultCounts,
}

/// The ends of its stream that a device was given to tell, in bytes of the stream: the least and the greatest.
#[derive(Clone, Copy, Debug, PartialEq, Eq)]
pub struct ToldEnds {
    pub least: u64,
    pub greatest: u64,
    /// Whether the stream was told to be broken off at one of them.
    pub broken: bool,
}

/// How far a receiver that is left behind lies behind the sender, in bytes of the stream.
#[derive(Clone, Copy, Debug, PartialEq, Eq)]
pub struct Behind {
    /// How much it lacks of what was sent.
    pub missing: u64,
    /// How much of that can be sent again.
    pub reach: u64,
}

/// What a receiver has told last, with this position, if it is the one that was heard last.
fn told_last(present: Option<Heard>, receiver: i64, position: u64) -> u64
    ensures { result ≡ told_last present receiver position }
{
    match present {
        Some(heard) if heard.receiver == receiver => heard.last.max(position),
        _ => position,
    }
}

/// Whether one that stands here is left behind: what comes next can't be sent again any more.
fn is_behind(reach: Option<u64>, sent_to: u64, last: u64) -> bool
    ensures { result ≡ is_behind reach sent_to last }
{
    match reach {
        None => false,
        Some(reach) => last.saturating_add(reach) < sent_to,
    }
}

/// The ends that were told, with this one.
fn with_told(before: Option<ToldEnds>, end: StreamEnd) -> ToldEnds
    ensures { result ≡ with_told before end }
{
    match before {
        None => ToldEnds {
            least: end.position,
            greatest: end.position,
            broken: end.broken,
        },
        Some(told) => ToldEnds {
            least: told.least.min(end.position),
            greatest: told.greatest.max(end.position),
            broken: told.broken || end.broken,
        },
    }
}

/// A device that screens what comes of a stream, notes which receivers it hears, and counts what it sends.
///
/// What a screen doesn't hand over is passed over (`Verdict`). A receive finds nothing where nothing has come, or 256 datagrams
/// were passed over since one did. A negative acknowledgement that is held back is handed over by the first receive of the next
/// cycle. What it carried isn't told.
#[derive(Drop)]
pub struct Attended<D> {
    inner: D,
    sent: Identity,
    attendance: Attendance,
    bounds: Bounds,
    held: Option<Nak>,
    tally: Tally,
    nones: u64,
    passed: u64,
    ends: Option<ToldEnds>,
    /// How many bytes behind the sender's position a frame can be sent again, where a receiver that lacks more is left behind.
    reach: Option<u64>,
}

impl<D> Model for Attended<D> {
    ghost use Rattle.std.specs.Option.{option_map};
    ghost use Rattle.frames.specs.Frames.{nak_of};
    ghost use Rattle.peer.specs.Watching.{Watching};

    ghost Value = { Watching D };

    ghost view = { λ a. record { inner = a.inner; watch = record { sent = a.sent; attendance = a.attendance; bounds = a.bounds; held = option_map nak_of a.held; tally = a.tally; nones = a.nones; passed = a.passed; ends = a.ends; reach = a.reach } } };
}

/// Puts a negative acknowledgement into a buffer, as far as it has room. How many bytes that are.
fn put_nak(nak: Nak, buffer: &mut [u8]) -> usize
    ensures length { result ≡ min 28 (length buffer.old) }
    ensures front { take result buffer.new ≡ take result (spelling (NAK (nak_of nak))) }
    ensures rest { drop result buffer.new ≡ drop result buffer.old }
{
    let mut bytes = [0; NAK_LENGTH];
    write_frame(&Frame::Nak(nak), &mut bytes);
    let length = NAK_LENGTH.min(buffer.len());
    buffer[..length].copy_from_slice(&bytes[..length]);
    length
}

/// The first bytes of a buffer, as many as there are up to 40.
fn front_of(buffer: &[u8]) -> [u8; SETUP_LENGTH]
    ensures { take (min 40 (length buffer.now)) result ≡ take (min 40 (length buffer.now)) buffer.now }
{
    let mut bytes = [0; SETUP_LENGTH];
    let length = SETUP_LENGTH.min(buffer.len());
    bytes[..length].copy_from_slice(&buffer[..length]);
    bytes
}

/// Puts so many first bytes of a buffer back.
fn put_back(buffer: &mut [u8], front: &[u8; SETUP_LENGTH], size: usize)
    requires short { size ≤ 40 }
    requires within { size ≤ length buffer.old }
    ensures front { take size buffer.new ≡ take size front.now }
    ensures rest { drop size buffer.new ≡ drop size buffer.old }
{
    buffer[..size].copy_from_slice(&front[..size]);
}

/// Whether a position lies below this one.
#[tactic(auto, using(crate::proofs::Screened::lies_below, crate::proofs::Screened::below_any))]
fn is_below(position: i64, most: u64) -> bool
    ensures { result ≡ is_below position most }
{
    match u64::try_from(position) {
        Ok(position) => position < most,
        Err(_) => true,
    }
}

impl<D> Attended<D> {
    /// A device round this one that has heard nobody yet of a stream that begins here. Where others are to go on without a
    /// receiver that lacks more than can be sent again, `reach` says how many bytes behind the sender's position that is.
    pub fn new(inner: D, sent: Identity, start: u64, reach: Option<u64>) -> Attended<D>
        ensures { result ≡ watching inner sent start reach }
    {
        Attended {
            inner,
            sent,
            attendance: Attendance::new(start),
            bounds: Bounds {
                sent_to: start,
                asked: None,
            },
            held: None,
            tally: Tally {
                datagrams: 0,
                resends: 0,
                statuses: 0,
                naks: 0,
                disbelieved: 0,
                passed: 0,
                refused: FaultCounts::new(),
            },
            nones: 0,
            passed: 0,
            ends: None,
            reach,
        }
    }

    /// The device behind it.
    pub fn inner(&self) -> &D
        ensures { result.now ≡ self.now.inner }
    {
        &self.inner
    }

    /// Which receivers were heard.
    pub fn attendance(&self) -> Attendance
        ensures { result ≡ self.now.watch.attendance }
    {
        self.attendance
    }

    /// What it has counted.
    pub fn tally(&self) -> Tally
        ensures { result ≡ self.now.watch.tally }
    {
        self.tally
    }

    /// The ends of its stream that it was given to tell.
    pub fn ends(&self) -> Option<ToldEnds>
        ensures { result ≡ self.now.watch.ends }
    {
        self.ends
    }

    /// What is held back, where those of the cycle leave room for it.
    fn due(&self) -> Option<Nak>
        ensures { option_map nak_of result ≡ due_of self.now.watch }
    {
        let nak = self.held?;
        if !has_room_for(&self.sent, self.bounds.asked, &nak) {
            return None;
        }
        Some(nak)
    }

    /// A cycle begins. The stream was sent up to this position, so no status message of a greater one is believed.
    pub fn believe(&mut self, position: u64)
        ensures { self.new ≡ record self.old { watch = told self.old.watch position } }
    {
        self.bounds = Bounds {
            sent_to: position,
            asked: None,
        };
    }

    /// Counts a receive that found nothing.
    fn find_none(&mut self)
        ensures counted { self.new ≡ record self.old { watch = with_none self.old.watch } }
        ensures grown { HasGrown self.old.watch.nones self.new.watch.nones }
        ensures not_fallen { self.old.watch.nones ≤ self.new.watch.nones }
    {
        self.nones = self.nones.saturating_add(1);
        self.passed = 0;
    }

    /// Counts a datagram that is passed over.
    fn pass(&mut self)
        requires { self.old.watch.passed < 256 }
        ensures passed { self.new.watch ≡ passing self.old.watch }
        ensures kept { (self.new.inner ≡ self.old.inner) × (self.new.watch.nones ≡ self.old.watch.nones) }
    {
        self.passed += 1;
        self.tally.passed = self.tally.passed.wrapping_add(1);
    }

    /// Notes that this receiver has told this position.
    fn hear_status(&mut self, receiver: i64, position: u64)
        ensures told { self.new.watch ≡ told_by self.old.watch receiver position }
        ensures kept { (self.new.inner ≡ self.old.inner) × (self.new.watch.nones ≡ self.old.watch.nones) }
    {
        self.attendance.hear(receiver, position);
        self.tally.statuses = self.tally.statuses.wrapping_add(1);
    }

    /// Counts a negative acknowledgement that asks for so many bytes.
    fn miss(&mut self, bytes: u64)
        ensures missed { self.new.watch ≡ missed self.old.watch bytes }
        ensures kept { (self.new.inner ≡ self.old.inner) × (self.new.watch.nones ≡ self.old.watch.nones) }
    {
        let before = self.bounds.asked.unwrap_or(0);
        self.bounds.asked = Some(before.saturating_add(bytes));
        self.tally.naks = self.tally.naks.wrapping_add(1);
    }

    /// Counts a status message that isn't believed.
    fn disbelieve(&mut self)
        ensures counted { self.new.watch ≡ disbelieving self.old.watch }
        ensures kept { (self.new.inner ≡ self.old.inner) × (self.new.watch.nones ≡ self.old.watch.nones) }
    {
        self.tally.disbelieved = self.tally.disbelieved.wrapping_add(1);
    }

    /// Notes what a frame's verdict says.
    fn note(&mut self, verdict: Verdict)
        requires { self.old.watch.passed < 256 }
        ensures noted { self.new.watch ≡ after_verdict self.old.watch verdict }
        ensures kept { (self.new.inner ≡ self.old.inner) × (self.new.watch.nones ≡ self.old.watch.nones) }
        ensures passed { self.new.watch.passed ≡ passed_after (is_handed verdict) self.old.watch.passed }
    {
        match verdict {
            Verdict::Passes => {}
            Verdict::Tells { receiver, position } => self.hear_status(receiver, position),
            Verdict::Misses(bytes) => self.miss(bytes),
            Verdict::Disbelieved => {
                self.disbelieve();
                self.pass();
            }
            Verdict::Held | Verdict::Unanswered => self.pass(),
            Verdict::LeftBehind { receiver, position } => {
                self.hear_status(receiver, position);
                self.pass();
            }
        }
    }

    /// Whether the one that was heard last is left behind.
    fn is_left_behind(&self) -> bool
        ensures { result ≡ is_left_behind self.now.watch }
    {
        match self.attendance.present {
            None => false,
            Some(heard) => is_behind(self.reach, self.bounds.sent_to, heard.last),
        }
    }

    /// How far the receiver that was heard last is behind the sender, where it is left behind: none of its status messages
    /// and negative acknowledgements is handed over, but one that asks for a SETUP is, and so are those of another id.
    pub fn behind(&self) -> Option<Behind>
        ensures { result ≡ behind_of self.now.watch }
    {
        let reach = self.reach?;
        let heard = self.attendance.present?;
        if heard.last.saturating_add(reach) >= self.bounds.sent_to {
            return None;
        }
        Some(Behind {
            missing: self.bounds.sent_to - heard.last,
            reach,
        })
    }

    /// The verdict on a frame, where one that is left behind is neither handed over nor answered, and one is held back at a time.
    fn screened(&self, verdict: Verdict) -> Verdict
        ensures { result ≡ screened self.now.watch verdict }
    {
        match verdict {
            Verdict::Tells { receiver, position } => {
                let last = told_last(self.attendance.present, receiver, position);
                if is_behind(self.reach, self.bounds.sent_to, last) {
                    return Verdict::LeftBehind { receiver, position };
                }
                verdict
            }
            Verdict::Misses(_) | Verdict::Held if self.is_left_behind() => Verdict::Unanswered,
            Verdict::Held if self.held.is_some() => Verdict::Unanswered,
            _ => verdict,
        }
    }

    /// Holds a frame back that its verdict says to.
    fn hold(&mut self, verdict: Verdict, frame: &Frame<'_>)
        ensures { self.new ≡ record self.old { watch = record self.old.watch { held = held_after self.old.watch.held verdict (wire frame.now) } } }
    {
        if verdict != Verdict::Held {
            return;
        }
        self.held = match *frame {
            Frame::Nak(nak) => Some(nak),
            _ => None,
        };
    }

    /// A frame came, alone in a datagram. Whether it is handed over.
    fn hear(&mut self, frame: &Frame<'_>) -> bool
        requires { self.old.watch.passed < 256 }
        ensures handed { result ≡ is_handed (screened_of self.old.watch (wire frame.now)) }
        ensures heard { self.new.watch ≡ after_frame self.old.watch (wire frame.now) }
        ensures kept { (self.new.inner ≡ self.old.inner) × (self.new.watch.nones ≡ self.old.watch.nones) }
        ensures passed { self.new.watch.passed ≡ passed_after result self.old.watch.passed }
    {
        let verdict = self.screened(judge(&self.sent, &self.bounds, frame));
        self.note(verdict);
        self.hold(verdict, frame);
        verdict.is_handed()
    }

    /// Counts a datagram that can't be read, by its fault.
    fn refuse(&mut self, fault: FrameError)
        ensures refused { self.new.watch ≡ refusing self.old.watch fault }
        ensures kept { (self.new.inner ≡ self.old.inner) × (self.new.watch.nones ≡ self.old.watch.nones) × (self.new.watch.passed ≡ self.old.watch.passed) }
    {
        self.tally.refused.count(fault);
    }

    /// Counts a datagram by its fault, if it can't be read.
    fn count_refused(&mut self, datagram: &[u8])
        ensures counts { CountsRefused self.old.watch datagram.now self.new.watch }
        ensures kept { (self.new.inner ≡ self.old.inner) × (self.new.watch.nones ≡ self.old.watch.nones) × (self.new.watch.passed ≡ self.old.watch.passed) }
    {
        match check_datagram(datagram) {
            Ok(_) => {}
            Err(fault) => self.refuse(fault),
        }
    }

    /// A datagram came. Its length, where it is handed over; else it is passed over, and has 40 bytes at the most.
    #[tactic(auto, using(crate::proofs::Screened::unhanded_is_short))]
    fn screen(&mut self, datagram: &[u8]) -> Option<usize>
        requires { self.old.watch.passed < 256 }
        ensures screens { Screens self.old.watch datagram.now result self.new.watch }
        ensures whole { IfSome result (λ n. n ≡ length datagram.now) }
        ensures short { IfNone result (length datagram.now ≤ 40) }
        ensures kept { (self.new.inner ≡ self.old.inner) × (self.new.watch.nones ≡ self.old.watch.nones) }
        ensures passed { self.new.watch.passed ≡ passed_after (is_some result) self.old.watch.passed }
    {
        match read_frame(datagram) {
            Ok((frame, size)) if size == datagram.len() => {
                if !self.hear(&frame) {
                    return None;
                }
            }
            _ => self.count_refused(datagram),
        }
        Some(datagram.len())
    }

    /// What was held back is handed over.
    fn release(&mut self, nak: &Nak)
        ensures released { self.new.watch ≡ released self.old.watch (nak_of nak.now) }
        ensures kept { (self.new.inner ≡ self.old.inner) × (self.new.watch.nones ≡ self.old.watch.nones) }
    {
        self.miss(asked_bytes(nak.length));
        self.held = None;
    }

    /// Whether a frame begins below what was sent before this cycle.
    fn is_again(&self, frame: &Frame<'_>) -> bool
        ensures { result ≡ is_again self.now.watch (wire frame.now) }
    {
        let (Frame::Data { header, .. } | Frame::Pad { header, .. }) = *frame else {
            return false;
        };
        let offset = header.term_offset.cast_signed();
        let begin = self.sent.geometry().position(header.term_id, offset);
        is_below(begin, self.bounds.sent_to)
    }

    /// Counts a datagram that is given to be sent, perhaps again.
    fn count(&mut self, again: bool)
        ensures given { self.new.watch ≡ given self.old.watch again }
        ensures counted { self.new.watch.tally.datagrams ≡ plus_one self.old.watch.tally.datagrams }
        ensures kept { (self.new.inner ≡ self.old.inner) × (self.new.watch.nones ≡ self.old.watch.nones) }
    {
        self.tally.datagrams = self.tally.datagrams.wrapping_add(1);
        if again {
            self.tally.resends = self.tally.resends.wrapping_add(1);
        }
    }
}

impl<D: Datagrams> Attended<D> {
    /// Tells where its stream ends, once, by a farewell (`farewell_of`): there, or at the last position that the stream can
    /// have, if that is below. Whether the device fails isn't told.
    #[tactic(auto, using(crate::proofs::Farewells::gives_end))]
    pub fn tell_end(&mut self, end: StreamEnd)
        ensures { self.new.watch ≡ with_end self.old.watch end }
    {
        let farewell = farewell_bytes(&self.sent, end);
        let _ = self.send(&farewell);
    }

    /// Looks for a datagram. Where one is passed over, the buffer stays as it was.
    fn look(&mut self, buffer: &mut [u8]) -> Result<Found, DeviceFailed>
        requires room { self.old.watch.passed < 256 }
        ensures looks { LooksInto D.device D.tells self.old buffer.old result buffer.new self.new }
        ensures counts { NeverFall (watching_device (D.device self.old.inner) self.old.watch.nones) (watching_device (D.device self.new.inner) self.new.watch.nones) }
        ensures failures { CountsFailure result (D.device self.old.inner).failures (D.device self.new.inner).failures }
        ensures nones { CountsLook result self.old.watch.nones self.new.watch.nones }
        ensures filled { FillsLook result buffer.old buffer.new }
    {
        let front = front_of(buffer);
        let Some(size) = self.inner.recv(buffer)? else {
            self.find_none();
            return Ok(Found::Nothing);
        };
        let Some(handed) = self.screen(&buffer[..size]) else {
            put_back(buffer, &front, size);
            return Ok(Found::Passed);
        };
        Ok(Found::Handed(handed))
    }

    /// Looks until a datagram is found that is handed over, nothing has come, or 256 were passed over.
    fn find(&mut self, buffer: &mut [u8]) -> Result<Option<usize>, DeviceFailed>
        ensures counts { NeverFall (watching_device (D.device self.old.inner) self.old.watch.nones) (watching_device (D.device self.new.inner) self.new.watch.nones) }
        ensures receives { Receives ⊥ (watching_device (D.device self.old.inner) self.old.watch.nones) buffer.old result buffer.new (watching_device (D.device self.new.inner) self.new.watch.nones) }
        ensures finds { Finds D.device D.tells self.old buffer.old result buffer.new self.new }
    {
        for _ in self.passed..MOST_PASSED {
            match self.look(buffer)? {
                Found::Handed(size) => return Ok(Some(size)),
                Found::Passed => {}
                Found::Nothing => return Ok(None),
            }
        }
        self.find_none();
        Ok(None)
    }
}

impl<D: Datagrams> Datagrams for Attended<D> {
    ghost device = { λ a. watching_device (D.device a.inner) a.watch.nones };

    ghost tells = { λ _. ⊥ };

    ghost lives = { λ a b. Attends D.device D.tells a b };

    ghost lives_still = { λ a. attends_still D.device D.tells a };

    ghost lives_on = { λ a b c. attends_on D.device D.tells a b c };

    /// Hands a datagram to the inner device. Whether that fails or not, it counts by its first
    /// frame, and the end that this tells is noted.
    fn send(&mut self, datagram: &[u8]) -> Result<(), DeviceFailed>
        ensures counts { NeverFall (watching_device (D.device self.old.inner) self.old.watch.nones) (watching_device (D.device self.new.inner) self.new.watch.nones) }
        ensures sends { Sends ⊥ (watching_device (D.device self.old.inner) self.old.watch.nones) datagram.now result (watching_device (D.device self.new.inner) self.new.watch.nones) }
        ensures given { Gives self.old.watch datagram.now self.new.watch }
        ensures lives { Attends D.device D.tells self.old self.new }
        ensures counted { self.new.watch.tally.datagrams ≡ plus_one self.old.watch.tally.datagrams }
        ensures through { Sends (D.tells self.old.inner) (D.device self.old.inner) datagram.now result (D.device self.new.inner) }
        ensures inner_counts { NeverFall (D.device self.old.inner) (D.device self.new.inner) }
        ensures inner_tells { D.tells self.old.inner → D.tells self.new.inner }
    {
        match read_frame(datagram) {
            Ok((frame, _size)) => {
                let again = self.is_again(&frame);
                self.count(again);
                if let Some(end) = end_told(&frame, self.sent.session(), self.sent.stream()) {
                    self.ends = Some(with_told(self.ends, end));
                }
            }
            Err(_) => self.count(false),
        }
        self.inner.send(datagram)
    }

    /// Hands over what was held back, where it is due, or what the inner device does and the screen doesn't pass over.
    fn recv(&mut self, buffer: &mut [u8]) -> Result<Option<usize>, DeviceFailed>
        ensures counts { NeverFall (watching_device (D.device self.old.inner) self.old.watch.nones) (watching_device (D.device self.new.inner) self.new.watch.nones) }
        ensures receives { Receives ⊥ (watching_device (D.device self.old.inner) self.old.watch.nones) buffer.old result buffer.new (watching_device (D.device self.new.inner) self.new.watch.nones) }
        ensures takes { Takes D.device D.tells (due_of self.old.watch) self.old buffer.old result buffer.new self.new }
        ensures lives { Attends D.device D.tells self.old self.new }
    {
        if let Some(nak) = self.due() {
            self.release(&nak);
            return Ok(Some(put_nak(nak, buffer)));
        }
        self.find(buffer)
    }

    fn failures(&self) -> u64 {
        self.inner.failures()
    }

    fn nones(&self) -> u64 {
        self.nones
    }
}
