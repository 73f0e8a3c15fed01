//! A session that a subscriber follows.

ghost use Rattle.std.specs.Prelude.{◌≡◌, ◌≢◌, ◌≤◌, ◌-◌, ◌↔◌, ℕ, IfErr, IfOk, IsTrue, OnOk};
ghost use Rattle.std.specs.Io.KnownBytes.{Appends};
ghost use Rattle.endpoint.specs.declared.device_error.DeviceError.TheVariants.{Device, Memory};
ghost use Rattle.subscriber.specs.declared.fault.SubscribeFault.TheVariants.{Failed};
ghost use Rattle.receiver.specs.Receiving.{Receiver};
ghost use Rattle.receiver.specs.Subscribing.{RepresentsSubscriber};
ghost use Rattle.subscriber.specs.Answering.{AnswersEnd, NotesSilence, TellsPlace};
ghost use Rattle.subscriber.specs.Cuts.{cut_behind, cut_of, has_lost, is_uncut};
ghost use Rattle.subscriber.specs.Leavings.{ListensOn, LivesUnpolled, NotesHeard, NotesWork};
ghost use Rattle.subscriber.specs.Offers.{peer_of};
ghost use Rattle.subscriber.specs.Losing.{LacksWhereLost, NotesKept, NotesLoss};
ghost use Rattle.subscriber.specs.Standing.{HasAll, IsRebuiltTo, Stands, StandsAt, StandsHere, has_all_up_to, is_broken_end, is_broken_off, is_whole, lacks, lies_above};
ghost use Rattle.subscriber.specs.Telling.{AreCounts, IsUnfinished, TellsLine, TellsNow};
ghost use Rattle.subscriber.specs.Texts.{another_line, ended_line, lost_line, silence_line, unheard_line};
ghost use Rattle.subscriber.specs.Choosing.{IsOver, is_unheard};
ghost use Rattle.subscriber.specs.Turning.{CameAt, IsUnheardYet, Warns};
ghost use Rattle.subscriber.specs.Endings.{IsDone};
ghost use Rattle.subscriber.specs.Watches.{IsBroken, IsWithinTurn, judging};

use crate::fault::SubscribeFault;
use crate::images::follower::Follower;
use crate::images::session_device::SubscriberDevice;
use crate::images::session_watch::SessionWatch;
use crate::images::{CutOff, Images, Loss, Unheard, first_cut};
use crate::listening::setup_offer::{ImageParams, SetupOffer};
use crate::reporting::{Counted, Counts, Line, SessionId, Unfinished, tell};
use crate::watch::Watch;
use agents::{Duty, REPLY};
use endpoint::DeviceError;
use options::SECOND;
use peer::StreamEnd;
use receiver::STATUS_INTERVAL;
use std::io;
use std::io::Write;
use std::net::SocketAddr;

/// Where a subscriber with an image stands, in bytes of the stream.
#[derive(Clone, Copy, Debug, PartialEq, Eq)]
pub struct Stand {
    /// Where its consumer stands: all before that is polled.
    pub place: u64,
    /// How far its image is rebuilt without a gap.
    pub rebuilt: u64,
    /// The greatest end that was told.
    pub end: Option<StreamEnd>,
}

impl Stand {
    /// Whether it has all of the stream: an end was told that isn't below what is rebuilt, and its consumer has come so far.
    pub(crate) fn has_all(&self) -> bool
        ensures all { IsTrue result ↔ HasAll self.now }
        ensures value { result ≡ has_all_up_to self.now.end self.now.rebuilt self.now.place }
    {
        match self.end {
            None => false,
            Some(end) => self.rebuilt <= end.position && end.position <= self.place,
        }
    }

    /// Whether the stream is broken off at the end that was told.
    fn is_broken(&self) -> bool
        ensures { result ≡ is_broken_end self.now.end }
    {
        match self.end {
            None => false,
            Some(end) => end.broken,
        }
    }

    /// Whether it has all of a stream that is broken off at its end.
    pub(crate) fn is_broken_off(&self) -> bool
        ensures { result ≡ is_broken_off self.now }
    {
        self.has_all() && self.is_broken()
    }

    /// Whether it has all of a stream that isn't broken off.
    pub(crate) fn is_whole(&self) -> bool
        ensures { result ≡ is_whole self.now }
    {
        self.has_all() && !self.is_broken()
    }
}

/// A session that is followed: its image, its device, which is tied to the publisher, and what was told of it.
#[derive(Drop)]
pub struct Session {
    /// What opened the image.
    pub opening: ImageParams,
    pub images: Images,
    pub follower: Follower,
    pub duty: Duty<SubscriberDevice>,
    /// When it was heard, and when its image got on.
    pub watch: SessionWatch,
    /// Whether it was told that the image is lost.
    pub lost: bool,
    /// Whether its session's silence was told.
    pub silent: bool,
    /// Whether another sender of its session was told.
    pub warned: bool,
    /// Whether all up to its session's told end is written.
    pub ended: bool,
    /// Other sessions that were told as not heard.
    pub unheard: Unheard,
    /// When its image was opened, in nanoseconds from the subscriber's begin.
    pub opened: u64,
    /// When it came: then, too, but behind one that wasn't heard when that one came.
    pub came: u64,
    /// Where it stood at the end of its last turn.
    pub stood: Stand,
}

/// Whether a position lies above what is rebuilt.
pub(crate) fn lies_above(position: i64, rebuilt: u64) -> bool
    ensures { result ≡ lies_above position rebuilt }
{
    match u64::try_from(position) {
        Ok(position) => rebuilt < position,
        Err(_) => false,
    }
}

/// A law: an image is newly taken for lost only where its turn's cycle rebuilt nothing more, and something is lacking.
pub fn lacks_where_lost()
    ensures { LacksWhereLost }
{}

impl Session {
    /// Where its consumer stands, in bytes of the stream: 0 without an image.
    pub fn place(&self) -> u64
        ensures { (r : Receiver) → RepresentsSubscriber self.now.follower.subscriber r → StandsAt r.image result }
    {
        match self.follower.subscriber.positions() {
            None => 0,
            Some(positions) => positions.least,
        }
    }

    /// How far its image is rebuilt without a gap, in bytes of the stream: 0 without an image.
    pub fn rebuilt(&self) -> u64
        ensures { (r : Receiver) → RepresentsSubscriber self.now.follower.subscriber r → IsRebuiltTo r.image result }
    {
        match self.follower.subscriber.positions() {
            None => 0,
            Some(positions) => positions.rebuilt,
        }
    }

    /// Where it stands.
    pub(crate) fn stand(&self) -> Stand
        ensures { Stands self.now.follower.subscriber self.now.follower.end result }
    {
        let end = self.follower.end;
        Stand {
            place: self.place(),
            rebuilt: self.rebuilt(),
            end,
        }
    }

    /// Whether a stream at its place is cut off.
    pub fn has_lost(&self) -> bool
        ensures { result ≡ has_lost self.now }
    {
        self.cut_off().is_some()
    }

    /// The first stream at its place that is cut off, where its image stands: one of before, or its own, where that was told as
    /// lost, or is there up to an end at which it is broken off.
    pub fn cut_off(&self) -> Option<CutOff>
        ensures { result ≡ cut_of self.now }
    {
        let own = CutOff {
            session: self.opening.session,
            position: self.stood.place,
        };
        first_cut(
            self.images.cut,
            self.lost || self.stood.is_broken_off(),
            own,
        )
    }

    /// Whether its image, which stands so, may be closed with nothing of its stream cut off: it wasn't told as lost, nothing is missing
    /// behind it, and its stream was never heard, or is whole.
    fn is_uncut(&self, stand: &Stand, loss: Option<Loss>) -> bool
        ensures { result ≡ is_uncut self.now stand.now loss }
    {
        !self.lost && loss.is_none() && (!self.follower.heard || stand.is_whole())
    }

    /// The first stream at its place that is cut off once its image is closed, behind which this is missing.
    pub(crate) fn cut_behind(&self, loss: Option<Loss>) -> Option<CutOff>
        ensures { (x : Stand) × Stands self.now.follower.subscriber self.now.follower.end x × (result ≡ cut_behind self.now x loss) }
    {
        let stand = self.stand();
        let own = CutOff {
            session: self.opening.session,
            position: stand.place,
        };
        first_cut(self.images.cut, !self.is_uncut(&stand, loss), own)
    }

    /// Whether its stream has ended, and no frame of it has come for a second.
    pub(crate) fn is_over(&self) -> bool
        ensures { IsTrue result ↔ IsOver self.now }
    {
        self.ended && self.watch.is_still()
    }

    /// Whether no frame of it has come yet, nor an end of its stream.
    pub(crate) fn is_unheard(&self) -> bool
        ensures unheard { IsTrue result ↔ IsUnheardYet self.now }
        ensures value { result ≡ is_unheard self.now }
    {
        self.duty.device().notes().last.is_none() && self.follower.end.is_none()
    }

    /// Its peer.
    pub(crate) fn peer(&self) -> SocketAddr
        ensures { result ≡ peer_of self.now.duty.device }
    {
        self.duty.device().peer()
    }

    /// Notes that a frame of the session came, where the device has counted another number than before.
    pub(crate) fn note_heard(&mut self, before: u64)
        ensures heard { NotesHeard before self.old.duty.device.notes.frames self.old.watch self.new.watch }
        ensures moment { self.new.watch.moment ≡ self.old.watch.moment }
        ensures turn { IsWithinTurn self.old.watch self.new.watch }
        ensures same { self.new ≡ record self.old { watch = self.new.watch } }
    {
        if self.duty.device().notes().frames != before {
            self.watch.hear();
        }
    }

    /// How many datagrams were sent.
    pub(crate) fn calls_worked(&self) -> u64
        ensures { result ≡ self.now.duty.device.inner.inner.worked }
    {
        self.duty.device().inner().inner().worked()
    }

    /// Notes whether one was sent since so many were. The fault comes where no call of the socket has worked for 5 seconds.
    pub(crate) fn check_works(&self, watch: &mut Watch, before: u64) -> Result<(), DeviceError>
        ensures noted { NotesWork before self.now.duty.device.inner.inner.worked watch.old watch.new }
        ensures moment { watch.new.moment ≡ watch.old.moment }
        ensures works { OnOk result (¬ IsBroken watch.new) }
        ensures broken { IfErr result (λ fault. (fault ≡ Device) × IsBroken watch.new) }
    {
        if self.calls_worked() != before {
            watch.work();
        }
        watch.check_works()
    }

    /// Notes whether nothing is lacking, or something that was lacking came: the image was rebuilt up to here before.
    pub fn note_kept(&mut self, before: u64)
        ensures notes { NotesKept before self.new self.old.watch self.new.watch }
        ensures noted { IsTrue self.new.watch.noted }
        ensures moment { self.new.watch.moment ≡ self.old.watch.moment }
        ensures turn { IsWithinTurn self.old.watch self.new.watch }
        ensures same { self.new ≡ record self.old { watch = self.new.watch } }
    {
        let rebuilt = self.rebuilt();
        let kept = rebuilt != before || !self.lacks(rebuilt);
        self.watch.note(kept);
    }

    /// Whether the last frame that was heard of its session begins above this position, up to which its image is rebuilt.
    pub fn lacks(&self, rebuilt: u64) -> bool
        ensures { result ≡ lacks self.now.opening.geometry self.now.duty.device.notes.last rebuilt }
    {
        let Some(frame) = self.duty.device().notes().last else {
            return false;
        };
        let header = frame.header();
        let offset = header.term_offset.cast_signed();
        lies_above(
            self.opening.geometry.position(header.term_id, offset),
            rebuilt,
        )
    }

    /// Judges, behind `note_kept`, whether the image is lost. The answer is whether that is new.
    pub fn judge(&mut self) -> bool
        ensures noted { NotesLoss self.old self.new }
        ensures is_new { IsTrue result ↔ (self.new.lost ≢ self.old.lost) }
        ensures same { self.new ≡ record self.old { lost = self.new.lost; watch = judging self.old.watch } }
    {
        self.watch.judge();
        if self.lost || self.ended || !self.watch.is_behind() {
            return false;
        }
        self.lost = true;
        true
    }

    /// Judges whether the image is lost, and tells that once. That is the judgement of this turn.
    pub(crate) fn tell_loss<E: Write>(&mut self, errors: &mut E) -> io::Result<()>
        ensures noted { NotesLoss self.old self.new }
        ensures same { self.new ≡ record self.old { lost = self.new.lost; watch = judging self.old.watch } }
        ensures told { self.new.lost ≢ self.old.lost → (place : ℕ) × StandsHere self.old.follower.subscriber place × OnOk result (Appends (E.contents errors.old) (E.contents errors.new) (lost_line self.old.opening.session place)) }
        ensures quiet { self.new.lost ≡ self.old.lost → OnOk result (E.contents errors.new ≡ E.contents errors.old) }
    {
        if !self.judge() {
            return Ok(());
        }
        tell(
            errors,
            Line::Lost(SessionId(self.opening.session), self.place()),
        )
    }

    /// Tells once that the session is silent, and once that it goes on; of a stream that has ended neither.
    pub(crate) fn tell_silence<E: Write>(&mut self, errors: &mut E) -> io::Result<()>
        ensures noted { NotesSilence self.old self.new }
        ensures same { self.new ≡ record self.old { silent = self.new.silent } }
        ensures told { self.new.silent ≢ self.old.silent → (place : ℕ) × StandsHere self.old.follower.subscriber place × OnOk result (Appends (E.contents errors.old) (E.contents errors.new) (silence_line self.new.silent self.old.opening.session place)) }
        ensures quiet { self.new.silent ≡ self.old.silent → OnOk result (E.contents errors.new ≡ E.contents errors.old) }
    {
        let silent = self.watch.is_silent();
        if self.ended || silent == self.silent {
            return Ok(());
        }
        self.silent = silent;
        tell_change(errors, silent, self.opening.session, self.place())
    }

    /// A cycle without polls at a moment that is ahead of this one by 200 ms, so that a status message is due. Whether it was busy.
    pub(crate) fn tell_place(&mut self, moment: u64) -> Result<bool, SubscribeFault>
        requires { self.old.duty.mtu ≡ REPLY }
        ensures size { self.new.duty.mtu ≡ self.old.duty.mtu }
        ensures same { self.new ≡ record self.old { follower = self.new.follower; duty = self.new.duty } }
        ensures unpolled { LivesUnpolled self.old.follower.subscriber self.new.follower.subscriber }
        ensures listens { OnOk result (ListensOn self.old.follower self.new.follower) }
        ensures told { OnOk result (TellsPlace moment self.old.follower.subscriber self.new.follower.subscriber) }
        ensures refused { IfErr result (λ fault. fault ≡ Failed Memory) }
    {
        let ahead = moment.saturating_add(STATUS_INTERVAL);
        Ok(self.duty.cycle(&mut self.follower, ahead)?)
    }

    /// Notes whether all of the stream is written, and tells it where that is new.
    fn note_all<E: Write>(&mut self, stand: &Stand, errors: &mut E) -> io::Result<()>
        ensures noted { IsTrue self.new.ended ↔ HasAll stand.now }
        ensures same { self.new ≡ record self.old { ended = self.new.ended } }
        ensures told { IsTrue self.new.ended → (¬ IsTrue self.old.ended) → OnOk result (Appends (E.contents errors.old) (E.contents errors.new) (ended_line (is_broken_end stand.now.end) self.old.opening.session stand.now.place)) }
        ensures quiet { (IsTrue self.new.ended → IsTrue self.old.ended) → OnOk result (E.contents errors.new ≡ E.contents errors.old) }
    {
        let before = self.ended;
        self.ended = stand.has_all();
        if before || !self.ended {
            return Ok(());
        }
        tell_end(errors, stand.is_broken(), self.opening.session, stand.place)
    }

    /// Where all of the stream is newly written up to its told end, that is told, and to the publisher, too, at once.
    pub(crate) fn answer_end<E: Write>(&mut self, errors: &mut E) -> Result<Stand, SubscribeFault>
        requires { self.old.duty.mtu ≡ REPLY }
        ensures size { self.new.duty.mtu ≡ self.old.duty.mtu }
        ensures images { self.new.images ≡ self.old.images }
        ensures same { self.new ≡ record self.old { follower = self.new.follower; duty = self.new.duty; ended = self.new.ended; watch = self.new.watch } }
        ensures unpolled { LivesUnpolled self.old.follower.subscriber self.new.follower.subscriber }
        ensures listens { OnOk result (ListensOn self.old.follower self.new.follower) }
        ensures answers { IfOk result (AnswersEnd self.old.watch.moment self.old self.new) }
        ensures refused { IfErr result (λ fault. fault ≡ Failed Memory) }
        ensures heard { OnOk result (NotesHeard self.old.duty.device.notes.frames self.new.duty.device.notes.frames self.old.watch self.new.watch) }
        ensures turn { IsWithinTurn self.old.watch self.new.watch }
    {
        let stand = self.stand();
        let before = self.ended;
        let _ = self.note_all(&stand, errors);
        if before || !self.ended {
            return Ok(stand);
        }
        let frames = self.duty.device().notes().frames;
        let now = self.watch.moment();
        self.tell_place(now)?;
        self.note_heard(frames);
        Ok(self.stand())
    }

    /// Tells once that another than the peer sent a SETUP of the session, and once of each of up to 16 other sessions.
    pub(crate) fn warn<E: Write>(&mut self, meeting: &SetupOffer, errors: &mut E) -> io::Result<()>
        ensures warns { Warns meeting.now self.old self.new }
        ensures told { self.new.warned ≢ self.old.warned → OnOk result (Appends (E.contents errors.old) (E.contents errors.new) (another_line meeting.now.opening.session meeting.now.from)) }
        ensures named { self.new.unheard ≢ self.old.unheard → OnOk result (Appends (E.contents errors.old) (E.contents errors.new) (unheard_line meeting.now.opening.session meeting.now.from self.old.opening.session)) }
        ensures quiet { self.new ≡ self.old → OnOk result (E.contents errors.new ≡ E.contents errors.old) }
    {
        let session = meeting.opening.session;
        if meeting.is_unheard(self) {
            self.unheard.name(session);
            let own = SessionId(self.opening.session);
            return tell(errors, Line::Unheard(SessionId(session), meeting.from, own));
        }
        if self.warned || !meeting.is_another(self) {
            return Ok(());
        }
        self.warned = true;
        tell(errors, Line::Another(SessionId(session), meeting.from))
    }

    /// What the counters show behind so many messages, of which so many came since they were told last.
    fn counts(&self, watch: &Watch, written: u64, since: u64) -> Counts
        ensures { AreCounts self.now watch.now written since result }
    {
        let device = self.duty.device();
        let lost = device.inner().inner().lost();
        Counts {
            messages: written,
            since,
            naks: device.naks(),
            lost: watch.lost().saturating_add(lost),
            strangers: watch.strangers(),
            refused: self.follower.subscriber.refused(),
        }
    }

    /// Tells the counters behind so many messages, of which so many came since they were told last; without an image nothing.
    pub(crate) fn tell_counters<E: Write>(
        &self,
        errors: &mut E,
        watch: &Watch,
        written: u64,
        since: u64,
    ) -> io::Result<()>
        ensures { TellsNow self.now watch.now written since (λ p c. OnOk result (TellsLine p self.now.opening.session c (E.contents errors.old) (E.contents errors.new))) }
    {
        let counts = self.counts(watch, written, since);
        match self.follower.subscriber.positions() {
            None => Ok(()),
            Some(positions) => {
                let id = SessionId(self.opening.session);
                tell(errors, Line::Counters(id, Counted(positions, counts)))
            }
        }
    }

    /// Its peer, where it stands, and the end that was told.
    pub(crate) fn unfinished(&self) -> Unfinished
        ensures { IsUnfinished self.now result }
    {
        Unfinished {
            from: self.peer(),
            session: self.opening.session,
            position: self.place(),
            end: self.follower.end.map(|end| end.position),
        }
    }

    /// How many bytes of its newest image's stream its consumer has come past.
    pub(crate) fn bytes(&self) -> u64
        ensures { (place : ℕ) × StandsHere self.now.follower.subscriber place × (result ≡ place - self.now.opening.position) }
    {
        self.place().saturating_sub(self.opening.position)
    }

    /// How many negative acknowledgements it has sent.
    pub(crate) fn naks(&self) -> u64
        ensures { result ≡ self.now.duty.device.naks }
    {
        self.duty.device().naks()
    }

    /// Whether it has all of its stream, as far as it was heard at all.
    pub(crate) fn is_done(&self) -> bool
        ensures { IsTrue result ↔ IsDone self.now }
    {
        self.stood.has_all() || self.is_unheard()
    }

    /// Whether it came a second ago or earlier.
    pub(crate) fn is_settling(&self) -> bool
        ensures { IsTrue result ↔ (1000000000 ≤ self.now.watch.moment - self.now.came) }
    {
        self.watch.moment().saturating_sub(self.came) >= SECOND
    }

    /// When the next session at its place comes, whose SETUP came now. Of those that come and go without a frame an end waits for
    /// the first alone.
    pub(crate) fn next_came(&self, now: u64) -> u64
        ensures { CameAt now self.now result }
    {
        if self.is_unheard() { self.came } else { now }
    }
}

/// Tells that all of a session's stream is written up to its end, at which it may be broken off.
fn tell_end<E: Write>(errors: &mut E, broken: bool, session: i32, place: u64) -> io::Result<()>
    ensures { OnOk result (Appends (E.contents errors.old) (E.contents errors.new) (ended_line broken session place)) }
{
    let id = SessionId(session);
    if broken {
        tell(errors, Line::BrokenOff(id, place))
    } else {
        tell(errors, Line::Ended(id, place))
    }
}

/// Tells that the session is silent, or that it goes on.
fn tell_change<E: Write>(errors: &mut E, silent: bool, session: i32, place: u64) -> io::Result<()>
    ensures { OnOk result (Appends (E.contents errors.old) (E.contents errors.new) (silence_line silent session place)) }
{
    let id = SessionId(session);
    if silent {
        tell(errors, Line::Silent(id, place))
    } else {
        tell(errors, Line::Again(id, place))
    }
}
