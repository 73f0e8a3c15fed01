//! What a publisher has seen and told.

ghost use Rattle.std.specs.Prelude.{◌≡◌, ◌||◌, not, nat_eq};
ghost use Rattle.publisher.specs.Progress.{end_to_tell, is_alone, is_back, is_broken, is_end_due, nothing_seen, seen, shown_at, shown_messages, told_of, with_end_told, with_work};

use crate::destination::Seen;
use flow_control::LIVE;
use options::SECOND;
use peer::{Attendance, Silence, StreamEnd};

/// Nanoseconds after which it is told that nobody was heard.
const ALONE: u64 = 5_000_000_000;

/// Nanoseconds from one telling of the stream's end to the next.
const END_INTERVAL: u64 = 100_000_000;

/// How often receivers had changed, since when no status message was noted and no call of the device worked, when counters
/// were told last and how many messages there were then, whether it was told that nobody was heard, and why the input
/// stopped, and when the stream's end was told last.
#[derive(Clone, Copy)]
pub struct Progress {
    changes: u64,
    pub statuses: Silence,
    worked: Silence,
    shown: u64,
    messages: u64,
    alone: bool,
    pub faulted: bool,
    pub ended: Option<u64>,
}

/// What the receiver that was heard last has told; before anybody was heard it is the start.
pub fn told_in(attendance: &Attendance) -> u64
    ensures { result ≡ told_of attendance.now }
{
    match attendance.present {
        None => attendance.start,
        Some(heard) => heard.last,
    }
}

impl Progress {
    /// Nothing was seen or told yet.
    pub fn new() -> Progress
        ensures { result ≡ nothing_seen }
    {
        Progress {
            changes: 0,
            statuses: Silence::new(),
            worked: Silence::new(),
            shown: 0,
            messages: 0,
            alone: false,
            faulted: false,
            ended: None,
        }
    }

    /// Sees what was heard up to a moment, in nanoseconds as all here. Whether receivers have changed.
    pub fn see(&mut self, cycle: &Seen, now: u64) -> bool
        ensures changed { result ≡ not (nat_eq cycle.now.attendance.changes self.old.changes) }
        ensures seen { self.new ≡ seen self.old cycle.now now }
    {
        let changed = cycle.attendance.changes != self.changes;
        self.changes = cycle.attendance.changes;
        self.statuses.see(cycle.tally.statuses, now);
        changed
    }

    /// Whether a status message is noted again, with which there are so many, behind more than five seconds without one.
    pub fn is_back(&self, statuses: u64, now: u64) -> bool
        ensures { result ≡ is_back self.now statuses now }
    {
        statuses != self.statuses.count && self.statuses.lasts(now) > LIVE
    }

    /// Sees how many calls of the device have worked. Whether none did for so long, in nanoseconds.
    pub fn is_broken(&mut self, worked: u64, linger: u64, now: u64) -> bool
        ensures broken { result ≡ is_broken self.old worked linger now }
        ensures seen { self.new ≡ with_work self.old worked now }
    {
        let works = self.worked.see(worked, now);
        !works && linger <= self.worked.lasts(now)
    }

    /// How many messages were accepted since counters were told, if they are to be told at this moment, as always at the last;
    /// then the next second begins.
    pub fn shows(&mut self, messages: u64, now: u64, last: bool) -> Option<u64>
        ensures due { result ≡ shown_messages self.old messages now last }
        ensures shown { self.new ≡ shown_at self.old messages now last }
    {
        if !last && now.saturating_sub(self.shown) < SECOND {
            return None;
        }
        let recent = messages.saturating_sub(self.messages);
        self.shown = now;
        self.messages = messages;
        Some(recent)
    }

    /// Whether it is to be told at this moment that nobody was heard. Once it was, it isn't again.
    pub fn is_alone(&mut self, attendance: &Attendance, now: u64) -> bool
        ensures due { result ≡ is_alone self.old attendance.now now }
        ensures told { self.new ≡ record self.old { alone = self.old.alone || result } }
    {
        let alone = !self.alone && attendance.present.is_none() && ALONE <= now;
        self.alone = self.alone || alone;
        alone
    }

    /// Whether the stream's end wasn't told for 100 ms.
    fn is_end_due(&self, now: u64) -> bool
        ensures { result ≡ is_end_due self.now now }
    {
        match self.ended {
            None => true,
            Some(ended) => END_INTERVAL <= now.saturating_sub(ended),
        }
    }

    /// The end that is to be told at this moment, where the input has ended and the stream was sent up to its end; then the
    /// next 100 ms begin.
    pub fn end_to_tell(
        &mut self,
        end: Option<StreamEnd>,
        sent_to: u64,
        now: u64,
    ) -> Option<StreamEnd>
        ensures due { result ≡ end_to_tell self.old end sent_to now }
        ensures told { self.new ≡ with_end_told self.old result now }
    {
        let end = end?;
        if sent_to < end.position || !self.is_end_due(now) {
            return None;
        }
        self.ended = Some(now);
        Some(end)
    }
}
