//! The receivers that were heard, and how and when a publisher ends by that.

ghost use Rattle.std.specs.Prelude.{◌≡◌, ◌↔◌, ℕ, ℤ, List, Option, Some};
ghost use Rattle.peer.specs.Attending.{after_all, after_heard, after_status, nobody};
ghost use Rattle.peer.specs.Endings.{IsWhole, ending_of, is_one, is_silent, is_told, is_whole, patience};
ghost use Rattle.peer.specs.declared.attendance.Ending.TheVariants.{Whole};

/// A receiver, and the positions that its status messages told, in bytes of the stream.
#[derive(Clone, Copy, Debug, PartialEq, Eq)]
pub struct Heard {
    pub receiver: i64,
    /// What it told first: where it joined, if that message wasn't lost.
    pub first: u64,
    /// The greatest that it told.
    pub last: u64,
}

/// The receivers that were heard.
///
/// A receiver is known by its id alone. That all that one id tells is told of one image is the subscriber's promise: it takes
/// a new id for each new image.
#[derive(Clone, Copy, Debug, PartialEq, Eq)]
pub struct Attendance {
    /// Where the stream begins.
    pub start: u64,
    /// The receiver that was heard last.
    pub present: Option<Heard>,
    /// The other one that was heard before it.
    pub left: Option<Heard>,
    /// How many times another receiver was heard than just before. At the greatest `u64` it stays.
    pub changes: u64,
}

/// How a publisher ends.
#[derive(Clone, Copy, Debug, PartialEq, Eq)]
pub enum Ending {
    /// There was nothing to deliver; or one receiver joined at the start and has told the stream's tail, and no other was
    /// heard.
    Whole,
    /// The tail was told, but not by one that was alone and joined at the start; or nothing was heard for too long.
    Short,
}

/// A receiver that is heard for the first time.
fn newcomer(receiver: i64, position: u64) -> Heard
    ensures { result ≡ record { receiver = receiver; first = position; last = position } }
{
    Heard {
        receiver,
        first: position,
        last: position,
    }
}

impl Attendance {
    /// Nobody was heard yet of a stream that begins here.
    pub fn new(start: u64) -> Attendance
        ensures { result ≡ nobody start }
    {
        Attendance {
            start,
            present: None,
            left: None,
            changes: 0,
        }
    }

    /// Notes that a status message of this receiver has told this position.
    pub fn hear(&mut self, receiver: i64, position: u64)
        ensures { self.new ≡ after_status self.old receiver position }
    {
        match self.present {
            None => self.present = Some(newcomer(receiver, position)),
            Some(heard) => self.hear_another(heard, receiver, position),
        }
    }

    /// Notes it, where this one was heard last.
    fn hear_another(&mut self, heard: Heard, receiver: i64, position: u64)
        ensures { self.new ≡ after_heard self.old heard receiver position }
    {
        if heard.receiver == receiver {
            self.present = Some(Heard {
                last: heard.last.max(position),
                ..heard
            });
            return;
        }
        self.present = Some(newcomer(receiver, position));
        self.left = Some(heard);
        self.changes = self.changes.saturating_add(1);
    }

    /// Whether a publisher ends, and how. Its stream ends at `end`, if its input has ended. For `silence` nanoseconds no
    /// status message has come, or none since the begin, where silence is judged. It gives up after `wait` nanoseconds
    /// where nobody was ever heard, and after `linger` nanoseconds where somebody was, whether the input has ended or not.
    pub fn ending(
        &self,
        end: Option<u64>,
        silence: Option<u64>,
        linger: u64,
        wait: u64,
    ) -> Option<Ending>
        ensures { result ≡ ending_of self.now end silence linger wait }
    {
        if self.is_whole(end) {
            return Some(Ending::Whole);
        }
        if self.is_told(end) || self.is_silent(silence, linger, wait) {
            return Some(Ending::Short);
        }
        None
    }

    /// Whether its stream ends at `end`, and there was nothing to deliver, or one receiver was heard from the start to there,
    /// and no other.
    pub fn is_whole(&self, end: Option<u64>) -> bool
        ensures { result ≡ is_whole self.now end }
    {
        match end {
            None => false,
            Some(tail) => tail == self.start || self.is_one(tail),
        }
    }

    /// Whether one receiver was heard from the start to the tail, and no other.
    fn is_one(&self, tail: u64) -> bool
        ensures { result ≡ is_one self.now self.now.present tail }
    {
        match self.present {
            None => false,
            Some(heard) => { self.changes == 0 && heard.first == self.start && tail <= heard.last }
        }
    }

    /// Whether the one that was heard last has told the tail.
    pub fn is_told(&self, end: Option<u64>) -> bool
        ensures { result ≡ is_told self.now end }
    {
        match (end, self.present) {
            (Some(tail), Some(heard)) => tail <= heard.last,
            _ => false,
        }
    }

    /// Whether it was silent for too long.
    fn is_silent(&self, silence: Option<u64>, linger: u64, wait: u64) -> bool
        ensures { result ≡ is_silent self.now silence linger wait }
    {
        match silence {
            None => false,
            Some(silence) => self.patience(linger, wait) <= silence,
        }
    }

    /// How long a status message is waited for.
    fn patience(&self, linger: u64, wait: u64) -> u64
        ensures { result ≡ patience self.now.present linger wait }
    {
        match self.present {
            None => wait,
            Some(_) => linger,
        }
    }
}

/// A publisher ends whole exactly where its input has ended and nothing was to be delivered, or all status messages are of
/// one receiver, the first one tells the start, and one of them tells the tail.
pub fn one_from_the_start()
    ensures { (start : ℕ) (end silence : Option ℕ) (linger wait : ℕ) (messages : List (ℤ × ℕ)) → (ending_of (after_all (nobody start) messages) end silence linger wait ≡ Some Whole) ↔ IsWhole start end messages }
{}
