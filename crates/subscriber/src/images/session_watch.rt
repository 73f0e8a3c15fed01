//! The time in which a session was heard, or not.

ghost use Rattle.std.specs.Prelude.{◌≡◌, ◌≤◌, ◌-◌, ◌↔◌, IsTrue};
ghost use Rattle.subscriber.specs.Watches.{IsBehind, IsHearing, IsQuiet, IsSilent, attending, beginning, hearing, judging, keeping, looking, noting};

use crate::watch::later_by;
use options::{SECOND, SubscribePlan};
use std::marker::Model;

/// Nanoseconds after which a session is silent, and after which an image that lacks something is lost.
const SILENCE: u64 = 10_000_000_000;

/// When a session was heard, and when its image got on. All moments are in nanoseconds from the subscriber's begin.
///
/// It is heard by a DATA frame, a padding or a heartbeat of its stream from its peer, and by the SETUP that opened its image.
#[derive(Drop)]
pub struct SessionWatch {
    moment: u64,
    heard: u64,
    kept: u64,
    turns: u64,
    attended: u64,
    judged: u64,
    noted: bool,
}

impl Model for SessionWatch {
    ghost use Rattle.subscriber.specs.Watches.{Seen};

    ghost Value = { Seen };

    ghost view = { λ w. record { moment = w.moment; heard = w.heard; kept = w.kept; turns = w.turns; attended = w.attended; judged = w.judged; noted = w.noted } };
}

impl SessionWatch {
    /// Of a session whose image was opened at a moment.
    pub fn new(moment: u64) -> SessionWatch
        ensures { result ≡ beginning moment }
    {
        SessionWatch {
            moment,
            heard: moment,
            kept: moment,
            turns: 0,
            attended: 0,
            judged: 0,
            noted: false,
        }
    }

    /// A turn begins at a moment, at which the clock was looked at.
    pub fn begin_turn(&mut self, now: u64)
        ensures { self.new ≡ looking self.old now }
    {
        self.heard = later_by(self.moment, now, self.heard);
        self.kept = later_by(self.moment, now, self.kept);
        self.moment = now;
        self.turns = self.turns.wrapping_add(1);
        self.noted = false;
    }

    /// What came of SETUPs in this turn was attended.
    pub fn attend(&mut self)
        ensures { self.new ≡ attending self.old }
    {
        self.attended = self.attended.wrapping_add(1);
    }

    /// It was noted in this turn what the image lacks: nothing at the moment, or something that was lacking came at it, or neither.
    pub(crate) fn note(&mut self, kept: bool)
        ensures { self.new ≡ noting kept self.old }
    {
        if kept {
            self.kept = self.moment;
        }
        self.noted = true;
    }

    /// Whether the image is lost was judged in this turn. That counts where it was noted before what the image lacks.
    pub(crate) fn judge(&mut self)
        ensures { self.new ≡ judging self.old }
    {
        if self.noted {
            self.judged = self.judged.wrapping_add(1);
        }
    }

    /// The moment of its turn.
    pub fn moment(&self) -> u64
        ensures { result ≡ self.now.moment }
    {
        self.moment
    }

    /// A frame of it came at the moment. Behind a second without one the time in which something is lacking begins anew.
    pub fn hear(&mut self)
        ensures { self.new ≡ hearing self.old }
    {
        if self.moment.saturating_sub(self.heard) >= SECOND {
            self.kept = self.moment;
        }
        self.heard = self.moment;
    }

    /// Nothing is lacking at the moment, or something that was lacking came at it.
    pub fn keep(&mut self)
        ensures { self.new ≡ keeping self.old }
    {
        self.kept = self.moment;
    }

    /// Whether no frame of it has come for as long as the plan says.
    pub fn is_quiet(&self, plan: &SubscribePlan) -> bool
        ensures { IsTrue result ↔ IsQuiet plan.now self.now }
    {
        self.moment.saturating_sub(self.heard) >= plan.quiet
    }

    /// Whether none has come for a second.
    pub fn is_still(&self) -> bool
        ensures { IsTrue result ↔ (1000000000 ≤ self.now.moment - self.now.heard) }
    {
        self.moment.saturating_sub(self.heard) >= SECOND
    }

    /// Whether none has come for 10 seconds.
    pub fn is_silent(&self) -> bool
        ensures { IsTrue result ↔ IsSilent self.now }
    {
        self.moment.saturating_sub(self.heard) >= SILENCE
    }

    /// Whether nothing that is lacking has come for 10 seconds, in which it was heard each second.
    pub fn is_behind(&self) -> bool
        ensures { IsTrue result ↔ IsBehind self.now }
    {
        self.moment.saturating_sub(self.kept) >= SILENCE
            && self.moment.saturating_sub(self.heard) < SECOND
    }

    /// Whether a frame of it came at the moment.
    pub fn is_hearing(&self) -> bool
        ensures { IsTrue result ↔ IsHearing self.now }
    {
        self.heard == self.moment
    }
}
