ghost use Rattle.std.specs.Prelude.{◌≡◌, ◌≤◌, ◌+◌, ◌*◌, ◌/◌, ◌-◌, ◌||◌, nat_lt, nat_le, nat_eq, IfOk, Some, None, IsTrue, ◌↔◌};
ghost use Rattle.theory.specs.Position.{IsGeometry, max_position};
ghost use Rattle.std.specs.Prelude.{◌∷◌, ◌<◌, false, length as count};
ghost use Rattle.std.specs.List.{list_any};
ghost use Rattle.std.specs.Option.{option_map};
ghost use Rattle.theory.specs.Timing.{seen};
ghost use Rattle.theory.specs.Resend.{first_due, first_resent, kept, range_end, resend_range, nak_answer_at, nak_answer_by, answered as answered_by};
ghost use Rattle.position.specs.Gaps.{gap_of};
ghost use Rattle.sender.specs.Resending.Answers as answers;
ghost use Rattle.sender.specs.Resending.Handler.{fresh, after_note, after_nak, nak_answer_of, after_due, due_range, starts_at, action_of};

use crate::retransmit::action::Action;
use crate::retransmit::actions::{asks_for, first_waiting, forget_until, linger_until};
use crate::retransmit::answer::NakResult;
use crate::retransmit::starts::{first_from, first_in, forget_below};
use position::{Gap, Geometry};
use std::alloc::{AllocError, Global};
use std::collections::VecDeque;
use std::marker::Model;

/// How many actions are kept at the most.
const ACTIONS: usize = 16;

/// Nanoseconds for which an answered action is kept.
const LINGER: u64 = 60_000_000;

/// Takes negative acknowledgements, and tells what is to be sent again.
#[derive(Drop)]
pub struct Retransmit {
    geometry: Geometry,
    start: u64,
    at: u64,
    clock: u64,
    starts: VecDeque<u64>,
    actions: Vec<Action>,
}

impl Model for Retransmit {
    ghost use Rattle.std.specs.Prelude.{map, vec_capacity};
    ghost use Rattle.std.specs.VecDeque.{deque_capacity};
    ghost use Rattle.sender.specs.Resending.Handler.{Handler, IsHandler, action_of};

    ghost Value = { Handler };

    ghost view = { λ r. record { geometry = r.geometry; start = r.start; at = r.at; clock = r.clock; starts = r.starts.items; actions = map action_of r.actions.items } };

    ghost invariant = { λ r. IsHandler r.geometry r.start r.at r.starts.items (deque_capacity r.starts) r.actions.items (vec_capacity r.actions) };
}

impl Retransmit {
    /// A handler for a stream whose first frame will start at this position. The error comes only where memory was
    /// refused.
    pub fn new(alloc: Global, geometry: Geometry, start: u64) -> Result<Retransmit, AllocError>
        requires { start ≤ max_position geometry }
        ensures { IfOk result (λ r. r ≡ fresh geometry start) }
    {
        let reach = geometry.term_length() / 4 * 3;
        Ok(Retransmit {
            geometry,
            start,
            at: start,
            clock: 0,
            starts: VecDeque::with_capacity(alloc, reach as usize / 32)?,
            actions: Vec::with_capacity(alloc, ACTIONS)?,
        })
    }

    /// The end of the last frame that was noted, or the start.
    pub fn position(&self) -> u64
        ensures value { result ≡ self.now.at }
        ensures in_stream { result ≤ max_position self.now.geometry }
    {
        self.at
    }

    /// The bytes behind the sender that can be asked for.
    fn reach(&self) -> u64
        ensures { result ≡ 3 * self.now.geometry.term_length / 4 }
    {
        u64::from(self.geometry.term_length()) / 4 * 3
    }

    /// Notes a frame that was sent, the next of the stream: where it starts and where it ends. The
    /// starts that can't be asked for any more are forgotten.
    pub fn note(&mut self, start: u64, end: u64)
        requires next { start ≡ self.old.at }
        requires further { start + 32 ≤ end }
        requires in_stream { end ≤ max_position self.old.geometry }
        ensures { self.new ≡ after_note self.old start end }
    {
        let from = end.saturating_sub(self.reach());
        self.at = end;
        forget_below(&mut self.starts, from);
        if start >= from {
            self.starts.push_back_reserved(start);
        }
    }

    /// Judges a negative acknowledgement of so many bytes from a position on, at a moment in nanoseconds. What was
    /// answered 60 ms ago or before is forgotten first. A moment before one that was seen counts as that one.
    pub fn on_nak(&mut self, now: u64, position: i64, length: i32) -> NakResult
        ensures answer { answers.nak_result result ≡ nak_answer_of self.old now position length }
        ensures state { self.new ≡ after_nak self.old now position length }
    {
        self.see(now);
        self.forget();
        let answer = self.judge(position, length);
        if answer == NakResult::Taken {
            self.take(position as u64, length as u32);
        }
        answer
    }

    /// Sees a moment.
    fn see(&mut self, now: u64)
        ensures { self.new ≡ record self.old { clock = seen self.old.clock now } }
    {
        self.clock = self.clock.max(now);
    }

    /// Forgets the actions that have lingered long enough.
    fn forget(&mut self)
        ensures { self.new ≡ record self.old { actions = kept self.old.clock self.old.actions } }
    {
        forget_until(&mut self.actions, self.clock);
    }

    /// Keeps an action more.
    fn take(&mut self, at: u64, length: u32)
        requires { count self.old.actions < 16 }
        ensures { self.new ≡ record self.old { actions = record { at = at; length = length; lingers = false; until = 0 } ∷ self.old.actions } }
    {
        let action = Action {
            at,
            length,
            lingers: false,
            until: 0,
        };
        self.actions.insert(0, action).unwrap();
    }

    /// The first answer that applies, by the actions that are kept.
    fn judge(&self, position: i64, length: i32) -> NakResult
        ensures { answers.nak_result result ≡ nak_answer_by self.now.geometry self.now.start self.now.at (starts_at self.now.starts) self.now.actions position length }
    {
        if length <= 0 || position < 0 {
            return NakResult::OutOfRange;
        }
        self.judge_at(position as u64)
    }

    fn judge_at(&self, at: u64) -> NakResult
        ensures { answers.nak_result result ≡ nak_answer_at self.now.geometry self.now.start self.now.at (starts_at self.now.starts) self.now.actions at }
    {
        if self.is_outside(at) {
            NakResult::OutOfRange
        } else if !self.starts_there(at) {
            NakResult::NotAFrameStart
        } else if self.is_kept(at) {
            NakResult::Lingering
        } else if self.actions.len() >= ACTIONS {
            NakResult::Full
        } else {
            NakResult::Taken
        }
    }

    /// Whether nothing at the position can be asked for.
    fn is_outside(&self, at: u64) -> bool
        ensures { result ≡ (nat_lt at self.now.start || nat_lt at (self.now.at - 3 * self.now.geometry.term_length / 4) || nat_le self.now.at at) }
    {
        at < self.start || at < self.at.saturating_sub(self.reach()) || at >= self.at
    }

    /// Whether a frame that is still known starts at the position.
    fn starts_there(&self, at: u64) -> bool
        ensures { result ≡ starts_at self.now.starts at }
    {
        match first_from(&self.starts, at) {
            Some(start) => start == at,
            None => false,
        }
    }

    /// Whether an action for the position is kept.
    fn is_kept(&self, at: u64) -> bool
        ensures { result ≡ list_any (λ a. nat_eq a.at at) self.now.actions }
    {
        asks_for(&self.actions, at)
    }

    /// The range that is due at a moment, in nanoseconds: that of the action that was taken first, from the first frame
    /// start in it. There is none where no action is due, or no frame starts in its range. The action is kept for 60 ms
    /// more in either case.
    pub fn due(&mut self, now: u64) -> Option<Gap>
        ensures range { gap_of result ≡ due_range self.old }
        ensures state { self.new ≡ after_due self.old now }
    {
        self.see(now);
        let action = self.first()?;
        self.linger(action);
        self.range(action)
    }

    /// The action that was taken first of those that aren't answered.
    fn first(&self) -> Option<Action>
        ensures { option_map action_of result ≡ first_due self.now.actions }
    {
        first_waiting(&self.actions)
    }

    /// From now on the action is answered, and forgotten after a while.
    fn linger(&mut self, answered: Action)
        ensures { self.new ≡ record self.old { actions = answered_by self.old.clock (action_of answered) self.old.actions } }
    {
        linger_until(
            &mut self.actions,
            answered.at,
            self.clock.saturating_add(LINGER),
        );
    }

    /// Where the range of an action begins and ends: three quarters of a term behind the sender at most, below the
    /// sender, and in the term of its position.
    fn bounds(&self, action: Action) -> (u64, u64)
        ensures from { result.0 ≡ first_resent self.now.geometry self.now.at action.at }
        ensures end { result.1 ≡ range_end self.now.geometry self.now.at (action_of action) }
    {
        let from = action.at.max(self.at.saturating_sub(self.reach()));
        let term_length = u64::from(self.geometry.term_length());
        let term_end = (action.at / term_length * term_length).saturating_add(term_length);
        let asked_end = action.at.saturating_add(u64::from(action.length));
        (from, asked_end.min(self.at).min(term_end))
    }

    /// What an action asks for, from the first frame start in it.
    fn range(&self, action: Action) -> Option<Gap>
        ensures { gap_of result ≡ resend_range self.now.geometry self.now.at self.now.starts (action_of action) }
    {
        let (from, end) = self.bounds(action);
        let start = first_in(&self.starts, from, end)?;
        Some(Gap {
            start,
            length: end - start,
        })
    }
}
