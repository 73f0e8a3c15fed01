ghost use Rattle.std.specs.Prelude.{◌≡◌, None};
ghost use Rattle.theory.specs.Timing.{scan};
ghost use Rattle.position.specs.Gaps.{gap_of};

use position::Gap;
use std::marker::Model;

/// Nanoseconds for which a gap is watched before it is told.
const DELAY: u64 = 1_000_000;

/// Watches one gap, known by its start.
#[derive(Drop)]
pub(crate) struct LossDetector {
    /// The greatest moment that it has seen.
    clock: u64,
    /// The start of the gap that it watches.
    active: Option<u64>,
    /// When that gap is told; 0 where there is none.
    deadline: u64,
}

impl Model for LossDetector {
    ghost use Rattle.theory.specs.Timing.{Watch};

    ghost Value = { Watch };

    ghost view = { λ d. record { clock = d.clock; active = d.active; deadline = d.deadline } };
}

impl LossDetector {
    /// A detector that has seen no moment and watches nothing.
    pub(crate) fn new() -> LossDetector
        ensures { result ≡ record { clock = 0; active = None; deadline = 0 } }
    {
        LossDetector {
            clock: 0,
            active: None,
            deadline: 0,
        }
    }

    /// Takes a moment, in nanoseconds, and the first gap at it. A gap with a new start is watched from now on and not
    /// told; one with the same start is told a millisecond later or more, with its present length, and watched anew.
    /// Without a gap nothing is watched. A moment before one that was seen counts as that one.
    pub(crate) fn scan(&mut self, now: u64, gap: Option<Gap>) -> Option<Gap>
        ensures watch { self.new ≡ (scan self.old now (gap_of gap)).watch }
        ensures told { gap_of result ≡ (scan self.old now (gap_of gap)).told }
    {
        self.clock = self.clock.max(now);
        let Some(found) = gap else {
            self.active = None;
            self.deadline = 0;
            return None;
        };
        let same = self.active == Some(found.start);
        if same && self.clock < self.deadline {
            return None;
        }
        self.active = Some(found.start);
        self.deadline = self.clock.saturating_add(DELAY);
        if same { gap } else { None }
    }
}
