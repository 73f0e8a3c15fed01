ghost use Rattle.std.specs.Prelude.{◌≡◌, ◌+◌, min, if◌then◌else◌};

use std::marker::Model;
use std::thread;
use std::time::{Clock, Duration};

/// After how many idle turns in a row a thread sleeps in each further one.
const YIELDS: u32 = 200;

/// After how many it sleeps longer: after a second or so.
const SHORT_TURNS: u32 = 15_200;

/// How long it sleeps, in microseconds. The system makes it longer, some 70 in all.
const SHORT_SLEEP: u64 = 20;

/// How long it sleeps where there was nothing to do for long, in microseconds.
const LONG_SLEEP: u64 = 1000;

/// How many idle turns there were in a row, up to 15,200.
#[derive(Debug, Drop)]
pub struct IdleStrategy {
    turns: u32,
}

impl Model for IdleStrategy {
    ghost use Rattle.std.specs.Prelude.{ℕ, ◌≤◌};

    ghost Value = { ℕ };

    ghost view = { λ i. i.turns };

    ghost invariant = { λ i. i.turns ≤ 15200 };
}

impl IdleStrategy {
    /// No idle turn yet.
    pub fn new() -> IdleStrategy
        ensures { result ≡ 0 }
    {
        IdleStrategy { turns: 0 }
    }

    /// A turn in which there was something to do.
    pub fn stir(&mut self)
        ensures { self.new ≡ 0 }
    {
        self.turns = 0;
    }

    /// A turn in which there was nothing to do: the thread yields, from the 201st in a row on it sleeps for some 70
    /// microseconds, and from the 15,201st on, after a second or so, for a millisecond.
    pub fn rest<R: Clock>(&mut self, rt: &R)
        ensures { self.new ≡ min (self.old + 1) 15200 }
    {
        if self.turns < YIELDS {
            thread::yield_now();
        } else if self.turns < SHORT_TURNS {
            thread::sleep(rt, Duration::from_micros(SHORT_SLEEP));
        } else {
            thread::sleep(rt, Duration::from_micros(LONG_SLEEP));
        }
        self.turns = (self.turns + 1).min(SHORT_TURNS);
    }

    /// A turn, which was busy or not.
    pub fn after<R: Clock>(&mut self, rt: &R, busy: bool)
        ensures { self.new ≡ (if busy then 0 else min (self.old + 1) 15200) }
    {
        if busy {
            self.stir();
        } else {
            self.rest(rt);
        }
    }
}
