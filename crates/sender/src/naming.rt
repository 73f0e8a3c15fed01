//! When a sender names its stream by a SETUP.

ghost use Rattle.std.specs.Prelude.{◌≡◌, None, false, true};
ghost use Rattle.sender.specs.Naming.{is_due, after_due};

use std::marker::Model;

/// Nanoseconds from one SETUP to the next, until each receiver that is waited for was heard.
const INTERVAL: u64 = 100_000_000;

/// When a sender's SETUP is due: at its first cycle, and then each 100 ms until each receiver that is
/// waited for was heard.
#[derive(Clone, Copy, Debug, PartialEq, Eq)]
pub struct SenderSetup {
    clock: u64,
    last: Option<u64>,
    heard: bool,
}

impl Model for SenderSetup {
    ghost use Rattle.sender.specs.Naming.{Naming};

    ghost Value = { Naming };

    ghost view = { λ s. record { clock = s.clock; last = s.last; heard = s.heard } };

    ghost inverse = { λ n. record { clock = n.clock; last = n.last; heard = n.heard } };
}

impl SenderSetup {
    /// Before the first cycle.
    pub fn new() -> SenderSetup
        ensures { result ≡ record { clock = 0; last = None; heard = false } }
    {
        SenderSetup {
            clock: 0,
            last: None,
            heard: false,
        }
    }

    /// Whether a SETUP goes out in the cycle at this moment, in nanoseconds; the next interval then begins. A moment
    /// smaller than one that was seen counts as the one seen.
    pub fn due(&mut self, now: u64) -> bool
        ensures answer { result ≡ is_due self.old now }
        ensures state { self.new ≡ after_due self.old now }
    {
        self.clock = self.clock.max(now);
        let due = match self.last {
            None => true,
            Some(last) => !self.heard && self.clock >= last.saturating_add(INTERVAL),
        };
        if due {
            self.last = Some(self.clock);
        }
        due
    }

    /// Notes that a status message that doesn't ask has come.
    pub fn on_status(&mut self)
        ensures { self.new ≡ record self.old { heard = true } }
    {
        self.heard = true;
    }
}
