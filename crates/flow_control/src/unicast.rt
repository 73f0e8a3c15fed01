ghost use Rattle.std.specs.Prelude.{◌≡◌, ◌≤◌, ◌<◌, ◌^◌, false, true, max, pos, ◌+ℤ◌};
ghost use Rattle.theory.specs.FlowLimit.{clipped};

use crate::flow::FlowControl;
use crate::reach::reach_of;
use std::marker::Model;

/// The flow control of one receiver: the limit is the greatest of the start and of position plus window over all status
/// messages, each sum cut at the greatest `i64`.
#[derive(Clone, Copy, Debug, PartialEq, Eq)]
pub struct UnicastFlow {
    limit: u64,
    heard: bool,
}

impl Model for UnicastFlow {
    ghost use Rattle.std.specs.Prelude.{◌<◌, ◌^◌};
    ghost use Rattle.flow_control.specs.Unicast.{Unicast};

    ghost Value = { Unicast };

    ghost view = { λ f. record { limit = f.limit; heard = f.heard } };

    ghost invariant = { λ f. f.limit < 2 ^ 63 };

    ghost inverse = { λ u. record { limit = u.limit; heard = u.heard } };
}

impl UnicastFlow {
    /// A flow control that has heard no status message; its limit is the stream's start.
    pub fn new(start: u64) -> UnicastFlow
        requires { start < 2 ^ 63 }
        ensures { result ≡ record { limit = start; heard = false } }
    {
        UnicastFlow {
            limit: start,
            heard: false,
        }
    }
}

impl FlowControl for UnicastFlow {
    ghost reached = { λ f. f.limit };

    ghost allowed = { λ f. f.limit };

    ghost has_heard = { λ f. f.heard };

    ghost after_status = { λ f position window receiver now. record { limit = max (clipped (position +ℤ window)) f.limit; heard = true } };

    ghost after_tick = { λ f now. f };

    fn on_status(&mut self, position: i64, window: i32, _receiver: i64, _now: u64)
        ensures never_falls { self.old.limit ≤ self.new.limit }
        ensures allows { self.new.limit ≤ max (clipped (position +ℤ window)) self.old.limit }
        ensures state { self.new ≡ record { limit = max (clipped (position +ℤ window)) self.old.limit; heard = true } }
    {
        self.limit = reach_of(position, window).max(self.limit);
        self.heard = true;
    }

    fn limit(&self) -> i64
        ensures value { result ≡ pos self.now.limit }
        ensures within { self.now.limit ≤ self.now.limit }
    {
        self.limit as i64
    }

    fn heard(&self) -> bool
        ensures { result ≡ self.now.heard }
    {
        self.heard
    }

    fn tick(&mut self, _now: u64)
        ensures never_falls { self.old.limit ≤ self.new.limit }
        ensures allows { self.new.limit ≤ self.old.limit }
        ensures state { self.new ≡ self.old }
    {}
}
