ghost use Rattle.std.specs.Prelude.{◌≡◌, ◌<◌};

use crate::hand::QueuePass;
use std::marker::Model;

/// One of the eight clients of a queue. It may go to a thread of its own, and ends in `finish`. One that is dropped can't
/// be handed to `finish` any more; nothing else follows.
#[derive(Drop)]
pub struct Client {
    pub(crate) number: usize,
    pub(crate) seat: QueuePass,
}

impl Model for Client {
    ghost use Rattle.std.specs.Prelude.{◌≡◌, ◌<◌, [], true};
    ghost use Rattle.crossbeam_queue.specs.Passes as passes;
    ghost use Rattle.conductor.specs.Parties.{ClientSeen};

    ghost Value = { ClientSeen };

    ghost view = { λ c. record { queue = c.seat.table_id; number = c.number; accepted = (passes.view c.seat).put } };

    ghost invariant = { λ c. (c.seat.me.1 ≡ []) × ((passes.view c.seat).submits ≡ true) × ((passes.view c.seat).client ≡ c.number) × (c.number < 8) };
}

impl Client {
    /// Its number, 0 to 7.
    pub fn number(&self) -> usize
        ensures value { result ≡ self.now.number }
        ensures in_range { result < 8 }
    {
        self.number
    }
}

/// The one who takes the commands of a queue. It may go to a thread of its own, and ends in `finish`. One that is dropped
/// can't be handed to `finish` any more; nothing else follows.
#[derive(Drop)]
pub struct Taker {
    pub(crate) seat: QueuePass,
}

impl Model for Taker {
    ghost use Rattle.std.specs.Prelude.{◌≡◌, [], true};
    ghost use Rattle.crossbeam_queue.specs.Passes as passes;
    ghost use Rattle.conductor.specs.Parties.{TakerSeen};

    ghost Value = { TakerSeen };

    ghost view = { λ t. record { queue = t.seat.table_id; taken = (passes.view t.seat).taken; heard = (passes.view t.seat).heard } };

    ghost invariant = { λ t. (t.seat.me.1 ≡ []) × ((passes.view t.seat).takes ≡ true) × ((passes.view t.seat).made ≡ 8) × ((passes.view t.seat).left ≡ 8) × ((passes.view t.seat).known ≡ []) };
}
