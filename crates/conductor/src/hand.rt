//! What passes of the queue know, and the queue's rule over that. No value of these types is made.

use crate::command::{Command, Submitted};
use crossbeam_queue::protocol::{Join, Lesson, Outcome, Protocol, Split};
use crossbeam_queue::{Pass, RuledArrayQueue};
use std::collections::LinkedList;

/// What a client had submitted when it reported it.
pub struct Report {
    pub client: usize,
    pub commands: LinkedList<Command>,
}

/// What a pass may do, and what it knows.
pub struct Hand {
    pub submits: bool,
    pub takes: bool,
    /// The client that it is, or that it tells of.
    pub client: usize,
    /// What that client has submitted.
    pub put: LinkedList<Command>,
    /// What was taken.
    pub taken: LinkedList<Submitted>,
    /// What the taker was told of.
    pub heard: LinkedList<Report>,
    /// What the clients that have ended had submitted.
    pub known: LinkedList<Submitted>,
    /// How many clients there were made.
    pub made: usize,
    /// The clients below this number haven't ended.
    pub left: usize,
}

pub struct InOrder;

impl Protocol<Submitted, Hand> for InOrder {
    ghost use Rattle.conductor.specs.Hands.{first_taker};
    ghost use Rattle.conductor.specs.Rule.{IsAccounted};

    ghost holds = { IsAccounted };

    ghost first = { first_taker };
}

/// The taker makes the next client.
pub struct Opens;

impl Split<Hand> for Opens {
    ghost use Rattle.conductor.specs.Hands.{after_opening, new_client};

    ghost left = { after_opening };

    ghost right = { new_client };
}

/// A client tells what it has submitted.
pub struct Tells;

impl Split<Hand> for Tells {
    ghost use Rattle.conductor.specs.Hands.{teller};

    ghost left = { λ v. v };

    ghost right = { teller };
}

/// The taker hears it.
pub struct Hears;

impl Join<Hand> for Hears {
    ghost use Rattle.conductor.specs.Hands.{after_hearing, nobody};

    ghost both = { after_hearing };

    ghost spent = { nobody };
}

/// A client ends.
pub struct Ends;

impl Join<Hand> for Ends {
    ghost use Rattle.conductor.specs.Hands.{after_end, nobody};

    ghost both = { after_end };

    ghost spent = { nobody };
}

pub struct Submits;

impl Outcome<Submitted, Hand> for Submits {
    ghost use Rattle.std.specs.Prelude.{◌≡◌};
    ghost use Rattle.conductor.specs.Hands.{after_submitting};

    ghost then = { λ v m w. w ≡ after_submitting v m };
}

/// Where a queue is full, the client's commands among what it holds are its last ones.
impl Lesson<Submitted, Hand> for Submits {
    ghost use Rattle.conductor.specs.Rule.{HoldsLastOf};

    ghost fact = { λ v items. HoldsLastOf v.client v.put items };
}

pub struct Takes;

impl Outcome<Submitted, Hand> for Takes {
    ghost use Rattle.std.specs.Prelude.{◌≡◌};
    ghost use Rattle.conductor.specs.Hands.{after_taking};

    ghost then = { λ v m w. w ≡ after_taking v m };
}

/// What was told of was taken, or is in the queue.
impl Lesson<Submitted, Hand> for Takes {
    ghost use Rattle.std.specs.Prelude.{◌++◌};
    ghost use Rattle.conductor.specs.Rule.{AreThere};

    ghost fact = { λ v items. AreThere v.heard (v.taken ++ items) };
}

/// Once all clients have ended: what they submitted was taken, or is in the queue.
pub struct Totals;

impl Lesson<Submitted, Hand> for Totals {
    ghost use Rattle.std.specs.Prelude.{◌++◌};
    ghost use Rattle.conductor.specs.Rule.{AreSame};

    ghost fact = { λ v items. AreSame (v.taken ++ items) v.known };
}

pub type RuledQueue = RuledArrayQueue<Submitted, Hand, InOrder>;

pub type QueuePass = Pass<Submitted, Hand>;
