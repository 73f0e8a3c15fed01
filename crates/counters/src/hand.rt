//! What passes of the cell know, and the cell's rule over that. No value of these types is made.

use crate::readings::Readings;
use atomic_table::{Join, Split};
use crossbeam_utils::atomic::seq_cell::{Pass, RuledSeqCell};
use crossbeam_utils::rule::{Outcome, Protocol};
use std::collections::LinkedList;

/// What a pass may do, and what it knows.
pub struct Hand {
    pub publishes: bool,
    /// What it published or read last.
    pub known: Readings,
    /// What it was told last.
    pub told: Readings,
    /// What it has published, the last first, and the zeros before.
    pub past: LinkedList<Readings>,
}

pub struct NeverBack;

impl Protocol<Readings, Hand> for NeverBack {
    ghost use Rattle.counters.specs.Hands.{first_writer};
    ghost use Rattle.counters.specs.Rule.{IsCurrent};

    ghost holds = { IsCurrent };

    ghost first = { first_writer };
}

/// One tells another what it knows.
pub struct Tells;

impl Split<Hand> for Tells {
    ghost use Rattle.counters.specs.Hands.{teller};

    ghost left = { λ v. v };

    ghost right = { teller };
}

/// The other hears it.
pub struct Hears;

impl Join<Hand> for Hears {
    ghost use Rattle.counters.specs.Hands.{after_hearing, nobody};

    ghost both = { after_hearing };

    ghost spent = { nobody };
}

/// The pass knows what stands in the cell after the step.
pub struct Sees;

impl Outcome<Readings, Hand> for Sees {
    ghost use Rattle.counters.specs.Rule.{IsSeen};

    ghost then = { IsSeen };
}

/// The pass publishes what stands in the cell after the step.
pub struct Puts;

impl Outcome<Readings, Hand> for Puts {
    ghost use Rattle.std.specs.Prelude.{◌≡◌};
    ghost use Rattle.counters.specs.Hands.{after_publishing};

    ghost then = { λ v _ y w. w ≡ after_publishing v y };
}

pub type RuledCell = RuledSeqCell<Readings, Hand, NeverBack, 3>;

pub type CellPass = Pass<Readings, Hand>;
