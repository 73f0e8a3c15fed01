//! Two passes that meet.

ghost use Rattle.std.specs.Prelude.{◌≡◌, ℕ, ◌+◌, ◌%◌, ◌<◌, ◌≤◌};
ghost use Rattle.log_rule.specs.Claims.Plays.{no_keeping};
ghost use Rattle.publication.specs.Steps.{geometry_of};
ghost use Rattle.log_memory.specs.Kinds.{IsSeatOf};
ghost use Rattle.log_memory.specs.Steps.{IsIdle};
ghost use Rattle.shared_log.specs.Steps.Handles.{IsOf};
ghost use Rattle.shared_log.specs.Steps.Meets.{MayMeet, Meets, NeverFalls, SeatStays, SeesTails, Shows};

use crate::steps::log::Log;
use crate::steps::pass::LogPass;
use log_memory::{LogMemory, LogSeat, lift, lower, meet, part_again, settle, show};
use log_rule::Met;
use position::Geometry;
use publication::position_shown;
use std::marker::Brand;

/// Loads the raw tail of a partition. The answer is the position that it shows.
fn shown(memory: &LogMemory, geometry: &Geometry, seat: &mut LogSeat, partition: u32) -> u64
    requires seat { IsSeatOf memory.now.table.shared.key memory.now.table.shared.table_id
        seat.old.table_id }
    requires idle { IsIdle seat.old.me.0 }
    requires shape { geometry_of seat.old.me.0.view.pass ≡ geometry.now }
    ensures stays { SeatStays seat.old.table_id seat.old.id seat.old.me seat.new.table_id
        seat.new.id
        seat.new.me result }
    ensures once { seat.new.me.0.view.steps ≡ seat.old.me.0.view.steps + 1 }
    ensures told { Shows seat.old.me.0.view.pass (partition % 3) seat.old.me.0.view.controls
        seat.new.me.0.view.controls result }
{
    let word = show(&memory.table.shared, seat, partition);
    position_shown(geometry, word)
}

/// Loads the three raw tails. The answer is the greatest position that they show.
fn greatest_shown(memory: &LogMemory, geometry: &Geometry, seat: &mut LogSeat) -> u64
    requires seat { IsSeatOf memory.now.table.shared.key memory.now.table.shared.table_id
        seat.old.table_id }
    requires idle { IsIdle seat.old.me.0 }
    requires shape { geometry_of seat.old.me.0.view.pass ≡ geometry.now }
    ensures stays { SeatStays seat.old.table_id seat.old.id seat.old.me seat.new.table_id
        seat.new.id
        seat.new.me result }
    ensures steps { seat.new.me.0.view.steps ≡ seat.old.me.0.view.steps + 3 }
    ensures told { SeesTails seat.old.me.0.view.pass seat.old.me.0.view.controls
        seat.new.me.0.view.controls result }
{
    let zeroth = shown(memory, geometry, seat, 0);
    let first = shown(memory, geometry, seat, 1);
    let second = shown(memory, geometry, seat, 2);
    zeroth.max(first).max(second)
}

fn meet_as<N: Met>(log: &Log, one: &mut LogPass, other: &mut LogPass) -> u64
    requires one { IsOf log.now one.old }
    requires other { IsOf log.now other.old }
    requires may { MayMeet one.old.pass other.old.pass }
    requires chosen { (N.one ≡ one.old.pass) × (N.other ≡ other.old.pass) }
    ensures { Meets one.old other.old one.new other.new result }
{
    let table = &log.memory.table.shared;
    settle(table, &mut one.seat);
    settle(table, &mut other.seat);
    let lifted = lift(table, &mut other.seat);
    meet(table, &mut one.seat, lifted);
    let geometry = log.identity.geometry();
    let tail = greatest_shown(&log.memory, &geometry, &mut one.seat);
    let second = part_again::<N>(table, &mut one.seat);
    lower(table, &mut other.seat, second);
    tail
}

impl Log {
    /// Two passes meet: what they have claimed is apart. The answer is the greatest position that
    /// the three raw tails show, each loaded in this call; none that either has claimed or was
    /// shown before lies above it. Both remember it, so that no later answer to one of them is
    /// smaller (`meets_never_fall`). What they have open stays with each.
    pub(crate) fn meet(&self, one: &mut LogPass, other: &mut LogPass) -> u64
        requires one { IsOf self.now one.old }
        requires other { IsOf self.now other.old }
        requires may { MayMeet one.old.pass other.old.pass }
        ensures { Meets one.old other.old one.new other.new result }
    {
        meet_as::<Brand>(self, one, other)
    }
}

/// A law: where a pass meets twice, the second answer is no smaller than the first, whatever it did
/// between.
pub fn meets_never_fall()
    ensures { NeverFalls }
{}
