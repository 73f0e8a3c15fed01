//! The keeper's steps.

ghost use Rattle.std.specs.Prelude.{◌≡◌, ◌+◌, ◌^◌, ◌<◌, ◌≤◌};
ghost use Rattle.log_rule.specs.Keepings.{Joins, Leaves, MayJoin, MayLeave, MayRaise, Raises, SeesConsumer};
ghost use Rattle.log_rule.specs.Kept.{IsThere};
ghost use Rattle.log_memory.specs.Kinds.{Begins, Ends, IsSeatOf};
ghost use Rattle.log_memory.specs.Steps.{IsIdle};
ghost use Rattle.shared_log.specs.Steps.Handles.{IsOf};
ghost use Rattle.shared_log.specs.Steps.Keepers.{Cleans, MayCleanTo, SetsLimit};
ghost use Rattle.shared_log.specs.Steps.Readers.{SameSeat};

use crate::steps::log::Log;
use crate::steps::pass::LogPass;
use log_memory::{LogMemory, LogSeat, begin, clean_to, end, fetch, free_to, park, raise, see};
use log_rule::Seated;
use region::Region;
use std::marker::Brand;
use std::sync::Arc;

fn begin_as<N: Seated>(
    memory: &LogMemory,
    seat: &mut LogSeat,
    number: u64,
    place: u64,
    position: u64,
)
    requires seat { IsSeatOf memory.now.table.shared.key memory.now.table.shared.table_id
        seat.old.table_id }
    requires idle { IsIdle seat.old.me.0 }
    requires may { MayJoin seat.old.me.0.view.pass number position }
    requires chosen { (N.number ≡ number) × (N.place ≡ place) }
    ensures seat { (seat.new.table_id ≡ seat.old.table_id) × (seat.new.id ≡ seat.old.id) }
    ensures told { Begins number place seat.old.me position seat.new.me }
{
    let _ = place;
    begin::<N>(&memory.table.shared, seat, number, position);
}

fn end_as<N: Seated>(memory: &LogMemory, seat: &mut LogSeat, number: u64, place: u64)
    requires seat { IsSeatOf memory.now.table.shared.key memory.now.table.shared.table_id
        seat.old.table_id }
    requires idle { IsIdle seat.old.me.0 }
    requires may { MayLeave seat.old.me.0.view.pass place number }
    requires chosen { (N.number ≡ number) × (N.place ≡ place) }
    ensures seat { (seat.new.table_id ≡ seat.old.table_id) × (seat.new.id ≡ seat.old.id) }
    ensures told { Ends place number seat.old.me 0 seat.new.me }
{
    let _ = place;
    end::<N>(&memory.table.shared, seat, number);
}

impl Log {
    /// The keeper loads the position of a consumer that is there. It learns the limit word's flags
    /// and its limit, if it is sure of the control words.
    pub(crate) fn see_consumer(&self, pass: &mut LogPass, number: u64) -> u64
        requires fits { IsOf self.now pass.old }
        requires keeper { pass.old.pass.keeping.right ≡ 1 }
        requires there { IsThere pass.old.pass.keeping.there number }
        requires low { number < 8 }
        ensures seat { SameSeat pass.old pass.new }
        ensures sees { SeesConsumer pass.old.pass number result pass.new.pass }
        ensures limit { pass.old.sure ≡ 1 → pass.old.controls.limit
            ≡ pass.old.pass.keeping.limit }
        ensures once { pass.new.steps ≡ pass.old.steps + 1 }
    {
        see(&self.memory.table.shared, &mut pass.seat, number)
    }

    /// The keeper makes the memory of all frames zero and room that begin below a position, which
    /// is a term or more below each consumer that is there: two steps for each frame. By three
    /// steps more its own open frames' room goes home and comes back, and it knows that all is zero
    /// up to there. The answer is where the last of them ends.
    pub(crate) fn clean(
        &self,
        pass: &mut LogPass,
        home: Arc<Region>,
        freed: u64,
        position: u64,
    ) -> (Arc<Region>, u64)
        requires fits { IsOf self.now pass.old }
        requires home { home.value.identity ≡ self.now.table.region }
        requires freed { freed ≡ pass.old.freed }
        requires may { MayCleanTo pass.old.pass position }
        requires low { position ≤ 2 ^ 56 }
        ensures home { result.0.value.identity ≡ home.value.identity }
        ensures cleans { Cleans self.now.identity position result.1 pass.old pass.new }
    {
        let table = &self.memory.table.shared;
        park(table, &mut pass.seat);
        let (home, freed) = free_to(&self.memory, &mut pass.seat, home, freed, position);
        fetch(table, &mut pass.seat);
        clean_to(table, &mut pass.seat, position);
        (home, freed)
    }

    /// The keeper stores the limit word.
    pub(crate) fn raise(&self, pass: &mut LogPass, word: u64)
        requires fits { IsOf self.now pass.old }
        requires may { MayRaise pass.old.pass word }
        requires parts { 0 < pass.old.pass.right.parts }
        ensures sets { SetsLimit word pass.old pass.new }
        ensures raises { Raises pass.old.pass word pass.new.pass }
    {
        raise(&self.memory.table.shared, &mut pass.seat, word);
    }

    /// The keeper stores where a consumer begins whose number nobody has: its own pass is that
    /// consumer then, at a place among those that it is.
    pub(crate) fn begin_consumer(&self, pass: &mut LogPass, number: u64, place: u64, position: u64)
        requires fits { IsOf self.now pass.old }
        requires may { MayJoin pass.old.pass number position }
        ensures seat { SameSeat pass.old pass.new }
        ensures joins { Joins pass.old.pass number place position pass.new.pass }
        ensures once { pass.new.steps ≡ pass.old.steps + 1 }
    {
        begin_as::<Brand>(&self.memory, &mut pass.seat, number, place, position);
    }

    /// The keeper stores zero for a consumer of its own pass, which is none any more.
    pub(crate) fn end_consumer(&self, pass: &mut LogPass, number: u64, place: u64)
        requires fits { IsOf self.now pass.old }
        requires may { MayLeave pass.old.pass place number }
        ensures seat { SameSeat pass.old pass.new }
        ensures leaves { Leaves pass.old.pass place number pass.new.pass }
        ensures once { pass.new.steps ≡ pass.old.steps + 1 }
    {
        end_as::<Brand>(&self.memory, &mut pass.seat, number, place);
    }
}
