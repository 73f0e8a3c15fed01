//! The room of a pass's open frames goes from one seat to another, by way of its home.

ghost use Rattle.std.specs.Prelude.{◌≡◌};
ghost use Rattle.log_memory.specs.Kinds.{IsSeatOf, MayHandOver};
ghost use Rattle.log_memory.specs.Open.{HoldsOpen, slots_in};
ghost use Rattle.log_memory.specs.Parking.{Fetches, Parks, TakesOver};
ghost use Rattle.log_memory.specs.Steps.{AreApart, IsIdle};

use crate::order::pass_chosen;
use crate::rights::{LogSeat, LogTable};
use crate::seat_moves::hand_over;
use crate::steps::{Fetch, Park, Picked};
use crate::view::LogView;
use log_rule::Chosen;
use region::Access;
use std::marker::Brand;

/// All that the seat carries goes home, at a load: the room of its pass's open frames.
pub fn park(table: &LogTable, seat: &mut LogSeat)
    requires seat { IsSeatOf table.now.key table.now.table_id seat.old.table_id }
    requires idle { IsIdle seat.old.me.0 }
    requires holds { HoldsOpen table.now.key seat.old.me }
    ensures seat { (seat.new.table_id ≡ seat.old.table_id) × (seat.new.id ≡ seat.old.id) }
    ensures told { Parks seat.old.me seat.new.me }
{
    table.load::<Park>(seat, 0);
}

fn fetch_as<N: Picked>(table: &LogTable, seat: &mut LogSeat)
    requires seat { IsSeatOf table.now.key table.now.table_id seat.old.table_id }
    requires idle { seat.old.me.0.part.has ≡ 0 }
    requires apart { AreApart seat.old.me.0.parked }
    requires site { N.site ≡ table.now.key }
    ensures seat { (seat.new.table_id ≡ seat.old.table_id) × (seat.new.id ≡ seat.old.id) }
    ensures told { Fetches table.now.key seat.old.me seat.new.me }
{
    table.load::<Fetch<N>>(seat, 0);
}

/// The room of open frames that is at home is carried in front, at a load.
pub fn fetch(table: &LogTable, seat: &mut LogSeat)
    requires seat { IsSeatOf table.now.key table.now.table_id seat.old.table_id }
    requires idle { seat.old.me.0.part.has ≡ 0 }
    requires apart { AreApart seat.old.me.0.parked }
    ensures seat { (seat.new.table_id ≡ seat.old.table_id) × (seat.new.id ≡ seat.old.id) }
    ensures told { Fetches table.now.key seat.old.me seat.new.me }
{
    fetch_as::<Brand>(table, seat);
}

/// The room of the second's open frames is in front, and goes behind that of the first's.
fn take_over_as<N: Chosen>(table: &LogTable, seat: &mut LogSeat, other: LogSeat)
    requires seat { IsSeatOf table.now.key table.now.table_id seat.old.table_id }
    requires other { other.table_id ≡ seat.old.table_id }
    requires idle { IsIdle seat.old.me.0 × IsIdle other.me.0 }
    requires may { MayHandOver seat.old.me.0.view.pass other.me.0.view.pass }
    requires holds { HoldsOpen table.now.key seat.old.me × HoldsOpen table.now.key other.me }
    requires apart { AreApart other.me.0.view.pass.work.drafts }
    requires chosen { N.number ≡ slots_in other.me.0.view.pass.work.drafts }
    ensures seat { (seat.new.table_id ≡ seat.old.table_id) × (seat.new.id ≡ seat.old.id) }
    ensures takes { TakesOver table.now.key seat.old.me other.me seat.new.me }
{
    let mut other = other;
    park(table, &mut other);
    hand_over(table, seat, other);
    fetch(table, seat);
    pass_chosen::<Access, LogView, N>(seat);
}

/// What another seat has goes to a seat, whose publisher owns what the other's claimed: its open
/// frames with their room, too.
pub fn take_over(table: &LogTable, seat: &mut LogSeat, other: LogSeat)
    requires seat { IsSeatOf table.now.key table.now.table_id seat.old.table_id }
    requires other { other.table_id ≡ seat.old.table_id }
    requires idle { IsIdle seat.old.me.0 × IsIdle other.me.0 }
    requires may { MayHandOver seat.old.me.0.view.pass other.me.0.view.pass }
    requires holds { HoldsOpen table.now.key seat.old.me × HoldsOpen table.now.key other.me }
    requires apart { AreApart other.me.0.view.pass.work.drafts }
    ensures seat { (seat.new.table_id ≡ seat.old.table_id) × (seat.new.id ≡ seat.old.id) }
    ensures takes { TakesOver table.now.key seat.old.me other.me seat.new.me }
{
    take_over_as::<Brand>(table, seat, other);
}
