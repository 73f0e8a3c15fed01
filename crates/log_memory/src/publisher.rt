//! A publisher's steps on the tail of another count.

ghost use Rattle.std.specs.Prelude.{◌≡◌, ◌+◌, ◌-◌, ◌^◌, ◌<◌, ◌≤◌, suc};
ghost use Rattle.theory.specs.Position.{id_of};
ghost use Rattle.theory.specs.Words.{id_before, id_in, tail_word};
ghost use Rattle.publication.specs.Steps.{geometry_of};
ghost use Rattle.log_memory.specs.Kinds.{ExchangesNext, IsSeatOf, LoadsNext};
ghost use Rattle.log_memory.specs.Steps.{IsIdle};

use crate::rights::{LogSeat, LogTable};
use crate::steps::{Next, Rotate};
use log_rule::{Chosen, place_of};
use std::marker::Brand;

fn load_next_as<N: Chosen>(table: &LogTable, seat: &mut LogSeat, count: u32) -> u64
    requires seat { IsSeatOf table.now.key table.now.table_id seat.old.table_id }
    requires idle { IsIdle seat.old.me.0 }
    requires full { seat.old.me.0.view.pass.seen.full ≡ suc count }
    requires last { count < 2 ^ 31 - 1 }
    requires chosen { N.number ≡ count }
    ensures seat { (seat.new.table_id ≡ seat.old.table_id) × (seat.new.id ≡ seat.old.id) }
    ensures told { LoadsNext count seat.old.me result seat.new.me }
{
    table.load::<Next<N>>(seat, place_of(count + 1))
}

/// Loads the raw tail of the partition behind a count's, whose term is used up.
#[inline(always)]
pub fn load_next(table: &LogTable, seat: &mut LogSeat, count: u32) -> u64
    requires seat { IsSeatOf table.now.key table.now.table_id seat.old.table_id }
    requires idle { IsIdle seat.old.me.0 }
    requires full { seat.old.me.0.view.pass.seen.full ≡ suc count }
    requires last { count < 2 ^ 31 - 1 }
    ensures seat { (seat.new.table_id ≡ seat.old.table_id) × (seat.new.id ≡ seat.old.id) }
    ensures told { LoadsNext count seat.old.me result seat.new.me }
{
    load_next_as::<Brand>(table, seat, count)
}

fn exchange_next_as<N: Chosen>(
    table: &LogTable,
    seat: &mut LogSeat,
    count: u32,
    from: u64,
    to: u64,
) -> u64
    requires seat { IsSeatOf table.now.key table.now.table_id seat.old.table_id }
    requires idle { IsIdle seat.old.me.0 }
    requires parts { 0 < seat.old.me.0.view.pass.right.parts }
    requires full { seat.old.me.0.view.pass.seen.full ≡ suc count }
    requires last { count < 2 ^ 31 - 1 }
    requires from { id_in from ≡ id_before (geometry_of seat.old.me.0.view.pass) count 2 }
    requires to { to ≡ tail_word (id_of (geometry_of seat.old.me.0.view.pass) (count + 1)) 0 }
    requires chosen { N.number ≡ count }
    ensures seat { (seat.new.table_id ≡ seat.old.table_id) × (seat.new.id ≡ seat.old.id) }
    ensures told { ExchangesNext count from seat.old.me result seat.new.me }
{
    table.compare_exchange::<Rotate<N>>(seat, place_of(count + 1), from, to)
}

/// Exchanges the raw tail of the partition behind a count's, from the word that was loaded to that
/// of the next term's start.
#[inline(always)]
pub fn exchange_next(table: &LogTable, seat: &mut LogSeat, count: u32, from: u64, to: u64) -> u64
    requires seat { IsSeatOf table.now.key table.now.table_id seat.old.table_id }
    requires idle { IsIdle seat.old.me.0 }
    requires parts { 0 < seat.old.me.0.view.pass.right.parts }
    requires full { seat.old.me.0.view.pass.seen.full ≡ suc count }
    requires last { count < 2 ^ 31 - 1 }
    requires from { id_in from ≡ id_before (geometry_of seat.old.me.0.view.pass) count 2 }
    requires to { to ≡ tail_word (id_of (geometry_of seat.old.me.0.view.pass) (count + 1)) 0 }
    ensures seat { (seat.new.table_id ≡ seat.old.table_id) × (seat.new.id ≡ seat.old.id) }
    ensures told { ExchangesNext count from seat.old.me result seat.new.me }
{
    exchange_next_as::<Brand>(table, seat, count, from, to)
}
