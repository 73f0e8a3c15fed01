//! The keeper's steps.

ghost use Rattle.std.specs.Prelude.{◌≡◌, ◌+◌, ◌*◌, ◌<◌};
ghost use Rattle.log_rule.specs.Keepings.{MayJoin, MayLeave, MayRaise};
ghost use Rattle.log_rule.specs.Kept.{IsThere};
ghost use Rattle.log_memory.specs.Kinds.{Begins, Ends, IsSeatOf, LoadsPosition, StoresLimit};
ghost use Rattle.log_memory.specs.Places.{head_place};
ghost use Rattle.log_memory.specs.Rule.{ring};
ghost use Rattle.log_memory.specs.Steps.{CleansTo, GivesRoom, IsIdle, MayCleanTo, MayGiveRoom, MayTakeBack, TakesBack};

use crate::rights::{LogSeat, LogTable};
use crate::steps::{CleanTo, GiveRoom, Picked, Place, Raise, Sweep, TakeBack, Vacate};
use log_rule::{CONSUMERS, Chosen, LINE, Seated};
use std::marker::Brand;

fn see_as<N: Chosen>(table: &LogTable, seat: &mut LogSeat, number: u64) -> u64
    requires seat { IsSeatOf table.now.key table.now.table_id seat.old.table_id }
    requires idle { IsIdle seat.old.me.0 }
    requires keeper { seat.old.me.0.view.pass.keeping.right ≡ 1 }
    requires there { IsThere seat.old.me.0.view.pass.keeping.there number }
    requires low { number < 8 }
    requires chosen { N.number ≡ number }
    ensures seat { (seat.new.table_id ≡ seat.old.table_id) × (seat.new.id ≡ seat.old.id) }
    ensures told { LoadsPosition number seat.old.me result seat.new.me }
{
    table.load::<Sweep<N>>(seat, CONSUMERS + LINE * number as usize)
}

/// Loads the position of a consumer that is there.
#[inline(always)]
pub fn see(table: &LogTable, seat: &mut LogSeat, number: u64) -> u64
    requires seat { IsSeatOf table.now.key table.now.table_id seat.old.table_id }
    requires idle { IsIdle seat.old.me.0 }
    requires keeper { seat.old.me.0.view.pass.keeping.right ≡ 1 }
    requires there { IsThere seat.old.me.0.view.pass.keeping.there number }
    requires low { number < 8 }
    ensures seat { (seat.new.table_id ≡ seat.old.table_id) × (seat.new.id ≡ seat.old.id) }
    ensures told { LoadsPosition number seat.old.me result seat.new.me }
{
    see_as::<Brand>(table, seat, number)
}

/// Stores where the chosen consumer begins, whose number nobody had: the seat is that consumer
/// then.
pub fn begin<N: Seated>(table: &LogTable, seat: &mut LogSeat, number: u64, position: u64)
    requires seat { IsSeatOf table.now.key table.now.table_id seat.old.table_id }
    requires idle { IsIdle seat.old.me.0 }
    requires may { MayJoin seat.old.me.0.view.pass number position }
    requires chosen { N.number ≡ number }
    ensures seat { (seat.new.table_id ≡ seat.old.table_id) × (seat.new.id ≡ seat.old.id) }
    ensures told { Begins number N.place seat.old.me position seat.new.me }
{
    table.store::<Place<N>>(seat, CONSUMERS + LINE * number as usize, position);
}

/// Stores zero for the chosen consumer of the seat, which is none any more.
pub fn end<N: Seated>(table: &LogTable, seat: &mut LogSeat, number: u64)
    requires seat { IsSeatOf table.now.key table.now.table_id seat.old.table_id }
    requires idle { IsIdle seat.old.me.0 }
    requires may { MayLeave seat.old.me.0.view.pass N.place number }
    requires chosen { N.number ≡ number }
    ensures seat { (seat.new.table_id ≡ seat.old.table_id) × (seat.new.id ≡ seat.old.id) }
    ensures told { Ends N.place number seat.old.me 0 seat.new.me }
{
    table.store::<Vacate<N>>(seat, CONSUMERS + LINE * number as usize, 0);
}

/// Stores the limit word.
pub fn raise(table: &LogTable, seat: &mut LogSeat, word: u64)
    requires seat { IsSeatOf table.now.key table.now.table_id seat.old.table_id }
    requires idle { IsIdle seat.old.me.0 }
    requires may { MayRaise seat.old.me.0.view.pass word }
    requires parts { 0 < seat.old.me.0.view.pass.right.parts }
    ensures seat { (seat.new.table_id ≡ seat.old.table_id) × (seat.new.id ≡ seat.old.id) }
    ensures told { StoresLimit seat.old.me word seat.new.me }
{
    table.store::<Raise>(seat, 0, word);
}

fn take_back_as<N: Picked>(table: &LogTable, seat: &mut LogSeat, place: usize) -> u64
    requires seat { IsSeatOf table.now.key table.now.table_id seat.old.table_id }
    requires may { MayTakeBack seat.old.me.0 }
    requires place { place ≡ head_place (ring table.now.key) seat.old.me.0.room.freed }
    requires site { N.site ≡ table.now.key }
    ensures seat { (seat.new.table_id ≡ seat.old.table_id) × (seat.new.id ≡ seat.old.id) }
    ensures told { TakesBack table.now.key seat.old.me result seat.new.me }
{
    table.load::<TakeBack<N>>(seat, place)
}

/// Loads the word of the first frame whose memory wasn't taken back, which all consumers left a
/// term ago, and takes its slots.
#[inline(always)]
pub fn take_back(table: &LogTable, seat: &mut LogSeat, place: usize) -> u64
    requires seat { IsSeatOf table.now.key table.now.table_id seat.old.table_id }
    requires may { MayTakeBack seat.old.me.0 }
    requires place { place ≡ head_place (ring table.now.key) seat.old.me.0.room.freed }
    ensures seat { (seat.new.table_id ≡ seat.old.table_id) × (seat.new.id ≡ seat.old.id) }
    ensures told { TakesBack table.now.key seat.old.me result seat.new.me }
{
    take_back_as::<Brand>(table, seat, place)
}

/// Stores zero over the word of the frame whose memory is out, and gives that as room.
#[inline(always)]
pub fn give_room(table: &LogTable, seat: &mut LogSeat, place: usize)
    requires seat { IsSeatOf table.now.key table.now.table_id seat.old.table_id }
    requires may { MayGiveRoom table.now.key seat.old.me }
    requires place { place ≡ head_place (ring table.now.key) seat.old.me.0.room.freed }
    ensures seat { (seat.new.table_id ≡ seat.old.table_id) × (seat.new.id ≡ seat.old.id) }
    ensures told { GivesRoom seat.old.me seat.new.me }
{
    table.store::<GiveRoom>(seat, place, 0);
}

fn clean_to_as<N: Chosen>(table: &LogTable, seat: &mut LogSeat, end: u64)
    requires seat { IsSeatOf table.now.key table.now.table_id seat.old.table_id }
    requires idle { IsIdle seat.old.me.0 }
    requires may { MayCleanTo end seat.old.me.0 }
    requires chosen { N.number ≡ end }
    ensures seat { (seat.new.table_id ≡ seat.old.table_id) × (seat.new.id ≡ seat.old.id) }
    ensures told { CleansTo end seat.old.me seat.new.me }
{
    let _ = end;
    table.load::<CleanTo<N>>(seat, 0);
}

/// Knows, at a load, that all is zero up to a position below which memory was taken back.
#[inline(always)]
pub fn clean_to(table: &LogTable, seat: &mut LogSeat, end: u64)
    requires seat { IsSeatOf table.now.key table.now.table_id seat.old.table_id }
    requires idle { IsIdle seat.old.me.0 }
    requires may { MayCleanTo end seat.old.me.0 }
    ensures seat { (seat.new.table_id ≡ seat.old.table_id) × (seat.new.id ≡ seat.old.id) }
    ensures told { CleansTo end seat.old.me seat.new.me }
{
    clean_to_as::<Brand>(table, seat, end);
}
