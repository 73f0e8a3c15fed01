//! Seats are dealt, joined, and told of themselves.

ghost use Rattle.std.specs.Prelude.{◌≡◌, ℕ, ◌%◌, ◌<◌, []};
ghost use Rattle.log_rule.specs.Claims.Closing.{both_seats, handing_seats, numbered_seat};
ghost use Rattle.log_rule.specs.Claims.Plays.{dealing_seat, dealt_seat, newcomer, no_keeping};
ghost use Rattle.log_rule.specs.Meetings.{back_left, back_right, meeting_seats};
ghost use Rattle.log_rule.specs.Table.{keeper_left, keeper_right, knowledge_right, news_left, news_right, reader_left, reader_right, returned_seat, told_seat};
ghost use Rattle.log_memory.specs.Lifted.{lifted_left, lifted_right, lowered};
ghost use Rattle.log_memory.specs.Kinds.{IsConsumerAlone, IsSeatOf, IsSteadied, IsToldAlone, IsWeighed, MayGather, MayHandOver, MayPart, ShowsPartition};
ghost use Rattle.log_memory.specs.Steps.{IsIdle};
ghost use Rattle.log_memory.specs.Seats.{dealt_with, joining, viewing};

use crate::rights::{LogSeat, LogTable};
use crate::seats::{
    DealKeeper, DealPublisher, DealReader, GatherSeat, HandOver, Knowledge, Lift, Lower, Meet,
    News, PartAgain, Renumber, Return, Tell,
};
use crate::steps::{Settle, Show, Weigh};
use log_rule::{Carried, Chosen, Met, place_of};
use std::marker::Brand;

/// A publisher goes to a seat of its own.
pub fn deal_publisher(table: &LogTable, seat: &mut LogSeat) -> LogSeat
    requires seat { IsSeatOf table.now.key table.now.table_id seat.old.table_id }
    requires idle { IsIdle seat.old.me.0 }
    requires unarmed { seat.old.me.0.view.pass.right.armed ≡ 0 }
    requires unclaimed { seat.old.me.0.view.pass.right.claims ≡ [] }
    requires parts { 120 < seat.old.me.0.view.pass.right.parts }
    ensures seat { (seat.new.table_id ≡ seat.old.table_id) × (seat.new.id ≡ seat.old.id)
        × (seat.new.me ≡ (viewing dealing_seat seat.old.me.0, seat.old.me.1)) }
    ensures dealt { (result.table_id ≡ seat.old.table_id)
        × (result.me ≡ (dealt_with dealt_seat seat.old.me.0, [])) }
{
    table.split_seat::<DealPublisher>(seat)
}

/// The first consumer of a seat goes to one of its own.
pub fn deal_reader(table: &LogTable, seat: &mut LogSeat) -> LogSeat
    requires seat { IsSeatOf table.now.key table.now.table_id seat.old.table_id }
    requires idle { IsIdle seat.old.me.0 }
    ensures seat { (seat.new.table_id ≡ seat.old.table_id) × (seat.new.id ≡ seat.old.id)
        × (seat.new.me ≡ (viewing reader_left seat.old.me.0, seat.old.me.1)) }
    ensures dealt { (result.table_id ≡ seat.old.table_id)
        × (result.me ≡ (dealt_with reader_right seat.old.me.0, [])) }
{
    table.split_seat::<DealReader>(seat)
}

/// The keeper goes to a seat of its own.
pub fn deal_keeper(table: &LogTable, seat: &mut LogSeat) -> LogSeat
    requires seat { IsSeatOf table.now.key table.now.table_id seat.old.table_id }
    requires idle { IsIdle seat.old.me.0 }
    requires unarmed { seat.old.me.0.view.pass.right.armed ≡ 0 }
    requires unclaimed { seat.old.me.0.view.pass.right.claims ≡ [] }
    requires parts { 8 < seat.old.me.0.view.pass.right.parts }
    ensures seat { (seat.new.table_id ≡ seat.old.table_id) × (seat.new.id ≡ seat.old.id)
        × (seat.new.me ≡ (viewing keeper_left seat.old.me.0, seat.old.me.1)) }
    ensures dealt { (result.table_id ≡ seat.old.table_id)
        × (result.me ≡ (dealt_with keeper_right seat.old.me.0, [])) }
{
    table.split_seat::<DealKeeper>(seat)
}

fn renumber_as<N: Chosen>(table: &LogTable, seat: &mut LogSeat, number: u64)
    requires seat { IsSeatOf table.now.key table.now.table_id seat.old.table_id }
    requires idle { IsIdle seat.old.me.0 }
    requires number { number < 8 }
    requires whole { seat.old.me.0.view.pass.right.parts ≡ 1024 }
    requires chosen { N.number ≡ number }
    ensures seat { (seat.new.table_id ≡ seat.old.table_id) × (seat.new.id ≡ seat.old.id)
        × (seat.new.me ≡ (viewing (numbered_seat number) seat.old.me.0, seat.old.me.1)) }
{
    let _ = number;
    table.split_seat::<Renumber<N>>(seat);
}

/// The seat that has all parts has another number from then on.
pub fn renumber(table: &LogTable, seat: &mut LogSeat, number: u64)
    requires seat { IsSeatOf table.now.key table.now.table_id seat.old.table_id }
    requires idle { IsIdle seat.old.me.0 }
    requires number { number < 8 }
    requires whole { seat.old.me.0.view.pass.right.parts ≡ 1024 }
    ensures seat { (seat.new.table_id ≡ seat.old.table_id) × (seat.new.id ≡ seat.old.id)
        × (seat.new.me ≡ (viewing (numbered_seat number) seat.old.me.0, seat.old.me.1)) }
{
    renumber_as::<Brand>(table, seat, number);
}

/// What a publisher committed goes to a seat of its own, to be told.
pub fn deal_news(table: &LogTable, seat: &mut LogSeat) -> LogSeat
    requires seat { IsSeatOf table.now.key table.now.table_id seat.old.table_id }
    requires idle { IsIdle seat.old.me.0 }
    ensures seat { (seat.new.table_id ≡ seat.old.table_id) × (seat.new.id ≡ seat.old.id)
        × (seat.new.me ≡ seat.old.me) }
    ensures dealt { (result.table_id ≡ seat.old.table_id)
        × (result.me ≡ (dealt_with news_right seat.old.me.0, [])) }
{
    table.split_seat::<News>(seat)
}

/// What the consumers of a seat know goes to a seat of its own, to be told.
pub fn deal_knowledge(table: &LogTable, seat: &mut LogSeat) -> LogSeat
    requires seat { IsSeatOf table.now.key table.now.table_id seat.old.table_id }
    requires idle { IsIdle seat.old.me.0 }
    ensures seat { (seat.new.table_id ≡ seat.old.table_id) × (seat.new.id ≡ seat.old.id)
        × (seat.new.me ≡ seat.old.me) }
    ensures dealt { (result.table_id ≡ seat.old.table_id)
        × (result.me ≡ (dealt_with knowledge_right seat.old.me.0, [])) }
{
    table.split_seat::<Knowledge>(seat)
}

/// Each of the two that met has again what it had, and was shown what both were.
pub fn part_again<N: Met>(table: &LogTable, seat: &mut LogSeat) -> LogSeat
    requires seat { IsSeatOf table.now.key table.now.table_id seat.old.table_id }
    requires idle { IsIdle seat.old.me.0 }
    requires may { MayPart N.one N.other seat.old.me.0.view.pass }
    ensures seat { (seat.new.table_id ≡ seat.old.table_id) × (seat.new.id ≡ seat.old.id)
        × (seat.new.me ≡ (viewing (back_left N.one) seat.old.me.0, seat.old.me.1)) }
    ensures dealt { (result.table_id ≡ seat.old.table_id)
        × (result.me ≡ (dealt_with (back_right N.other) seat.old.me.0, [])) }
{
    table.split_seat::<PartAgain<N>>(seat)
}

/// The pass goes to a new seat, while what its seat carries stays.
pub fn lift(table: &LogTable, seat: &mut LogSeat) -> LogSeat
    requires seat { IsSeatOf table.now.key table.now.table_id seat.old.table_id }
    requires idle { IsIdle seat.old.me.0 }
    ensures seat { (seat.new.table_id ≡ seat.old.table_id) × (seat.new.id ≡ seat.old.id)
        × (seat.new.me ≡ (viewing lifted_left seat.old.me.0, seat.old.me.1)) }
    ensures dealt { (result.table_id ≡ seat.old.table_id)
        × (result.me ≡ (dealt_with lifted_right seat.old.me.0, [])) }
{
    table.split_seat::<Lift>(seat)
}

fn lower_as<N: Carried>(table: &LogTable, seat: &mut LogSeat, other: LogSeat)
    requires seat { IsSeatOf table.now.key table.now.table_id seat.old.table_id }
    requires other { (other.table_id ≡ seat.old.table_id) × (other.me.1 ≡ []) }
    requires idle { IsIdle seat.old.me.0 × IsIdle other.me.0 }
    requires none { seat.old.me.0.view.pass
        ≡ newcomer table.now.key.key.identity table.now.key.key.start 0 0 }
    requires plain { other.me.0.view.pass.keeping ≡ no_keeping }
    requires carried { (N.identity ≡ table.now.key.key.identity)
        × (N.start ≡ table.now.key.key.start) }
    ensures seat { (seat.new.table_id ≡ seat.old.table_id) × (seat.new.id ≡ seat.old.id)
        × (seat.new.me ≡ (joining lowered seat.old.me.0 other.me.0, seat.old.me.1)) }
{
    table.join_seat::<Lower<N>>(seat, other);
}

/// The pass of another seat, which isn't the keeper's, comes to one that has none.
pub fn lower(table: &LogTable, seat: &mut LogSeat, other: LogSeat)
    requires seat { IsSeatOf table.now.key table.now.table_id seat.old.table_id }
    requires other { (other.table_id ≡ seat.old.table_id) × (other.me.1 ≡ []) }
    requires idle { IsIdle seat.old.me.0 × IsIdle other.me.0 }
    requires none { seat.old.me.0.view.pass
        ≡ newcomer table.now.key.key.identity table.now.key.key.start 0 0 }
    requires plain { other.me.0.view.pass.keeping ≡ no_keeping }
    ensures seat { (seat.new.table_id ≡ seat.old.table_id) × (seat.new.id ≡ seat.old.id)
        × (seat.new.me ≡ (joining lowered seat.old.me.0 other.me.0, seat.old.me.1)) }
{
    lower_as::<Brand>(table, seat, other);
}

fn tell_as<N: Carried>(table: &LogTable, seat: &mut LogSeat, other: LogSeat)
    requires seat { IsSeatOf table.now.key table.now.table_id seat.old.table_id }
    requires other { (other.table_id ≡ seat.old.table_id) × (other.me.1 ≡ []) }
    requires idle { IsIdle seat.old.me.0 × IsIdle other.me.0 }
    requires alone { IsToldAlone table.now.key other.me.0.view.pass }
    requires carried { (N.identity ≡ table.now.key.key.identity)
        × (N.start ≡ table.now.key.key.start) }
    ensures seat { (seat.new.table_id ≡ seat.old.table_id) × (seat.new.id ≡ seat.old.id)
        × (seat.new.me ≡ (joining told_seat seat.old.me.0 other.me.0, seat.old.me.1)) }
{
    table.join_seat::<Tell<N>>(seat, other);
}

/// The consumers of a seat are told what another seat knows.
pub fn tell(table: &LogTable, seat: &mut LogSeat, other: LogSeat)
    requires seat { IsSeatOf table.now.key table.now.table_id seat.old.table_id }
    requires other { (other.table_id ≡ seat.old.table_id) × (other.me.1 ≡ []) }
    requires idle { IsIdle seat.old.me.0 × IsIdle other.me.0 }
    requires alone { IsToldAlone table.now.key other.me.0.view.pass }
    ensures seat { (seat.new.table_id ≡ seat.old.table_id) × (seat.new.id ≡ seat.old.id)
        × (seat.new.me ≡ (joining told_seat seat.old.me.0 other.me.0, seat.old.me.1)) }
{
    tell_as::<Brand>(table, seat, other);
}

fn take_consumer_as<N: Carried>(table: &LogTable, seat: &mut LogSeat, other: LogSeat)
    requires seat { IsSeatOf table.now.key table.now.table_id seat.old.table_id }
    requires other { (other.table_id ≡ seat.old.table_id) × (other.me.1 ≡ []) }
    requires idle { IsIdle seat.old.me.0 × IsIdle other.me.0 }
    requires alone { IsConsumerAlone table.now.key other.me.0.view.pass }
    requires carried { (N.identity ≡ table.now.key.key.identity)
        × (N.start ≡ table.now.key.key.start) }
    ensures seat { (seat.new.table_id ≡ seat.old.table_id) × (seat.new.id ≡ seat.old.id)
        × (seat.new.me ≡ (joining returned_seat seat.old.me.0 other.me.0, seat.old.me.1)) }
{
    table.join_seat::<Return<N>>(seat, other);
}

/// A consumer goes back to the keeper's seat.
pub fn take_consumer(table: &LogTable, seat: &mut LogSeat, other: LogSeat)
    requires seat { IsSeatOf table.now.key table.now.table_id seat.old.table_id }
    requires other { (other.table_id ≡ seat.old.table_id) × (other.me.1 ≡ []) }
    requires idle { IsIdle seat.old.me.0 × IsIdle other.me.0 }
    requires alone { IsConsumerAlone table.now.key other.me.0.view.pass }
    ensures seat { (seat.new.table_id ≡ seat.old.table_id) × (seat.new.id ≡ seat.old.id)
        × (seat.new.me ≡ (joining returned_seat seat.old.me.0 other.me.0, seat.old.me.1)) }
{
    take_consumer_as::<Brand>(table, seat, other);
}

fn take_seat_as<N: Carried>(table: &LogTable, seat: &mut LogSeat, other: LogSeat)
    requires seat { IsSeatOf table.now.key table.now.table_id seat.old.table_id }
    requires other { (other.table_id ≡ seat.old.table_id) × (other.me.1 ≡ []) }
    requires idle { IsIdle seat.old.me.0 × IsIdle other.me.0 }
    requires may { MayGather seat.old.me.0.view.pass other.me.0.view.pass }
    requires carried { (N.identity ≡ table.now.key.key.identity)
        × (N.start ≡ table.now.key.key.start) }
    ensures seat { (seat.new.table_id ≡ seat.old.table_id) × (seat.new.id ≡ seat.old.id)
        × (seat.new.me ≡ (joining both_seats seat.old.me.0 other.me.0, seat.old.me.1)) }
{
    table.join_seat::<GatherSeat<N>>(seat, other);
}

/// What another seat has goes to a seat.
pub fn take_seat(table: &LogTable, seat: &mut LogSeat, other: LogSeat)
    requires seat { IsSeatOf table.now.key table.now.table_id seat.old.table_id }
    requires other { (other.table_id ≡ seat.old.table_id) × (other.me.1 ≡ []) }
    requires idle { IsIdle seat.old.me.0 × IsIdle other.me.0 }
    requires may { MayGather seat.old.me.0.view.pass other.me.0.view.pass }
    ensures seat { (seat.new.table_id ≡ seat.old.table_id) × (seat.new.id ≡ seat.old.id)
        × (seat.new.me ≡ (joining both_seats seat.old.me.0 other.me.0, seat.old.me.1)) }
{
    take_seat_as::<Brand>(table, seat, other);
}

fn hand_over_as<N: Carried>(table: &LogTable, seat: &mut LogSeat, other: LogSeat)
    requires seat { IsSeatOf table.now.key table.now.table_id seat.old.table_id }
    requires other { (other.table_id ≡ seat.old.table_id) × (other.me.1 ≡ []) }
    requires idle { IsIdle seat.old.me.0 × (other.me.0.part.has ≡ 0) }
    requires may { MayHandOver seat.old.me.0.view.pass other.me.0.view.pass }
    requires carried { (N.identity ≡ table.now.key.key.identity)
        × (N.start ≡ table.now.key.key.start) }
    ensures seat { (seat.new.table_id ≡ seat.old.table_id) × (seat.new.id ≡ seat.old.id)
        × (seat.new.me ≡ (joining handing_seats seat.old.me.0 other.me.0, seat.old.me.1)) }
{
    table.join_seat::<HandOver<N>>(seat, other);
}

/// What another seat has goes to a seat, whose publisher owns what the other's claimed.
pub fn hand_over(table: &LogTable, seat: &mut LogSeat, other: LogSeat)
    requires seat { IsSeatOf table.now.key table.now.table_id seat.old.table_id }
    requires other { (other.table_id ≡ seat.old.table_id) × (other.me.1 ≡ []) }
    requires idle { IsIdle seat.old.me.0 × (other.me.0.part.has ≡ 0) }
    requires may { MayHandOver seat.old.me.0.view.pass other.me.0.view.pass }
    ensures seat { (seat.new.table_id ≡ seat.old.table_id) × (seat.new.id ≡ seat.old.id)
        × (seat.new.me ≡ (joining handing_seats seat.old.me.0 other.me.0, seat.old.me.1)) }
{
    hand_over_as::<Brand>(table, seat, other);
}

fn meet_as<N: Carried>(table: &LogTable, seat: &mut LogSeat, other: LogSeat)
    requires seat { IsSeatOf table.now.key table.now.table_id seat.old.table_id }
    requires other { (other.table_id ≡ seat.old.table_id) × (other.me.1 ≡ []) }
    requires idle { IsIdle seat.old.me.0 × IsIdle other.me.0 }
    requires may { MayGather seat.old.me.0.view.pass other.me.0.view.pass }
    requires carried { (N.identity ≡ table.now.key.key.identity)
        × (N.start ≡ table.now.key.key.start) }
    ensures seat { (seat.new.table_id ≡ seat.old.table_id) × (seat.new.id ≡ seat.old.id)
        × (seat.new.me ≡ (joining meeting_seats seat.old.me.0 other.me.0, seat.old.me.1)) }
{
    table.join_seat::<Meet<N>>(seat, other);
}

/// A seat has what two publishers have that meet.
pub fn meet(table: &LogTable, seat: &mut LogSeat, other: LogSeat)
    requires seat { IsSeatOf table.now.key table.now.table_id seat.old.table_id }
    requires other { (other.table_id ≡ seat.old.table_id) × (other.me.1 ≡ []) }
    requires idle { IsIdle seat.old.me.0 × IsIdle other.me.0 }
    requires may { MayGather seat.old.me.0.view.pass other.me.0.view.pass }
    ensures seat { (seat.new.table_id ≡ seat.old.table_id) × (seat.new.id ≡ seat.old.id)
        × (seat.new.me ≡ (joining meeting_seats seat.old.me.0 other.me.0, seat.old.me.1)) }
{
    meet_as::<Brand>(table, seat, other);
}

/// A pass is told what is true of it for good, at a load.
pub fn settle(table: &LogTable, seat: &mut LogSeat)
    requires seat { IsSeatOf table.now.key table.now.table_id seat.old.table_id }
    requires idle { IsIdle seat.old.me.0 }
    ensures seat { (seat.new.table_id ≡ seat.old.table_id) × (seat.new.id ≡ seat.old.id) }
    ensures told { (n : ℕ) × IsSteadied seat.old.me n seat.new.me }
{
    table.load::<Settle>(seat, 0);
}

/// A pass is told how much it has claimed, at a load.
pub fn weigh(table: &LogTable, seat: &mut LogSeat)
    requires seat { IsSeatOf table.now.key table.now.table_id seat.old.table_id }
    requires idle { IsIdle seat.old.me.0 }
    ensures seat { (seat.new.table_id ≡ seat.old.table_id) × (seat.new.id ≡ seat.old.id) }
    ensures told { (n : ℕ) × IsWeighed seat.old.me n seat.new.me }
{
    table.load::<Weigh>(seat, 0);
}

fn show_as<N: Chosen>(table: &LogTable, seat: &mut LogSeat, partition: u32) -> u64
    requires seat { IsSeatOf table.now.key table.now.table_id seat.old.table_id }
    requires idle { IsIdle seat.old.me.0 }
    requires chosen { N.number ≡ partition }
    ensures seat { (seat.new.table_id ≡ seat.old.table_id) × (seat.new.id ≡ seat.old.id) }
    ensures told { ShowsPartition (partition % 3) seat.old.me result seat.new.me }
{
    table.load::<Show<N>>(seat, place_of(partition))
}

/// Loads the raw tail of a partition: the pass is shown the position that it shows.
pub fn show(table: &LogTable, seat: &mut LogSeat, partition: u32) -> u64
    requires seat { IsSeatOf table.now.key table.now.table_id seat.old.table_id }
    requires idle { IsIdle seat.old.me.0 }
    ensures seat { (seat.new.table_id ≡ seat.old.table_id) × (seat.new.id ≡ seat.old.id) }
    ensures told { ShowsPartition (partition % 3) seat.old.me result seat.new.me }
{
    show_as::<Brand>(table, seat, partition)
}
