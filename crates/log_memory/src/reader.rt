//! A reader's steps.

ghost use Rattle.std.specs.Prelude.{◌≡◌, ◌<◌};
ghost use Rattle.log_rule.specs.Readings.{IsConsumer, MayPass};
ghost use Rattle.log_memory.specs.Kinds.{HasNumber, IsSeatOf, LooksHere, StoresPosition};
ghost use Rattle.log_memory.specs.Steps.{IsIdle, MayReread, Rereads};

use crate::memory::LogMemory;
use crate::rights::LogSeat;
use crate::steps::{Consume, LookHere, Picked, Reread};
use log_rule::{CONSUMERS, Chosen, LINE};

/// One of the consumers that a pass is.
#[derive(Clone, Copy)]
pub struct Consumer {
    /// Its place among those of the pass.
    pub place: u64,
    /// Its number, 0 to 7.
    pub number: u64,
    /// Where it stands.
    pub position: u64,
}

/// The consumer loads the word where it stands, and takes its part of the frame that begins there,
/// if there is one.
#[inline(always)]
pub fn look<N: Picked>(memory: &LogMemory, seat: &mut LogSeat, consumer: &Consumer) -> u64
    requires seat { IsSeatOf memory.now.table.shared.key memory.now.table.shared.table_id
        seat.old.table_id }
    requires idle { IsIdle seat.old.me.0 }
    requires site { N.site ≡ memory.now.table.shared.key }
    requires consumer { IsConsumer seat.old.me.0.view.pass N.number N.reading }
    requires low { N.reading.number < 8 }
    requires stands { N.reading.position ≡ consumer.now.position }
    ensures seat { (seat.new.table_id ≡ seat.old.table_id) × (seat.new.id ≡ seat.old.id) }
    ensures told { LooksHere memory.now.table.shared.key N.number N.reading seat.old.me result
        seat.new.me }
{
    let head = memory.head(consumer.position);
    memory.table.shared.load::<LookHere<N>>(seat, head)
}

/// The consumer loads the word of the frame that begins at `start`, which it has, a term below it
/// at the most, and takes its part of it.
#[inline(always)]
pub fn reread<N: Picked>(
    memory: &LogMemory,
    seat: &mut LogSeat,
    consumer: &Consumer,
    start: u64,
) -> u64
    requires seat { IsSeatOf memory.now.table.shared.key memory.now.table.shared.table_id
        seat.old.table_id }
    requires idle { IsIdle seat.old.me.0 }
    requires site { N.site ≡ memory.now.table.shared.key }
    requires consumer { N.number ≡ consumer.now.place }
    requires may { MayReread N.number N.reading N.frame seat.old.me.0.view.pass }
    requires start { N.frame.start ≡ start }
    ensures seat { (seat.new.table_id ≡ seat.old.table_id) × (seat.new.id ≡ seat.old.id) }
    ensures told { Rereads memory.now.table.shared.key N.reading N.frame seat.old.me result
        seat.new.me }
{
    let _ = consumer;
    let head = memory.head(start);
    memory.table.shared.load::<Reread<N>>(seat, head)
}

/// The consumer, at the chosen place among those that the seat has, stores where the frame ends
/// that it has read.
#[inline(always)]
pub fn consume<N: Chosen>(memory: &LogMemory, seat: &mut LogSeat, consumer: &Consumer, end: u64)
    requires seat { IsSeatOf memory.now.table.shared.key memory.now.table.shared.table_id
        seat.old.table_id }
    requires idle { IsIdle seat.old.me.0 }
    requires low { consumer.now.number < 8 }
    requires consumer { HasNumber seat.old.me.0.view.pass N.number consumer.now.number }
    requires may { MayPass seat.old.me.0.view.pass N.number end }
    ensures seat { (seat.new.table_id ≡ seat.old.table_id) × (seat.new.id ≡ seat.old.id) }
    ensures told { StoresPosition N.number seat.old.me end seat.new.me }
{
    let place = CONSUMERS + LINE * consumer.number as usize;
    memory.table.shared.store::<Consume<N>>(seat, place, end);
}
