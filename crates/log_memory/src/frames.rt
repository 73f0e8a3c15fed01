//! Frames in memory: a reader copies one of which it has a part, and the keeper makes the memory of
//! one room again.

ghost use Rattle.std.specs.Prelude.{◌≡◌, ◌+◌, ◌*◌, ◌/◌, ◌^◌, ◌<◌, ◌≤◌, [], drop, length, take};
ghost use Rattle.theory.specs.Position.{IsGeometry};
ghost use Rattle.log_memory.specs.Frames.{CopiesPart, FreesFrame, FreesTo, GivesFrame, HasPartAt, IsOutAt, MayFreeTo, MayGiveBack, TakesFrame};
ghost use Rattle.log_memory.specs.Kinds.{IsSeatOf};
ghost use Rattle.log_memory.specs.Places.{head_place, slot_of};
ghost use Rattle.log_memory.specs.Rights.{IsAnything, IsRun};
ghost use Rattle.log_memory.specs.Rule.{ring};
ghost use Rattle.log_memory.specs.Steps.{Carries, Gives, MayTakeBack};

use crate::keeper::{give_room, take_back};
use crate::memory::LogMemory;
use crate::rights::{LogSeat, collect_parts, deal_room};
use crate::steps::Give;
use position::{align32, head_in};
use region::{Access, Region, WriteAccess};
use std::sync::Arc;

/// Copies the bytes behind the header of the frame that begins at `start`, as many as there are
/// places: the first slot that the seat carries has the part of the consumer with this number. The
/// frame lies `at` bytes behind the region's start.
#[inline(always)]
pub fn copy_part(
    memory: &LogMemory,
    seat: &mut LogSeat,
    start: u64,
    number: u64,
    at: usize,
    into: &mut [u8],
)
    requires seat { seat.old.table_id ≡ memory.now.table.shared.table_id }
    requires place { at ≡ 4 * slot_of (ring memory.now.table.shared.key) start 0 }
    requires low { number < 8 }
    requires part { HasPartAt memory.now.table.shared.key start number (length into.old)
        seat.old.me.1 }
    ensures seat { (seat.new.table_id ≡ seat.old.table_id) × (seat.new.id ≡ seat.old.id)
        × (seat.new.me ≡ seat.old.me) }
    ensures copied { CopiesPart memory.now.table.shared.key start number (length into.old)
        seat.old.me.1 into.new }
{
    let table = &memory.table.shared;
    let slot = memory.slot(start) + number as usize;
    let Access { write, read } = table.exchange(seat, slot, Access::none());
    let bytes = read.bytes(&memory.region, memory.start, at, 32 + into.len());
    into.copy_from_slice(&bytes[32..]);
    let _none = table.exchange(seat, slot, Access { write, read });
}

/// A consumer of the seat gives its part of a frame back, at a load of one of the table's words.
#[inline(always)]
pub fn give_back(memory: &LogMemory, seat: &mut LogSeat, place: usize)
    requires seat { IsSeatOf memory.now.table.shared.key memory.now.table.shared.table_id
        seat.old.table_id }
    requires may { MayGiveBack memory.now.table.shared.key seat.old.me }
    requires inside { place < memory.now.table.shared.table_id.words }
    ensures seat { (seat.new.table_id ≡ seat.old.table_id) × (seat.new.id ≡ seat.old.id) }
    ensures told { Gives seat.old.me seat.new.me }
{
    memory.table.shared.load::<Give>(seat, place);
}

/// Takes the memory of the frame that begins where memory was taken back, at `freed`, and that all
/// consumers left a term ago. The answer is the right to write its bytes, and how many these are.
#[inline(always)]
fn take_frame(memory: &LogMemory, seat: &mut LogSeat, freed: u64, head: usize) -> (WriteAccess, u32)
    requires head { head ≡ head_place (ring memory.now.table.shared.key) freed }
    requires seat { IsSeatOf memory.now.table.shared.key memory.now.table.shared.table_id
        seat.old.table_id }
    requires geometry { IsGeometry memory.now.table.shared.key.key.identity.geometry }
    requires freed { freed ≡ seat.old.me.0.room.freed }
    requires may { MayTakeBack seat.old.me.0 }
    requires empty { seat.old.me.1 ≡ [] }
    ensures seat { (seat.new.table_id ≡ seat.old.table_id) × (seat.new.id ≡ seat.old.id) }
    ensures takes { TakesFrame memory.now.table.shared.key seat.old.me result.1 result.0 seat.new.me }
{
    let table = &memory.table.shared;
    let word = take_back(table, seat, head);
    let bytes = align32(head_in(word, freed).frame_length);
    let whole = collect_parts(table, seat, memory.slot(freed), bytes as usize / 32);
    (whole.end_reading(), bytes)
}

/// Gives zeros as room that were the memory of a frame that begins at `freed` and covers so many
/// bytes.
#[inline(always)]
fn give_frame(
    memory: &LogMemory,
    seat: &mut LogSeat,
    run: WriteAccess,
    freed: u64,
    bytes: u32,
    head: usize,
)
    requires head { head ≡ head_place (ring memory.now.table.shared.key) freed }
    requires seat { IsSeatOf memory.now.table.shared.key memory.now.table.shared.table_id
        seat.old.table_id }
    requires run { IsRun memory.now.table.shared.key (slot_of (ring memory.now.table.shared.key)
        freed 0) (32 * (bytes / 32)) run }
    requires out { IsOutAt freed bytes seat.old.me }
    requires row { Carries IsAnything (slot_of (ring memory.now.table.shared.key) freed 0) (8 *
        (bytes
        / 32)) [] seat.old.me.1 }
    ensures seat { (seat.new.table_id ≡ seat.old.table_id) × (seat.new.id ≡ seat.old.id) }
    ensures gives { GivesFrame seat.old.me bytes seat.new.me }
{
    let table = &memory.table.shared;
    deal_room(table, seat, run, memory.slot(freed), bytes as usize / 32);
    give_room(table, seat, head);
}

/// Makes the memory of the frame room again that begins where memory was taken back, at `freed`,
/// and that all consumers left a term ago: it is taken, made zero and given. The answer is how many
/// bytes it covers.
#[inline(always)]
pub fn free_frame(
    memory: &LogMemory,
    seat: &mut LogSeat,
    home: Arc<Region>,
    freed: u64,
) -> (Arc<Region>, u64)
    requires seat { IsSeatOf memory.now.table.shared.key memory.now.table.shared.table_id
        seat.old.table_id }
    requires home { home.value.identity ≡ memory.now.table.shared.key.region.identity }
    requires geometry { IsGeometry memory.now.table.shared.key.key.identity.geometry }
    requires freed { freed ≡ seat.old.me.0.room.freed }
    requires may { MayTakeBack seat.old.me.0 }
    requires empty { seat.old.me.1 ≡ [] }
    ensures home { result.0.value.identity ≡ home.value.identity }
    ensures seat { (seat.new.table_id ≡ seat.old.table_id) × (seat.new.id ≡ seat.old.id) }
    ensures frees { FreesFrame memory.now.table.shared.key seat.old.me result.1 seat.new.me }
{
    let _ = &memory.table;
    let (head, at) = (memory.head(freed), memory.byte(freed));
    let (run, bytes) = take_frame(memory, seat, freed, head);
    let (home, run) = run.clear(home, memory.start, at, bytes as usize);
    give_frame(memory, seat, run, freed, bytes, head);
    (home, u64::from(bytes))
}

/// Makes all memory room again that begins from `freed` on, below a position that is a term or more
/// below each consumer that is there. The answer is where that ends: there, or behind the frame in
/// which that lies.
pub fn free_to(
    memory: &LogMemory,
    seat: &mut LogSeat,
    home: Arc<Region>,
    freed: u64,
    end: u64,
) -> (Arc<Region>, u64)
    requires seat { IsSeatOf memory.now.table.shared.key memory.now.table.shared.table_id
        seat.old.table_id }
    requires home { home.value.identity ≡ memory.now.table.shared.key.region.identity }
    requires geometry { IsGeometry memory.now.table.shared.key.key.identity.geometry }
    requires freed { freed ≡ seat.old.me.0.room.freed }
    requires may { MayFreeTo end seat.old.me }
    requires low { end ≤ 2 ^ 56 }
    ensures home { result.0.value.identity ≡ home.value.identity }
    ensures seat { (seat.new.table_id ≡ seat.old.table_id) × (seat.new.id ≡ seat.old.id) }
    ensures frees { FreesTo memory.now.table.shared.key.key.identity end result.1 seat.old.me
        seat.new.me }
{
    let _ = &memory.table;
    let mut home = home;
    let mut at = freed;
    while at < end {
        let (back, bytes) = free_frame(memory, seat, home, at);
        home = back;
        at += bytes;
    }
    (home, at)
}
