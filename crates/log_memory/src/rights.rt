//! Rights to a log's bytes, between the slots that a seat carries and whoever writes there. They
//! take no memory, so no call here moves a byte.

ghost use Rattle.std.specs.Prelude.{◌≡◌, ◌∷◌, ◌++◌, List, ℕ, ◌+◌, ◌*◌, ◌%◌, ◌^◌, ◌<◌, ◌≤◌, []};
ghost use Rattle.atomic_table.specs.Table.{rest, turned};
ghost use Rattle.region.specs.declared.access.Access.{Access as Kept};
ghost use Rattle.log_memory.specs.Rights.{HaveParts, IsAnything, IsEighthAt, IsHalfway, IsRun, IsWholeOf};
ghost use Rattle.log_memory.specs.Steps.{Carries, IsPartAt, IsRoomAt};

use crate::order::{pass_chosen, pass_slots};
use crate::rule::LogMemoryRule;
use crate::view::{LogView, Site};
use atomic_table::{Seat, Shared};
use log_rule::Chosen;
use region::{Access, EIGHTH, ReadAccess, WriteAccess};
use std::marker::{Brand, PhantomData};

/// A log's table, and a seat of it.
pub type LogTable = Shared<Access, LogView, Site, LogMemoryRule>;

pub type LogSeat = Seat<Access, LogView>;

/// Seven slots go behind the others.
#[inline(always)]
fn pass_seven(seat: &mut LogSeat)
    ensures same { (seat.new.table_id ≡ seat.old.table_id) × (seat.new.id ≡ seat.old.id) }
    ensures turned { seat.new.me ≡ (
      seat.old.me.0,
      turned (turned (turned (turned (turned (turned
          (turned seat.old.me.1)))))),
    ) }
{
    pass_slots(seat, 7);
}

/// What a call picks of the slots that a seat carries: those behind the ones that it is about.
pub trait Rowed {
    ghost behind: { List (ℕ × Kept) };
}

impl Rowed for Brand {
    ghost use Rattle.std.specs.Prelude.{[]};

    ghost behind = { [] };
}

/// As many as these.
struct Behind<N> {
    row: PhantomData<N>,
}

impl<N: Rowed> Chosen for Behind<N> {
    ghost use Rattle.std.specs.Prelude.{length};

    ghost number = { length N.behind };
}

/// The right to write the next of so many units, of which the first `done` slots were emptied.
#[tactic(auto, using(crate::proofs::Rounds::next_unit))]
#[inline(always)]
fn take_unit<N: Rowed>(
    table: &LogTable,
    seat: &mut LogSeat,
    first: usize,
    units: usize,
    done: usize,
) -> WriteAccess
    requires seat { seat.old.table_id ≡ table.now.table_id }
    requires place { (first % 8 ≡ 0) × (done % 8 ≡ 0) × (done + 8 ≤ 8 * units)
        × (first + 8 * units < 2 ^ 60) }
    requires row { IsHalfway (IsRoomAt table.now.key) IsAnything first (8 * units) done N.behind
        seat.old.me.1 }
    ensures seat { (seat.new.table_id ≡ seat.old.table_id) × (seat.new.id ≡ seat.old.id)
        × (seat.new.me.0 ≡ seat.old.me.0) }
    ensures row { IsHalfway (IsRoomAt table.now.key) IsAnything first (8 * units) (done + 8)
        N.behind
        seat.new.me.1 }
    ensures run { IsRun table.now.key (first + done) 32 result }
{
    let Access { write, read: _ } = table.exchange(seat, first + done, Access::none());
    seat.turn();
    pass_seven(seat);
    write
}

/// The right to write all bytes of so many units, whose slots the seat carries over others, from
/// the slot `first` on.
#[inline(always)]
pub fn gather<N: Rowed>(
    table: &LogTable,
    seat: &mut LogSeat,
    first: usize,
    units: usize,
) -> WriteAccess
    requires seat { seat.old.table_id ≡ table.now.table_id }
    requires place { (first % 8 ≡ 0) × (0 < units) × (first + 8 * units < 2 ^ 60) }
    requires row { Carries (IsRoomAt table.now.key) first (8 * units) N.behind seat.old.me.1 }
    ensures seat { (seat.new.table_id ≡ seat.old.table_id) × (seat.new.id ≡ seat.old.id)
        × (seat.new.me.0 ≡ seat.old.me.0) }
    ensures row { Carries IsAnything first (8 * units) N.behind seat.new.me.1 }
    ensures run { IsRun table.now.key first (32 * units) result }
{
    let mut run = take_unit::<N>(table, seat, first, units, 0);
    let mut taken = 1;
    while taken < units {
        run = run.append(take_unit::<N>(table, seat, first, units, 8 * taken));
        taken += 1;
    }
    pass_chosen::<Access, LogView, Behind<N>>(seat);
    run
}

/// A right to read all bytes of a frame is parted among its first unit's eight slots, of so many
/// units that the seat carries over others.
#[inline(always)]
pub fn deal_parts<N: Rowed>(
    table: &LogTable,
    seat: &mut LogSeat,
    whole: ReadAccess,
    first: usize,
    units: usize,
)
    requires seat { seat.old.table_id ≡ table.now.table_id }
    requires whole { whole.count ≡ 2 ^ 63 }
    requires place { (0 < units) × (first + 8 * units < 2 ^ 60) }
    requires row { Carries IsAnything first (8 * units) N.behind seat.old.me.1 }
    ensures seat { (seat.new.table_id ≡ seat.old.table_id) × (seat.new.id ≡ seat.old.id)
        × (seat.new.me.0 ≡ seat.old.me.0) }
    ensures row { Carries (IsEighthAt first whole) first (8 * units) N.behind
        seat.new.me.1 }
{
    let mut rest = whole;
    let mut dealt = 0;
    while dealt < 8 {
        let (part, others) = rest.split(EIGHTH);
        rest = others;
        let _old = table.exchange(seat, first + dealt, Access::of_read(part));
        seat.turn();
        dealt += 1;
    }
    pass_slots(seat, 8 * units - 8);
    pass_chosen::<Access, LogView, Behind<N>>(seat);
}

/// What the slot that the seat took last has. It goes behind the others, empty.
#[inline(always)]
fn take_slot(table: &LogTable, seat: &mut LogSeat, slot: usize) -> Access
    requires seat { seat.old.table_id ≡ table.now.table_id }
    requires here { (g : Kept) × (seat.old.me.1 ≡ (slot, g) ∷ rest seat.old.me.1) }
    ensures seat { (seat.new.table_id ≡ seat.old.table_id) × (seat.new.id ≡ seat.old.id)
        × (seat.new.me.0 ≡ seat.old.me.0) }
    ensures had { seat.old.me.1 ≡ (slot, result) ∷ rest seat.old.me.1 }
    ensures turned { (g : Kept) × (seat.new.me.1 ≡ rest seat.old.me.1 ++ (slot, g) ∷ []) }
{
    let access = table.exchange(seat, slot, Access::none());
    seat.turn();
    access
}

/// The right to read a frame, whole, whose eight parts the first unit's slots have, of so many
/// units that the seat carries.
#[inline(always)]
pub fn collect_parts(table: &LogTable, seat: &mut LogSeat, first: usize, units: usize) -> ReadAccess
    requires seat { seat.old.table_id ≡ table.now.table_id }
    requires place { (0 < units) × (first + 8 * units < 2 ^ 60) }
    requires row { HaveParts table.now.key first (8 * units) seat.old.me.1 }
    ensures seat { (seat.new.table_id ≡ seat.old.table_id) × (seat.new.id ≡ seat.old.id)
        × (seat.new.me.0 ≡ seat.old.me.0) }
    ensures row { Carries IsAnything first (8 * units) [] seat.new.me.1 }
    ensures whole { (ws : List ℕ) (life book : ℕ)
        → Carries (IsPartAt table.now.key first ws life book) first (8 * units) [] seat.old.me.1
        → IsWholeOf table.now.key first ws (2 ^ 63) life book result }
{
    let mut whole = take_slot(table, seat, first).read;
    let mut taken = 1;
    while taken < 8 {
        whole = whole.join(take_slot(table, seat, first + taken).read);
        taken += 1;
    }
    pass_slots(seat, 8 * units - 8);
    whole
}

/// A run of zeros is dealt as room among so many units, whose slots the seat carries, from the slot
/// `first` on.
#[inline(always)]
pub fn deal_room(table: &LogTable, seat: &mut LogSeat, run: WriteAccess, first: usize, units: usize)
    requires seat { seat.old.table_id ≡ table.now.table_id }
    requires run { IsRun table.now.key first (32 * units) run }
    requires place { (first % 8 ≡ 0) × (first + 8 * units < 2 ^ 60) }
    requires row { Carries IsAnything first (8 * units) [] seat.old.me.1 }
    ensures seat { (seat.new.table_id ≡ seat.old.table_id) × (seat.new.id ≡ seat.old.id)
        × (seat.new.me.0 ≡ seat.old.me.0) }
    ensures row { Carries (IsRoomAt table.now.key) first (8 * units) [] seat.new.me.1 }
{
    let mut rest = run;
    let mut dealt = 0;
    while dealt < units {
        let (unit, others) = rest.split_at(32);
        rest = others;
        let _old = table.exchange(seat, first + 8 * dealt, Access::of_write(unit));
        seat.turn();
        pass_seven(seat);
        dealt += 1;
    }
}
