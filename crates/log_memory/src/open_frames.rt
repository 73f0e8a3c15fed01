//! A pass's open frames: an addition opens more, and any of them is committed, while the room of
//! the others stays in its row.

ghost use Rattle.std.specs.Prelude.{◌≡◌, ◌-◌, ◌/◌, ◌≤◌, min, ℕ, List};
ghost use Rattle.theory.specs.Position.{IsGeometry, framed_length, max_message};
ghost use Rattle.theory.specs.Words.{offset_in};
ghost use Rattle.publication.specs.Steps.{geometry_of};
ghost use Rattle.publication.specs.declared.pass.FrameWords as frames;
ghost use Rattle.region.specs.declared.access.Access as accesses;
ghost use Rattle.log_memory.specs.Drafts.{IsDraft};
ghost use Rattle.log_memory.specs.Kinds.{IsSeatOf};
ghost use Rattle.log_memory.specs.Steps.{IsIdle};
ghost use Rattle.log_memory.specs.Open.{AddsOpen, HoldsOpen, IsOneOpen, StoresOpen, front_of, others_of};

use crate::drafts::{Draft, commit_word, store_frame};
use crate::memory::LogMemory;
use crate::order::{pass_chosen, pass_slots};
use crate::rights::{LogSeat, Rowed};
use crate::steps::{Add, Picked};
use crate::view::LogView;
use log_rule::{Chosen, place_of};
use position::Geometry;
use publication::taken;
use region::{Access, Region};
use std::marker::{Brand, PhantomData};
use std::sync::Arc;

/// What a call picks where it commits an open frame: those before it and those behind it, the row
/// of slots, and how many the frame has.
pub trait Opened {
    ghost front: { List frames.FrameWords };

    ghost others: { List frames.FrameWords };

    ghost carried: { List (ℕ × accesses.Access) };

    ghost slots: { ℕ };
}

impl Opened for Brand {
    ghost use Rattle.std.specs.Prelude.{[]};

    ghost front = { [] };

    ghost others = { [] };

    ghost carried = { [] };

    ghost slots = { 0 };
}

/// The slots of those before it.
struct Ahead<N> {
    opened: PhantomData<N>,
}

impl<N: Opened> Chosen for Ahead<N> {
    ghost use Rattle.log_memory.specs.Open.{slots_in};

    ghost number = { slots_in N.front };
}

/// The slots of those behind it.
struct After<N> {
    opened: PhantomData<N>,
}

impl<N: Opened> Chosen for After<N> {
    ghost use Rattle.log_memory.specs.Open.{slots_in};

    ghost number = { slots_in N.others };
}

/// What stands behind it once it is in front.
struct Rest<N> {
    opened: PhantomData<N>,
}

impl<N: Opened> Rowed for Rest<N> {
    ghost use Rattle.std.specs.Prelude.{drop};
    ghost use Rattle.log_memory.specs.Open.{slots_in};
    ghost use Rattle.log_memory.specs.Order.{rotated};

    ghost behind = { drop N.slots (rotated (slots_in N.front) N.carried) };
}

/// Commits one of the open frames of the seat's pass, whichever: its bytes are written plainly,
/// then its first word is stored, by one step. The room of the others stays in the seat's row.
#[inline(always)]
pub fn commit_open<N: Opened>(
    memory: &LogMemory,
    seat: &mut LogSeat,
    home: Arc<Region>,
    draft: &Draft<'_>,
) -> Arc<Region>
    requires seat { IsSeatOf memory.now.table.shared.key memory.now.table.shared.table_id
        seat.old.table_id }
    requires home { home.value.identity ≡ memory.now.table.shared.key.region.identity }
    requires draft { IsDraft draft.now }
    requires open { IsOneOpen memory.now.table.shared.key draft.now seat.old.me }
    requires holds { HoldsOpen memory.now.table.shared.key seat.old.me }
    requires front { N.front ≡ front_of draft.now.start seat.old.me.0.view.pass.work.drafts }
    requires others { N.others ≡ others_of draft.now.start seat.old.me.0.view.pass.work.drafts }
    requires row { (N.carried ≡ seat.old.me.1) × (N.slots ≡ draft.now.bytes / 4) }
    ensures home { result.value.identity ≡ home.value.identity }
    ensures seat { (seat.new.table_id ≡ seat.old.table_id) × (seat.new.id ≡ seat.old.id) }
    ensures stores { StoresOpen memory.now.table.shared.key draft.now seat.old.me seat.new.me }
{
    let _ = &memory.table;
    pass_chosen::<Access, LogView, Ahead<N>>(seat);
    let home = store_frame::<Rest<N>>(memory, seat, home, draft);
    commit_word::<Brand>(memory, seat, draft);
    pass_chosen::<Access, LogView, After<N>>(seat);
    home
}

/// Adds what a message of `size` bytes covers to the tail for which the publisher is armed. The
/// room of what it claims is in the seat's row then, behind that of the frames that were open
/// before. The answers are the word that was there, and how many bytes it took.
#[inline(always)]
pub fn add_open<N: Picked>(
    memory: &LogMemory,
    seat: &mut LogSeat,
    geometry: &Geometry,
    count: u32,
    size: u32,
) -> (u64, u32)
    requires seat { IsSeatOf memory.now.table.shared.key memory.now.table.shared.table_id
        seat.old.table_id }
    requires idle { IsIdle seat.old.me.0 }
    requires parts { 120 ≤ seat.old.me.0.view.pass.right.parts }
    requires armed { seat.old.me.0.view.pass.right.armed ≡ 1 }
    requires count { seat.old.me.0.view.pass.seen.term ≡ count }
    requires short { size ≤ max_message geometry.now }
    requires geometry { (geometry_of seat.old.me.0.view.pass ≡ geometry.now)
        × (memory.now.table.shared.key.key.identity.geometry ≡ geometry.now) }
    requires legal { IsGeometry geometry.now }
    requires holds { HoldsOpen memory.now.table.shared.key seat.old.me }
    requires chosen { (N.site ≡ memory.now.table.shared.key) × (N.number ≡ size) }
    ensures seat { (seat.new.table_id ≡ seat.old.table_id) × (seat.new.id ≡ seat.old.id) }
    ensures told { AddsOpen size seat.old.me result.0 seat.new.me }
    ensures taken { result.1 ≡ min (framed_length geometry.now size) (geometry.now.term_length
        - offset_in result.0) }
    ensures holds { HoldsOpen memory.now.table.shared.key seat.new.me }
{
    let covered = geometry.framed_length(size);
    let table = &memory.table.shared;
    let word = table.fetch_add::<Add<N>>(seat, place_of(count), u64::from(covered));
    let bytes = taken(geometry, word, covered);
    pass_slots(seat, bytes as usize / 4);
    (word, bytes)
}
