//! The inserter looks where the consumers stand, and lets go of what all of them have passed.

ghost use Rattle.std.specs.Prelude.{◌≡◌, ℕ, [], ◌+◌, ◌*◌, ◌/◌, ◌%◌, ◌^◌, ◌<◌, ◌≤◌, true, false, length, slice_index};
ghost use Rattle.region.specs.Pooled.{AreAll, stands};
ghost use Rattle.image_rule.specs.declared.view.Frame.{Frame};
ghost use Rattle.image_rule.specs.Frames.{Among, Has, byte_place, end_of, image_length, ring};
ghost use Rattle.image_rule.specs.Bits.{Cleared, DropsBits, IsExact, MayDrop, MayRise, Sweeps};
ghost use Rattle.image_rule.specs.Steps.{Carries, MayRaise, MayTake, with_out};
ghost use Rattle.image.specs.Handles.{IsStoreOf};
ghost use Rattle.image.specs.Inserting.{ClearedTo, MayClearTo};
ghost use Rattle.image.specs.Memory.{HasMemory, IsNext, found_at};
ghost use Rattle.image.specs.Parts.{AnyPart, IsShare};

use crate::inserter::frame_store::FrameStore;
use crate::inserter::hand::{Hand, change_as, fetch_as, free_as, see_as, take_as};
use crate::inserter::room::{Room, gather_parts};
use crate::words::{Image, Words, mask};
use image_rule::Changing;
use position::{align32, head_in};
use region::ReadAccess;
use std::marker::Brand;

/// Loads the position of each consumer once. The answer is the unit of the least: no frame lies on both sides of it, and all
/// from the floor to it was stored.
pub(crate) fn see_all(image: &Words, hand: &mut Hand) -> u64
    requires fits { hand.old.seat.table_id ≡ image.now.table.shared.table_id }
    requires some { 0 < image.now.key.consumers }
    requires seen { length hand.old.seat.me.0.seen ≡ image.now.key.consumers }
    requires looks { length hand.old.seat.me.0.looks ≡ image.now.key.consumers }
    ensures fits { hand.new.seat.table_id ≡ hand.old.seat.table_id }
    ensures slots { hand.new.seat.me.1 ≡ hand.old.seat.me.1 }
    ensures sweeps { Sweeps image.now.key hand.old.seat.me.0 image.now.key.consumers result hand.new.seat.me.0 }
    ensures small { 32 * result < 2 ^ 64 }
{
    let _ = &image.table;
    let mut least = see_as::<Brand>(image, hand, 0) / 32;
    for number in 1..image.key.consumers {
        least = least.min(see_as::<Brand>(image, hand, number) / 32);
    }
    least
}

/// Clears the bits of so many units from one on, in the word at a place. The floor is this one then.
fn drop_bits_as<N: Changing>(
    image: &Words,
    hand: &mut Hand,
    place: usize,
    at: u64,
    count: u64,
    floor: u64,
)
    requires fits { hand.old.seat.table_id ≡ image.now.table.shared.table_id }
    requires some { 0 < count }
    requires short { at % 64 + count ≤ 64 }
    requires inside { place < image_length (ring image.now.key) }
    requires chosen { (N.place ≡ place) × (N.floor ≡ floor) }
    requires low { 32 * floor < 2 ^ 64 }
    requires may { MayDrop image.now.key hand.old.seat.me.0 place at count N.floor
        hand.old.seat.me.0.held.got }
    requires raise { MayRaise image.now.key hand.old.seat.me.0 N.floor }
    ensures fits { hand.new.seat.table_id ≡ hand.old.seat.table_id }
    ensures slots { hand.new.seat.me.1 ≡ hand.old.seat.me.1 }
    ensures drops { DropsBits hand.old.seat.me.0 place at count N.floor hand.old.seat.me.0.held.got
        hand.new.seat.me.0 }
{
    let old = fetch_as::<Brand>(image, hand, place);
    let low = at % 64;
    let word = old & !mask(low, low + count);
    change_as::<N>(image, hand, place, word, floor);
}

/// Clears the start bits and then the held bits of so many units from the floor on, which lie in one word.
fn clear_part(image: &Words, hand: &mut Hand, count: u64)
    requires fits { hand.old.seat.table_id ≡ image.now.table.shared.table_id }
    requires idle { hand.old.seat.me.0.held.out ≡ 0 }
    requires exact { IsExact image.now.key hand.old.seat.me.0.held }
    requires some { 0 < count }
    requires short { hand.old.floor % 64 + count ≤ 64 }
    requires low { 32 * (hand.old.floor + count) < 2 ^ 64 }
    requires near { count ≤ ring image.now.key }
    requires passed { (j : ℕ) → j < length hand.old.seat.me.0.seen → hand.old.floor + count ≤ slice_index hand.old.seat.me.0.seen j }
    ensures fits { hand.new.seat.table_id ≡ hand.old.seat.table_id }
    ensures slots { hand.new.seat.me.1 ≡ hand.old.seat.me.1 }
    ensures cleared { Cleared image.now.key hand.old.seat.me.0 (hand.old.floor + count) hand.new.seat.me.0 }
{
    let _ = &image.table;
    let _ = &hand.seat;
    let at = hand.floor;
    let start = image.start_word(at);
    let held = image.held_word(at);
    drop_bits_as::<Brand>(image, hand, start, at, count, at);
    drop_bits_as::<Brand>(image, hand, held, at, count, at + count);
}

/// Clears the bits of the units from the floor on, below a unit that all consumers have reached. It is the floor then.
fn clear_units(image: &Words, hand: &mut Hand, to: u64)
    requires fits { hand.old.seat.table_id ≡ image.now.table.shared.table_id }
    requires idle { hand.old.seat.me.0.held.out ≡ 0 }
    requires exact { IsExact image.now.key hand.old.seat.me.0.held }
    requires rise { MayRise image.now.key hand.old.seat.me.0 to }
    requires low { 32 * to < 2 ^ 64 }
    ensures fits { hand.new.seat.table_id ≡ hand.old.seat.table_id }
    ensures slots { hand.new.seat.me.1 ≡ hand.old.seat.me.1 }
    ensures cleared { Cleared image.now.key hand.old.seat.me.0 to hand.new.seat.me.0 }
{
    let _ = &image.table;
    let _ = &hand.seat;
    let mut at = hand.floor;
    while at < to {
        let count = (to - at).min(64 - at % 64);
        clear_part(image, hand, count);
        at += count;
    }
}

/// Takes all of the right to read the frame at a unit out of its slots, which are out then.
fn take_frame(image: &Words, hand: &mut Hand, unit: u64) -> ReadAccess
    requires fits { hand.old.seat.table_id ≡ image.now.table.shared.table_id }
    requires slots { hand.old.seat.me.1 ≡ [] }
    requires next { IsNext (ring image.now.key) hand.old.seat.me.0.held unit }
    requires may { MayTake image.now.key hand.old.seat.me.0 unit }
    ensures fits { hand.new.seat.table_id ≡ hand.old.seat.table_id }
    ensures out { hand.new.seat.me.0 ≡ with_out hand.old.seat.me.0 (unit + 1) }
    ensures slots { Carries image.now.table.shared.key AnyPart unit hand.new.seat.me.1 }
    ensures whole { IsShare (ring image.now.key) image.now.table.shared.key.region (found_at
        hand.old.seat.me.0.held.got unit) (2 ^ 63) result }
{
    let _ = &image.table;
    let _ = &hand.seat;
    take_as::<Brand>(image, hand, unit);
    gather_parts::<Brand>(image, hand, unit)
}

/// Takes the memory of the frame at a unit back, which all consumers have left.
fn free_frame(image: &Words, hand: &mut Hand, room: Room, unit: u64) -> Room
    requires fits { hand.old.seat.table_id ≡ image.now.table.shared.table_id }
    requires idle { (hand.old.seat.me.1 ≡ []) × (hand.old.seat.me.0.held.out ≡ 0) }
    requires exact { IsExact image.now.key hand.old.seat.me.0.held }
    requires next { IsNext (ring image.now.key) hand.old.seat.me.0.held unit }
    requires passed { (j : ℕ) → j < length hand.old.seat.me.0.seen → end_of (found_at
        hand.old.seat.me.0.held.got unit) ≤ slice_index hand.old.seat.me.0.seen j }
    requires lies { room.pool.identity ≡ image.now.table.shared.key.region.identity }
    requires out { AreAll false (byte_place (ring image.now.key) (found_at
        hand.old.seat.me.0.held.got unit).unit) (32 * (found_at hand.old.seat.me.0.held.got
        unit).units) room.pool.free }
    ensures fits { hand.new.seat.table_id ≡ hand.old.seat.table_id }
    ensures slots { hand.new.seat.me.1 ≡ [] }
    ensures freed { hand.new.seat.me.0 ≡ record hand.old.seat.me.0 {
      held = record
          hand.old.seat.me.0.held {
            freed = end_of (found_at hand.old.seat.me.0.held.got unit);
            out =
                0;
          };
    } }
    ensures lies { result.pool.identity ≡ room.pool.identity }
    ensures rest { result.pool.free ≡ stands true (byte_place (ring image.now.key) (found_at
        hand.old.seat.me.0.held.got unit).unit) (32 * (found_at hand.old.seat.me.0.held.got
        unit).units) room.pool.free }
{
    let _ = &image.table;
    let _ = &hand.seat;
    let whole = take_frame(image, hand, unit);
    let Room {
        pool,
        region,
        start,
    } = room;
    let pool = pool.put(whole.end_reading());
    free_as::<Brand>(image, hand, unit);
    Room {
        pool,
        region,
        start,
    }
}

/// Takes the memory of the frames from the floor on back, below a unit that all consumers have reached. Their first words are
/// these, by where they begin in the ring.
fn free_units(image: &Words, hand: &mut Hand, room: Room, heads: &[u64], to: u64) -> Room
    requires fits { hand.old.seat.table_id ≡ image.now.table.shared.table_id }
    requires idle { (hand.old.seat.me.1 ≡ []) × (hand.old.seat.me.0.held.out ≡ 0) }
    requires exact { IsExact image.now.key hand.old.seat.me.0.held }
    requires freed { hand.old.seat.me.0.held.freed ≡ hand.old.seat.me.0.held.floor }
    requires memory { HasMemory (ring image.now.key) hand.old.seat.me.0.held room.pool.free
        heads.now }
    requires rise { MayRise image.now.key hand.old.seat.me.0 to }
    requires reached { (u : ℕ) → hand.old.seat.me.0.held.floor ≤ u → u < to → Has
        hand.old.seat.me.0.held.got u }
    requires edge { (f : Frame) → Among f hand.old.seat.me.0.held.got → f.unit < to → end_of f ≤ to }
    requires lies { room.pool.identity ≡ image.now.table.shared.key.region.identity }
    requires low { 32 * to < 2 ^ 64 }
    ensures fits { hand.new.seat.table_id ≡ hand.old.seat.table_id }
    ensures slots { hand.new.seat.me.1 ≡ [] }
    ensures freed { hand.new.seat.me.0 ≡ record hand.old.seat.me.0 {
      held = record
          hand.old.seat.me.0.held { freed = to; out = 0 };
    } }
    ensures lies { result.pool.identity ≡ room.pool.identity }
    ensures memory { HasMemory (ring image.now.key) hand.new.seat.me.0.held result.pool.free
        heads.now }
{
    let _ = &image.table;
    let _ = &hand.seat;
    let mut room = room;
    let mut at = hand.floor;
    while at < to {
        let head = head_in(heads[image.place(at)], 32 * at);
        room = free_frame(image, hand, room, at);
        at += u64::from(align32(head.frame_length)) / 32;
    }
    room
}

/// Takes the memory of all frames below a position back, and clears their bits, where each consumer was seen there or further
/// on. It is the floor then.
pub(crate) fn clear_to(image: &Image, inserter: &mut FrameStore, floor: u64)
    requires fits { IsStoreOf image.now inserter.old }
    requires may { MayClearTo inserter.old floor }
    ensures fits { IsStoreOf image.now inserter.new }
    ensures cleared { ClearedTo inserter.old floor inserter.new }
{
    let _ = &image.words;
    let _ = &inserter.hand;
    let to = floor / 32;
    let Some(room) = inserter.room.take() else {
        unreachable!();
    };
    let words = &image.words;
    let heads = inserter.heads.as_slice();
    let room = free_units(words, &mut inserter.hand, room, heads, to);
    inserter.room = Some(room);
    clear_units(words, &mut inserter.hand, to);
}
