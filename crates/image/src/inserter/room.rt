//! The memory where frames lie, and the parts of the right to read them.

ghost use Rattle.std.specs.Prelude.{◌≡◌, ℕ, suc, [], ◌+◌, ◌*◌, ◌%◌, ◌^◌, ◌<◌, ◌≤◌, true, false, length};
ghost use Rattle.frames.specs.Frames.{wire};
ghost use Rattle.theory.specs.Wire.{IsFrame, spelling};
ghost use Rattle.region.specs.Identity.{start_address};
ghost use Rattle.region.specs.Pooled.{AreAll, stands};
ghost use Rattle.image_rule.specs.declared.view.Frame as stored;
ghost use Rattle.image_rule.specs.declared.view.Site as sites;
ghost use Rattle.image_rule.specs.Frames.{IsPart, byte_place, ring};
ghost use Rattle.image_rule.specs.Steps.{Carries, TakenOver};
ghost use Rattle.image.specs.Parts.{AnyPart, IsShare, Turning};
ghost use Rattle.image.specs.Drafted.{drafted};

use crate::inserter::hand::Hand;
use crate::words::Words;
use frames::{Frame, write_frame};
use region::{EIGHTH, Pool, ReadAccess, Region, RegionStart};
use std::marker::Brand;
use std::sync::Arc;

/// The bytes that no frame has, and the region that they are of.
#[derive(Drop)]
pub(crate) struct Room {
    pub(crate) pool: Pool,
    pub(crate) region: Arc<Region>,
    pub(crate) start: RegionStart,
    ghost lies: { pool.identity ≡ region.value.identity },
    ghost starts: { start.address ≡ start_address region.value.identity },
}

/// A frame that is stored: the unit at which it starts, how many units it covers, and what it is on the wire.
#[derive(Clone, Copy)]
pub(crate) struct Draft<'a> {
    pub(crate) unit: u64,
    pub(crate) units: u64,
    pub(crate) frame: Frame<'a>,
}

/// Writes a frame to its place in the ring, where its bytes begin, which were free. The answer is all of the right to read it.
pub(crate) fn write_draft(
    image: &Words,
    room: Room,
    at: usize,
    draft: &Draft<'_>,
) -> (Room, ReadAccess)
    requires at { at ≡ byte_place (ring image.now.key) draft.now.unit }
    requires frame { IsFrame (wire draft.now.frame) }
    requires some { 0 < draft.now.units }
    requires short { draft.now.units ≤ 2 ^ 40 }
    requires fits { length (spelling (wire draft.now.frame)) ≤ 32 * draft.now.units }
    requires lies { room.pool.identity ≡ image.now.table.shared.key.region.identity }
    requires free { AreAll true (byte_place (ring image.now.key) draft.now.unit) (32 *
        draft.now.units) room.pool.free }
    ensures lies { result.0.pool.identity ≡ room.pool.identity }
    ensures rest { result.0.pool.free ≡ stands false (byte_place (ring image.now.key)
        draft.now.unit) (32 * draft.now.units) room.pool.free }
    ensures whole { IsShare (ring image.now.key) image.now.table.shared.key.region (drafted
        draft.now) (2 ^ 63) result.1 }
{
    let _ = &image.table;
    let Room {
        pool,
        region,
        start,
    } = room;
    let length = 32 * draft.units as usize;
    let (access, pool) = pool.take(at, length);
    let (mut bytes, loan) = access.lend(region, start, at, length);
    let _size = write_frame(&draft.frame, &mut bytes);
    let (region, access) = loan.end(bytes);
    let whole = access.begin_reading(&region);
    (
        Room {
            pool,
            region,
            start,
        },
        whole,
    )
}

/// What a call picks for the parts of a frame: the image's table, the frame, and the round and the account of the parts.
pub(crate) trait Parted {
    ghost site: { sites.Site };

    ghost frame: { stored.Frame };

    ghost round: { ℕ };

    ghost book: { ℕ };
}

impl Parted for Brand {
    ghost use Rattle.image_rule.specs.Reads.{no_frame};
    ghost use Rattle.image_rule.specs.Steps.{no_site};

    ghost site = { no_site };

    ghost frame = { no_frame };

    ghost round = { 0 };

    ghost book = { 0 };
}

/// Puts a consumer's part into the slot in front, which goes behind the others.
fn put_part<N: Parted>(image: &Words, hand: &mut Hand, unit: u64, number: u64, part: ReadAccess)
    requires fits { hand.old.seat.table_id ≡ image.now.table.shared.table_id }
    requires chosen { N.site ≡ image.now.table.shared.key }
    requires few { number < 8 }
    requires turning { Turning N.site AnyPart (IsPart (ring N.site.key) N.site.region N.frame
        N.round N.book) unit (suc number) hand.old.seat.me.1 }
    requires part { IsPart (ring N.site.key) N.site.region N.frame N.round N.book part }
    ensures fits { hand.new.seat.table_id ≡ hand.old.seat.table_id }
    ensures same { hand.new.seat.me.0 ≡ hand.old.seat.me.0 }
    ensures turning { Turning N.site AnyPart (IsPart (ring N.site.key) N.site.region N.frame N.round
        N.book) unit number hand.new.seat.me.1 }
{
    let _ = &image.table;
    let words = &image.table.shared;
    let slot = image.slot(unit, number);
    let _old = words.exchange(&mut hand.seat, slot, part);
    hand.seat.turn();
}

/// Takes a consumer's part out of the slot in front, which goes behind the others.
fn take_part<N: Parted>(image: &Words, hand: &mut Hand, unit: u64, number: u64) -> ReadAccess
    requires fits { hand.old.seat.table_id ≡ image.now.table.shared.table_id }
    requires chosen { N.site ≡ image.now.table.shared.key }
    requires few { number < 8 }
    requires turning { Turning N.site (IsPart (ring N.site.key) N.site.region N.frame N.round
        N.book) AnyPart unit (suc number) hand.old.seat.me.1 }
    ensures fits { hand.new.seat.table_id ≡ hand.old.seat.table_id }
    ensures same { hand.new.seat.me.0 ≡ hand.old.seat.me.0 }
    ensures turning { Turning N.site (IsPart (ring N.site.key) N.site.region N.frame N.round N.book)
        AnyPart unit number hand.new.seat.me.1 }
    ensures part { IsPart (ring N.site.key) N.site.region N.frame N.round N.book result }
{
    let _ = &image.table;
    let words = &image.table.shared;
    let slot = image.slot(unit, number);
    let part = words.exchange(&mut hand.seat, slot, ReadAccess::none());
    hand.seat.turn();
    part
}

/// Puts each consumer's part of a frame into its slot.
pub(crate) fn deal_parts<N: Parted>(
    image: &Words,
    hand: &mut Hand,
    draft: &Draft<'_>,
    whole: ReadAccess,
)
    requires fits { hand.old.seat.table_id ≡ image.now.table.shared.table_id }
    requires chosen { (N.site ≡ image.now.table.shared.key) × (whole.round ≡ record {
      life =
          N.round;
      book = N.book;
    }) }
    requires slots { Carries N.site AnyPart draft.now.unit hand.old.seat.me.1 }
    requires whole { IsShare (ring N.site.key) N.site.region N.frame (2 ^ 63) whole }
    ensures fits { hand.new.seat.table_id ≡ hand.old.seat.table_id }
    ensures same { hand.new.seat.me.0 ≡ hand.old.seat.me.0 }
    ensures slots { Carries N.site (IsPart (ring N.site.key) N.site.region N.frame N.round N.book)
        draft.now.unit hand.new.seat.me.1 }
{
    let _ = &image.table;
    let unit = draft.unit;
    let mut rest = whole;
    let mut left: u64 = 8;
    while left > 0 {
        left -= 1;
        let (part, others) = rest.split(EIGHTH);
        rest = others;
        put_part::<N>(image, hand, unit, left, part);
    }
}

/// Takes each consumer's part of a frame out of its slot. The answer is all of the right to read it.
pub(crate) fn gather_parts<N: Parted>(image: &Words, hand: &mut Hand, unit: u64) -> ReadAccess
    requires fits { hand.old.seat.table_id ≡ image.now.table.shared.table_id }
    requires chosen { N.site ≡ image.now.table.shared.key }
    requires slots { Carries N.site (IsPart (ring N.site.key) N.site.region N.frame N.round N.book)
        unit hand.old.seat.me.1 }
    ensures fits { hand.new.seat.table_id ≡ hand.old.seat.table_id }
    ensures same { hand.new.seat.me.0 ≡ hand.old.seat.me.0 }
    ensures slots { Carries N.site AnyPart unit hand.new.seat.me.1 }
    ensures whole { IsShare (ring N.site.key) N.site.region N.frame (2 ^ 63) result }
{
    let _ = &image.table;
    let mut whole = take_part::<N>(image, hand, unit, 7);
    let mut left: u64 = 7;
    while left > 0 {
        left -= 1;
        let part = take_part::<N>(image, hand, unit, left);
        whole = whole.join(part);
    }
    whole
}
