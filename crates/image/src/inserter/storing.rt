//! A frame is stored: its bytes, the right to read them, its start bit, the held bits in later words than its first unit's, and
//! last those in that word.

ghost use Rattle.std.specs.Prelude.{◌≡◌, [], ◌+◌, ◌*◌, ◌/◌, ◌%◌, ◌^◌, ◌<◌, ◌≤◌, length};
ghost use Rattle.frames.specs.Frames.{wire};
ghost use Rattle.theory.specs.Placed as placed;
ghost use Rattle.theory.specs.Wire.{IsFrame};
ghost use Rattle.image_rule.specs.Frames.{held_place, image_length, ring, start_place};
ghost use Rattle.image_rule.specs.Bits.{IsExact, Marked, MayInsert, MaySet, SetsBits, Stored, next_word, rest_end};
ghost use Rattle.image_rule.specs.Steps.{MayCommit};
ghost use Rattle.image.specs.Drafted.{drafted};
ghost use Rattle.image.specs.Handles.{IsStoreOf, floor_of, stored_by};
ghost use Rattle.image.specs.Inserting.{Stores};
ghost use Rattle.image.specs.Parts.{IsShare};
ghost use Rattle.image.specs.Rebuilding.{FitsIn};
ghost use Rattle.image.specs.Stored.{IsOfStream, stream_frame};

use crate::inserter::frame_store::FrameStore;
use crate::inserter::hand::{Hand, commit_as, fetch_as, store_as, take_as};
use crate::inserter::room::{Draft, deal_parts, write_draft};
use crate::inserter::spelling::{first_of, spell};
use crate::words::{Image, Words, mask};
use frames::Frame;
use image_rule::{Changing, Picked};
use position::align32;
use region::ReadAccess;
use std::marker::Brand;

/// Sets the bits of so many units from one on, in the word at a place.
#[inline(always)]
fn set_bits_as<N: Changing>(image: &Words, hand: &mut Hand, place: usize, at: u64, count: u64)
    requires fits { hand.old.seat.table_id ≡ image.now.table.shared.table_id }
    requires some { 0 < count }
    requires short { at % 64 + count ≤ 64 }
    requires inside { place < image_length (ring image.now.key) }
    requires chosen { (N.place ≡ place) × (N.floor ≡ hand.old.floor) }
    requires may { MaySet image.now.key hand.old.seat.me.0 place at count N.floor
        hand.old.seat.me.0.held.got }
    ensures fits { hand.new.seat.table_id ≡ hand.old.seat.table_id }
    ensures slots { hand.new.seat.me.1 ≡ hand.old.seat.me.1 }
    ensures set { SetsBits hand.old.seat.me.0 place at count N.floor hand.old.seat.me.0.held.got
        hand.new.seat.me.0 }
{
    let old = fetch_as::<Brand>(image, hand, place);
    let low = at % 64;
    let word = old | mask(low, low + count);
    store_as::<N>(image, hand, place, word);
}

/// Sets a frame's start bit, in the word at this place.
fn set_start(image: &Words, hand: &mut Hand, place: usize, draft: &Draft<'_>)
    requires fits { hand.old.seat.table_id ≡ image.now.table.shared.table_id }
    requires there { place ≡ start_place (ring image.now.key) draft.now.unit }
    requires inside { place < image_length (ring image.now.key) }
    requires may { MayInsert image.now.key hand.old.seat.me.0.held (drafted draft.now) }
    requires exact { IsExact image.now.key hand.old.seat.me.0.held }
    ensures fits { hand.new.seat.table_id ≡ hand.old.seat.table_id }
    ensures slots { hand.new.seat.me.1 ≡ hand.old.seat.me.1 }
    ensures marked { Marked image.now.key hand.old.seat.me.0 (drafted draft.now) (next_word (drafted
        draft.now)) (next_word (drafted draft.now)) hand.new.seat.me.0 }
{
    let _ = &image.table;
    let _ = &hand.seat;
    set_bits_as::<Brand>(image, hand, place, draft.unit, 1);
}

/// Sets the bits of a frame's units that don't lie in its first unit's word.
fn mark_rest(image: &Words, hand: &mut Hand, draft: &Draft<'_>)
    requires fits { hand.old.seat.table_id ≡ image.now.table.shared.table_id }
    requires may { MayInsert image.now.key hand.old.seat.me.0.held (drafted draft.now) }
    requires marked { Marked image.now.key hand.old.seat.me.0 (drafted draft.now) (next_word
        (drafted draft.now)) (next_word (drafted draft.now)) hand.old.seat.me.0 }
    ensures fits { hand.new.seat.table_id ≡ hand.old.seat.table_id }
    ensures slots { hand.new.seat.me.1 ≡ hand.old.seat.me.1 }
    ensures marked { Marked image.now.key hand.old.seat.me.0 (drafted draft.now) (next_word (drafted
        draft.now)) (rest_end (drafted draft.now)) hand.new.seat.me.0 }
{
    let _ = &image.table;
    let _ = &hand.seat;
    let end = draft.unit + draft.units;
    let mut at = (draft.unit / 64 + 1) * 64;
    while at < end {
        let count = (end - at).min(64);
        let place = image.held_word(at);
        set_bits_as::<Brand>(image, hand, place, at, count);
        at += count;
    }
}

/// Sets the bits of a frame's units that lie in its first unit's word, which has this place, and gives the consumers their
/// parts: from then on it is stored.
fn set_first_as<N: Picked>(image: &Words, hand: &mut Hand, place: usize, draft: &Draft<'_>)
    requires fits { hand.old.seat.table_id ≡ image.now.table.shared.table_id }
    requires there { place ≡ held_place (ring image.now.key) draft.now.unit }
    requires inside { place < image_length (ring image.now.key) }
    requires may { MayInsert image.now.key hand.old.seat.me.0.held (drafted draft.now) }
    requires marked { Marked image.now.key hand.old.seat.me.0 (drafted draft.now) (next_word
        (drafted draft.now)) (rest_end (drafted draft.now)) hand.old.seat.me.0 }
    requires chosen { (N.site ≡ image.now.table.shared.key) × (N.place ≡ place) × (N.frame ≡ drafted
        draft.now) }
    requires parts { MayCommit N.site (drafted draft.now) hand.old.seat.me }
    ensures fits { hand.new.seat.table_id ≡ hand.old.seat.table_id }
    ensures slots { hand.new.seat.me.1 ≡ [] }
    ensures stored { Stored image.now.key hand.old.seat.me.0 (drafted draft.now) hand.new.seat.me.0 }
{
    let _ = &image.table;
    let _ = &hand.seat;
    let count = draft.units.min(64 - draft.unit % 64);
    let old = fetch_as::<Brand>(image, hand, place);
    let low = draft.unit % 64;
    let word = old | mask(low, low + count);
    commit_as::<N>(image, hand, place, word);
}

/// Sets the bits of a frame whose parts are in its slots, which are out. Its start bit lies in the word with the number `start`,
/// its first held bit in that with the number `held`.
fn mark(image: &Words, hand: &mut Hand, start: usize, held: usize, draft: &Draft<'_>)
    requires fits { hand.old.seat.table_id ≡ image.now.table.shared.table_id }
    requires start { (start ≡ start_place (ring image.now.key) draft.now.unit) × (start <
        image_length (ring image.now.key)) }
    requires held { (held ≡ held_place (ring image.now.key) draft.now.unit) × (held < image_length
        (ring image.now.key)) }
    requires exact { IsExact image.now.key hand.old.seat.me.0.held }
    requires may { MayInsert image.now.key hand.old.seat.me.0.held (drafted draft.now) }
    requires parts { MayCommit image.now.table.shared.key (drafted draft.now) hand.old.seat.me }
    ensures fits { hand.new.seat.table_id ≡ hand.old.seat.table_id }
    ensures slots { hand.new.seat.me.1 ≡ [] }
    ensures stored { Stored image.now.key hand.old.seat.me.0 (drafted draft.now) hand.new.seat.me.0 }
{
    let _ = &image.table;
    let _ = &hand.seat;
    set_start(image, hand, start, draft);
    mark_rest(image, hand, draft);
    set_first_as::<Brand>(image, hand, held, draft);
}

/// Stores a frame that may be inserted, whose bytes are written: `whole` is all of the right to read them. Its start bit lies in
/// the word with the number `start`, its first held bit in that with the number `held`.
fn store(
    image: &Words,
    hand: &mut Hand,
    start: usize,
    held: usize,
    draft: &Draft<'_>,
    whole: ReadAccess,
)
    requires fits { hand.old.seat.table_id ≡ image.now.table.shared.table_id }
    requires start { (start ≡ start_place (ring image.now.key) draft.now.unit) × (start <
        image_length (ring image.now.key)) }
    requires held { (held ≡ held_place (ring image.now.key) draft.now.unit) × (held < image_length
        (ring image.now.key)) }
    requires idle { (hand.old.seat.me.1 ≡ []) × (hand.old.seat.me.0.held.out ≡ 0) }
    requires exact { IsExact image.now.key hand.old.seat.me.0.held }
    requires may { MayInsert image.now.key hand.old.seat.me.0.held (drafted draft.now) }
    requires whole { IsShare (ring image.now.key) image.now.table.shared.key.region (drafted
        draft.now) (2 ^ 63) whole }
    ensures fits { hand.new.seat.table_id ≡ hand.old.seat.table_id }
    ensures slots { hand.new.seat.me.1 ≡ [] }
    ensures stored { Stored image.now.key hand.old.seat.me.0 (drafted draft.now) hand.new.seat.me.0 }
{
    let _ = &image.table;
    let _ = &hand.seat;
    take_as::<Brand>(image, hand, draft.unit);
    deal_parts::<Brand>(image, hand, draft, whole);
    mark(image, hand, start, held, draft);
}

/// Stores a frame of a stream, of this length, at a position from the floor on, where none of its units was stored. It counts
/// as stored from the store of its first unit's held bit on, which comes last.
pub(crate) fn store_frame(
    image: &Image,
    inserter: &mut FrameStore,
    start: u64,
    frame_length: u32,
    frame: &Frame<'_>,
)
    requires fits { IsStoreOf image.now inserter.old }
    requires frame { IsFrame (wire frame.now) }
    requires of_stream { IsOfStream frame.now }
    requires length { frame_length ≡ placed.frame_length (stream_frame frame.now) }
    requires short { frame_length ≤ 2 ^ 24 }
    requires may { FitsIn inserter.old.key.identity.geometry (floor_of inserter.old) (stored_by
        inserter.old) (record { at = start; frame = stream_frame frame.now }) }
    ensures fits { IsStoreOf image.now inserter.new }
    ensures stored { Stores inserter.old (record { at = start; frame = stream_frame frame.now })
        inserter.new }
{
    let _ = &image.words;
    let _ = &inserter.hand;
    let words = &image.words;
    let draft = Draft {
        unit: start / 32,
        units: u64::from(align32(frame_length)) / 32,
        frame: spell(&words.key.identity, start, frame),
    };
    let first = first_of(&draft.frame);
    // All places are found before the first store, since nothing that was loaded before it is kept in a register.
    let place = words.place(draft.unit);
    let at = words.byte(draft.unit);
    let start = words.start_word(draft.unit);
    let held = words.held_word(draft.unit);
    let Some(room) = inserter.room.take() else {
        unreachable!();
    };
    let (room, whole) = write_draft(words, room, at, &draft);
    inserter.room = Some(room);
    inserter.heads[place] = first;
    store(words, &mut inserter.hand, start, held, &draft, whole);
}
