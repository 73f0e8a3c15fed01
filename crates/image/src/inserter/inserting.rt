//! Frames and heartbeats come: what becomes of them.

ghost use Rattle.std.specs.Prelude.{◌≡◌, ◌+◌, ◌*◌, ◌%◌, ◌^◌, ◌<◌, ◌≤◌, ℕ, false, true, pos, map, ◌-◌, ◌/◌};
ghost use Rattle.frames.specs.Frames.{wire};
ghost use Rattle.theory.specs.Insert.{head_of, insert_answer_at, is_duplicate};
ghost use Rattle.theory.specs.Placed.{frame_length, is_padding};
ghost use Rattle.theory.specs.Wire.{IsFrame};
ghost use Rattle.image.specs.Seen.{accepts, least};
ghost use Rattle.image.specs.Stored.{IsOfStream, IsUnit, meant, stream_frame};
ghost use Rattle.image.specs.Rebuilding.{Inserts, IsInserterOf, Looked, geometry_of, AreLaid};
ghost use Rattle.std.specs.List.{list_any};
ghost use Rattle.theory.specs.Position.{max_position};
ghost use Rattle.image.specs.Kinds.{is_pad};
ghost use Rattle.image.specs.Handles as seats;
ghost use Rattle.image.specs.Handles.{floor_of, stored_by};
ghost use Rattle.theory.specs.Units.{IsContiguous};
ghost use Rattle.image.specs.Runs.{AreBelow, IsRun};

use crate::answer::Insert;
use crate::held::{crosses_term, is_like, measure};
use crate::inserter::frame_store::FrameStore;
use crate::inserter::looking::{head_at, units_free};
use crate::inserter::storing::store_frame;
use crate::inserter::{Inserter, least};
use crate::words::Image;
use frames::Frame;
use position::{FrameKind, align32};

/// The end of what was stored without a gap, which lies from a position on, at the high-water mark or below.
pub(crate) fn run_end(image: &Image, words: &mut FrameStore, from: u64, high_water: u64) -> u64
    requires fits { seats.IsStoreOf image.now words.old }
    requires laid { AreLaid (stored_by words.old) }
    requires below { AreBelow (stored_by words.old) high_water }
    requires near { high_water < floor_of words.old + 3 * words.old.key.identity.geometry.term_length }
    requires low { high_water ≤ 2 ^ 56 }
    requires from { floor_of words.old ≤ from }
    requires run { IsRun (stored_by words.old) (32 * words.old.key.join) from }
    requires within { from ≤ high_water }
    ensures same { words.new ≡ words.old }
    ensures end { IsContiguous (stored_by words.old) (32 * words.old.key.join) result }
    ensures further { from ≤ result }
    ensures within { result ≤ high_water }
{
    let mut end = from;
    while end < high_water {
        let Some(head) = head_at(image, words, end) else {
            return end;
        };
        end += u64::from(align32(head.frame_length));
    }
    end
}

/// Whether a frame of this kind and length was stored at a position.
fn has_like(
    image: &Image,
    words: &mut FrameStore,
    start: u64,
    kind: FrameKind,
    frame_length: u32,
) -> bool
    requires fits { seats.IsStoreOf image.now words.old }
    requires laid { AreLaid (stored_by words.old) }
    requires unit { start % 32 ≡ 0 }
    requires from { floor_of words.old ≤ start }
    requires near { start < floor_of words.old + 3 * words.old.key.identity.geometry.term_length }
    requires below { start < 2 ^ 62 }
    ensures same { words.new ≡ words.old }
    ensures like { result ≡ list_any (is_duplicate (record { at = start; padding = is_pad kind; length = frame_length })) (map head_of (stored_by words.old)) }
{
    let Some(head) = head_at(image, words, start) else {
        return false;
    };
    is_like(&head, kind, frame_length)
}

/// What becomes of a frame, where the consumers were just looked at.
pub(crate) fn judge(
    image: &Image,
    inserter: &mut Inserter,
    position: i64,
    kind: FrameKind,
    frame_length: u32,
) -> Insert
    requires fits { IsInserterOf image.now inserter.old }
    requires unit { IsUnit position }
    requires long { 32 ≤ frame_length }
    requires length { frame_length ≤ 2 ^ 24 }
    ensures same { inserter.new ≡ inserter.old }
    ensures answer { meant result ≡ insert_answer_at (geometry_of inserter.old) (map head_of inserter.old.stored) inserter.old.floor inserter.old.window position (is_pad kind) frame_length }
{
    let geometry = image.identity().geometry();
    let size = align32(frame_length);
    if crosses_term(&geometry, position, size) {
        return Insert::CrossesTerm;
    }
    if position < 0 {
        return Insert::Below;
    }
    let start = position as u64;
    let least = inserter.words.floor();
    if start < least {
        return Insert::Below;
    }
    let needed = match kind {
        FrameKind::Data => start + u64::from(size),
        FrameKind::Pad => start + 32,
    };
    let reach = (least + u64::from(inserter.window)).min(geometry.max_position());
    if needed > reach {
        return Insert::OverWindow;
    }
    if has_like(image, &mut inserter.words, start, kind, frame_length) {
        return Insert::Duplicate;
    }
    let store = &mut inserter.words;
    let _ = &image.words;
    let _ = &store.hand;
    let end = start + u64::from(size);
    if units_free(&image.words, &mut store.hand, start / 32, end / 32) {
        Insert::Stored
    } else {
        Insert::Overlap
    }
}

/// Takes a DATA frame or a padding at a position, which is below every image where it is negative. The consumers are looked
/// at once. The answer is the first that applies, where m is the least position that was read, and the frame is stored only
/// where it is [`Insert::Stored`].
pub fn insert(image: &Image, inserter: &mut Inserter, position: i64, frame: &Frame<'_>) -> Insert
    requires fits { IsInserterOf image.now inserter.old }
    requires unit { IsUnit position }
    requires frame { IsFrame (wire frame.now) }
    requires of_stream { IsOfStream frame.now }
    ensures fits { IsInserterOf image.now inserter.new }
    ensures answer { meant result ≡ insert_answer_at (geometry_of inserter.old) (map head_of inserter.old.stored) (least inserter.new.seen) inserter.old.window position (is_padding (stream_frame frame.now)) (frame_length (stream_frame frame.now)) }
    ensures stored { result ≡ Insert.Stored → (p : ℕ) → position ≡ pos p → Inserts inserter.old (record { at = p; frame = stream_frame frame.now }) inserter.new }
    ensures others { (result ≡ Insert.Stored → ⊥) → Looked inserter.old inserter.old.stored inserter.old.high inserter.new }
{
    let (kind, frame_length) = measure(frame);
    let _ = least(image, inserter);
    let answer = judge(image, inserter, position, kind, frame_length);
    if answer == Insert::Stored {
        let _ = &inserter.words;
        let start = position as u64;
        let end = start + u64::from(align32(frame_length));
        store_frame(image, &mut inserter.words, start, frame_length, frame);
        inserter.high_water = inserter.high_water.max(end);
        inserter.rebuilt = run_end(
            image,
            &mut inserter.words,
            inserter.rebuilt,
            inserter.high_water,
        );
    }
    answer
}

/// Takes a sender's position, a multiple of 32. The consumers are looked at once. It is accepted, and raises the high-water
/// mark, if it is above the mark and at most three quarters of a term above the least position that was read. No frame is
/// stored.
pub fn heartbeat(image: &Image, inserter: &mut Inserter, position: i64) -> bool
    requires fits { IsInserterOf image.now inserter.old }
    requires unit { IsUnit position }
    ensures fits { IsInserterOf image.now inserter.new }
    ensures answer { result ≡ accepts (geometry_of inserter.old) inserter.old.high (least inserter.new.seen) position }
    ensures raised { result ≡ true → (p : ℕ) → position ≡ pos p → Looked inserter.old inserter.old.stored p inserter.new }
    ensures refused { result ≡ false → Looked inserter.old inserter.old.stored inserter.old.high inserter.new }
{
    let geometry = image.identity().geometry();
    let lowest = least(image, inserter);
    let ahead = u64::from(geometry.term_length()) * 3 / 4;
    let greatest = (lowest + ahead).min(geometry.max_position());
    if position < 0 || position as u64 <= inserter.high_water || position as u64 > greatest {
        return false;
    }
    inserter.high_water = position as u64;
    true
}
