//! The inserter looks at what it has stored.

ghost use Rattle.std.specs.Prelude.{◌≡◌, ◌+◌, ◌*◌, ◌/◌, ◌%◌, ◌<◌, ◌≤◌, ◌↔◌, IfNone, IfSome, IsTrue};
ghost use Rattle.image_rule.specs.Frames.{HasStart, ring};
ghost use Rattle.image_rule.specs.Bits as bits;
ghost use Rattle.image_rule.specs.Bits.{IsExact};
ghost use Rattle.image.specs.Handles.{IsStoreOf, floor_of, stored_by};
ghost use Rattle.image.specs.Looking.{IsHeadOf, TellsUnits};

use crate::inserter::frame_store::FrameStore;
use crate::inserter::hand::{Hand, fetch_as};
use crate::words::{Image, Words, mask};
use position::{FrameHead, head_in};
use std::marker::Brand;

/// Whether none of these units was stored, from the floor on and at most a ring above it.
pub(crate) fn units_free(image: &Words, hand: &mut Hand, from: u64, to: u64) -> bool
    requires fits { hand.old.seat.table_id ≡ image.now.table.shared.table_id }
    requires low { hand.old.floor ≤ from }
    requires near { to ≤ hand.old.floor + ring image.now.key }
    requires exact { IsExact image.now.key hand.old.seat.me.0.held }
    ensures fits { hand.new.seat.table_id ≡ hand.old.seat.table_id }
    ensures same { hand.new.seat.me ≡ hand.old.seat.me }
    ensures free { IsTrue result ↔ bits.AreFree hand.old.seat.me.0.held from to }
{
    let _ = &image.table;
    let mut at = from;
    while at < to {
        let low = at % 64;
        let count = (64 - low).min(to - at);
        let place = image.held_word(at);
        let word = fetch_as::<Brand>(image, hand, place);
        if word & mask(low, low + count) != 0 {
            return false;
        }
        at += count;
    }
    true
}

/// A word of the bits that say which units were stored, 64 in a word: bit `p % 2048 / 32` of word `p % (3 * T) / 2048` is
/// set exactly where the unit at p was stored, for each p from the floor on, below three terms T more.
pub(crate) fn held_bits(image: &Image, inserter: &mut FrameStore, index: usize) -> u64
    requires fits { IsStoreOf image.now inserter.old }
    requires index { index < 3 * inserter.old.key.identity.geometry.term_length / 2048 }
    ensures same { inserter.new ≡ inserter.old }
    ensures units { TellsUnits inserter.old index result }
{
    let _ = &image.words;
    let _ = &inserter.hand;
    fetch_as::<Brand>(&image.words, &mut inserter.hand, index)
}

/// The head of the frame that was stored at a position from the floor on, below three terms more, where one starts there.
pub(crate) fn head_at(image: &Image, inserter: &mut FrameStore, position: u64) -> Option<FrameHead>
    requires fits { IsStoreOf image.now inserter.old }
    requires unit { position % 32 ≡ 0 }
    requires low { floor_of inserter.old ≤ position }
    requires near { position < floor_of inserter.old + 3 * inserter.old.key.identity.geometry.term_length }
    ensures same { inserter.new ≡ inserter.old }
    ensures none { IfNone result (HasStart (stored_by inserter.old) position → ⊥) }
    ensures head { IfSome result (λ head. HasStart (stored_by inserter.old) position × IsHeadOf
        inserter.old position head) }
{
    let _ = &image.words;
    let _ = &inserter.hand;
    let unit = position / 32;
    let place = image.words.place(unit);
    let start = image.words.start_word(unit);
    let word = fetch_as::<Brand>(&image.words, &mut inserter.hand, start);
    if (word >> (unit % 64)) & 1 != 1 {
        return None;
    }
    Some(head_in(inserter.heads.as_slice()[place], position))
}
