//! The inserter's seat, and its steps.

ghost use Rattle.std.specs.Prelude.{◌≡◌, ℕ, ◌*◌, ◌^◌, ◌<◌};
ghost use Rattle.image_rule.specs.Frames.{image_length, ring};
ghost use Rattle.image_rule.specs.Steps.{Changes, Commits, Fetches, Frees, May, MayCommit, MayFree, MayRaise, MayStore, MayTake, Sweeps, TakesSlots};

use crate::words::{IMAGE, Words};
use atomic_table::Seat;
use image_rule::{Change, Changing, Chosen, Commit, Fetch, Free, Picked, Sweep, Take, View};
use region::ReadAccess;

/// Who stores what an image holds.
#[derive(Drop)]
pub(crate) struct Hand {
    pub(crate) seat: Seat<ReadAccess, View>,
    /// The unit below which nothing is held any more.
    pub(crate) floor: u64,
    ghost inserts: { seat.me.0.inserting ≡ 1 },
    ghost floor_is: { floor ≡ seat.me.0.held.floor },
    ghost low: { 32 * floor < 2 ^ 64 },
}

/// Loads the position of a consumer.
#[inline(always)]
pub(crate) fn see_as<N: Chosen>(image: &Words, hand: &mut Hand, number: u64) -> u64
    requires fits { hand.old.seat.table_id ≡ image.now.table.shared.table_id }
    requires inside { number < image.now.key.consumers }
    requires chosen { N.number ≡ number }
    ensures fits { hand.new.seat.table_id ≡ hand.old.seat.table_id }
    ensures slots { hand.new.seat.me.1 ≡ hand.old.seat.me.1 }
    ensures told { Sweeps number hand.old.seat.me.0 result hand.new.seat.me.0 }
{
    let _ = &image.table;
    let words = &image.table.shared;
    words.load::<Sweep<N>>(&mut hand.seat, 16 * number as usize)
}

/// Loads a word of the image.
#[inline(always)]
pub(crate) fn fetch_as<N: Chosen>(image: &Words, hand: &mut Hand, place: usize) -> u64
    requires fits { hand.old.seat.table_id ≡ image.now.table.shared.table_id }
    requires inside { place < image_length (ring image.now.key) }
    requires chosen { N.number ≡ place }
    ensures fits { hand.new.seat.table_id ≡ hand.old.seat.table_id }
    ensures slots { hand.new.seat.me.1 ≡ hand.old.seat.me.1 }
    ensures told { Fetches place hand.old.seat.me.0 result hand.new.seat.me.0 }
{
    let _ = &image.table;
    let words = &image.table.shared;
    words.load::<Fetch<N>>(&mut hand.seat, IMAGE + place)
}

/// Stores a word of the image. The floor stays, and isn't written down again: a plain store between two of the sequentially
/// consistent ones would make the second wait.
#[inline(always)]
pub(crate) fn store_as<N: Changing>(image: &Words, hand: &mut Hand, place: usize, word: u64)
    requires fits { hand.old.seat.table_id ≡ image.now.table.shared.table_id }
    requires inside { place < image_length (ring image.now.key) }
    requires chosen { (N.place ≡ place) × (N.floor ≡ hand.old.floor) }
    requires may { May image.now.key hand.old.seat.me.0 place word N.floor
        hand.old.seat.me.0.held.got }
    ensures fits { hand.new.seat.table_id ≡ hand.old.seat.table_id }
    ensures slots { hand.new.seat.me.1 ≡ hand.old.seat.me.1 }
    ensures told { Changes place word N.floor hand.old.seat.me.0.held.got hand.old.seat.me.0
        hand.new.seat.me.0 }
{
    let _ = &image.table;
    let words = &image.table.shared;
    words.store::<Change<N>>(&mut hand.seat, IMAGE + place, word);
}

/// Stores a word of the image. The floor is this one then.
#[inline(always)]
pub(crate) fn change_as<N: Changing>(
    image: &Words,
    hand: &mut Hand,
    place: usize,
    word: u64,
    floor: u64,
)
    requires fits { hand.old.seat.table_id ≡ image.now.table.shared.table_id }
    requires inside { place < image_length (ring image.now.key) }
    requires chosen { (N.place ≡ place) × (N.floor ≡ floor) }
    requires low { 32 * floor < 2 ^ 64 }
    requires may { May image.now.key hand.old.seat.me.0 place word N.floor
        hand.old.seat.me.0.held.got }
    requires raise { MayRaise image.now.key hand.old.seat.me.0 N.floor }
    ensures fits { hand.new.seat.table_id ≡ hand.old.seat.table_id }
    ensures slots { hand.new.seat.me.1 ≡ hand.old.seat.me.1 }
    ensures told { Changes place word N.floor hand.old.seat.me.0.held.got hand.old.seat.me.0
        hand.new.seat.me.0 }
{
    let _ = &image.table;
    let words = &image.table.shared;
    words.store::<Change<N>>(&mut hand.seat, IMAGE + place, word);
    hand.floor = floor;
}

/// Takes the slots of a unit.
pub(crate) fn take_as<N: Picked>(image: &Words, hand: &mut Hand, unit: u64)
    requires fits { hand.old.seat.table_id ≡ image.now.table.shared.table_id }
    requires chosen { (N.site ≡ image.now.table.shared.key) × (N.unit ≡ unit) }
    requires may { MayTake image.now.key hand.old.seat.me.0 N.unit }
    ensures fits { hand.new.seat.table_id ≡ hand.old.seat.table_id }
    ensures told { TakesSlots N.site N.unit hand.old.seat.me hand.new.seat.me }
{
    let _ = &image.table;
    let _ = unit;
    let words = &image.table.shared;
    words.load::<Take<N>>(&mut hand.seat, IMAGE);
}

/// Stores a word of held bits, and with it a frame, whose parts go to the consumers.
pub(crate) fn commit_as<N: Picked>(image: &Words, hand: &mut Hand, place: usize, word: u64)
    requires fits { hand.old.seat.table_id ≡ image.now.table.shared.table_id }
    requires inside { place < image_length (ring image.now.key) }
    requires chosen { (N.site ≡ image.now.table.shared.key) × (N.place ≡ place) }
    requires may { MayStore image.now.key hand.old.seat.me.0.held N.frame place word }
    requires parts { MayCommit N.site N.frame hand.old.seat.me }
    ensures fits { hand.new.seat.table_id ≡ hand.old.seat.table_id }
    ensures told { Commits N.place N.frame hand.old.seat.me word hand.new.seat.me }
{
    let _ = &image.table;
    let words = &image.table.shared;
    words.store::<Commit<N>>(&mut hand.seat, IMAGE + place, word);
}

/// Gives the slots of a frame back, whose memory was taken back.
pub(crate) fn free_as<N: Picked>(image: &Words, hand: &mut Hand, unit: u64)
    requires fits { hand.old.seat.table_id ≡ image.now.table.shared.table_id }
    requires chosen { (N.site ≡ image.now.table.shared.key) × (N.frame.unit ≡ unit) }
    requires may { MayFree N.site N.frame hand.old.seat.me }
    ensures fits { hand.new.seat.table_id ≡ hand.old.seat.table_id }
    ensures told { (n : ℕ) × Frees N.frame hand.old.seat.me n hand.new.seat.me }
{
    let _ = &image.table;
    let _ = unit;
    let words = &image.table.shared;
    words.load::<Free<N>>(&mut hand.seat, IMAGE);
}
