//! A reader of an image: its seat, and its steps.

ghost use Rattle.std.specs.Prelude.{◌≡◌, ◌*◌, [], ◌+◌, ◌/◌, ◌%◌, ◌^◌, ◌<◌, ◌≤◌};
ghost use Rattle.image.specs.Handles.{position_of};
ghost use Rattle.image.specs.Parts.{CarriesPart};
ghost use Rattle.image_rule.specs.Frames.{end_of, ring};
ghost use Rattle.image_rule.specs.Reads.{IsRead};
ghost use Rattle.image_rule.specs.Steps.{Looks, MayMove, Moves};

pub(crate) mod reading;

use crate::words::{IMAGE, Words};
use atomic_table::Seat;
use image_rule::{Look, Move, Picked, View};
use region::{ReadAccess, RegionKey};
use std::marker::Model;

/// One of an image's consumers.
#[derive(Drop)]
pub(crate) struct Standing {
    pub(crate) seat: Seat<ReadAccess, View>,
    pub(crate) number: u64,
    /// The unit where it stands.
    pub(crate) unit: u64,
    /// The unit where the frame ends that it has read here; its own unit, if it has read none.
    pub(crate) read_to: u64,
    /// How many units the image's ring has, and which region its frames lie in.
    pub(crate) units: u64,
    pub(crate) region: RegionKey,
    ghost plain: { seat.me.0.inserting ≡ 0 },
    ghost reads: { seat.me.0.reading.reads ≡ 1 },
    ghost number_is: { number ≡ seat.me.0.reading.number },
    ghost unit_is: { unit ≡ seat.me.0.reading.unit },
    ghost few: { number < 8 },
    ghost low: { unit ≤ 2 ^ 56 },
    ghost read: { unit < read_to → IsRead seat.me.0 read_to × (seat.me.0.reading.holds ≡ 1) },
    ghost carries: { CarriesPart units region seat.me },
}

/// Loads the word of held bits where the reader stands. Where the bit is set, the reader has its part of the frame there.
#[inline(always)]
pub(crate) fn look_as<N: Picked>(image: &Words, reader: &mut Standing) -> u64
    requires fits { reader.old.seat.table_id ≡ image.now.table.shared.table_id }
    requires chosen { N.site ≡ image.now.table.shared.key }
    requires ring { (reader.old.units ≡ ring image.now.key) × (reader.old.region ≡
        image.now.table.shared.key.region) }
    ensures fits { reader.new.seat.table_id ≡ reader.old.seat.table_id }
    ensures same { (reader.new.unit ≡ reader.old.unit) × (reader.new.number ≡ reader.old.number) × (reader.new.read_to ≡ reader.old.unit) }
    ensures ring { (reader.new.units ≡ reader.old.units) × (reader.new.region ≡ reader.old.region) }
    ensures told { Looks image.now.table.shared.key reader.old.seat.me result reader.new.seat.me }
{
    let place = IMAGE + image.held_word(reader.unit);
    let words = &image.table.shared;
    reader.read_to = reader.unit;
    words.load::<Look<N>>(&mut reader.seat, place)
}

/// Stores the end of the frame that the reader has its part of, and gives that back.
#[inline(always)]
pub(crate) fn move_as<N: Picked>(image: &Words, reader: &mut Standing, end: u64)
    requires fits { reader.old.seat.table_id ≡ image.now.table.shared.table_id }
    requires low { end ≤ 2 ^ 56 }
    requires ends { end ≡ end_of N.frame }
    requires may { MayMove image.now.table.shared.key N.frame reader.old.seat.me }
    ensures fits { reader.new.seat.table_id ≡ reader.old.seat.table_id }
    ensures same { (reader.new.unit ≡ end) × (reader.new.number ≡ reader.old.number) × (reader.new.read_to ≡ end) }
    ensures ring { (reader.new.units ≡ reader.old.units) × (reader.new.region ≡ reader.old.region) }
    ensures told { Moves N.frame reader.old.seat.me (32 * end) reader.new.seat.me }
{
    let _ = &image.table;
    let words = &image.table.shared;
    words.store::<Move<N>>(&mut reader.seat, 16 * reader.number as usize, 32 * end);
    reader.unit = end;
    reader.read_to = end;
}

/// One of an image's consumers.
#[derive(Drop)]
pub struct ImageReader {
    pub(crate) standing: Standing,
}

impl Model for ImageReader {
    ghost use Rattle.image.specs.Handles.{ReaderSeat};

    ghost Value = { ReaderSeat };

    ghost view = { λ r. record { of = record { table = r.standing.seat.table_id; region = r.standing.region; units = r.standing.units }; view = r.standing.seat.me.0; read_to = r.standing.read_to } };
}

impl ImageReader {
    /// Its number among the image's consumers, 0 to 7.
    pub fn number(&self) -> u64
        ensures { result ≡ self.now.view.reading.number }
    {
        let _ = &self.standing.seat;
        self.standing.number
    }

    /// Where it stands.
    pub fn position(&self) -> u64
        ensures { result ≡ position_of self.now }
    {
        let _ = &self.standing.seat;
        32 * self.standing.unit
    }
}
