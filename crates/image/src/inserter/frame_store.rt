//! The frames of an image as the inserter has them between two calls.

ghost use Rattle.std.specs.Prelude.{◌≡◌};
ghost use Rattle.image.specs.Handles.{IsInserting, floor_of};

use crate::inserter::hand::Hand;
use crate::inserter::room::Room;
use image_rule::Key;
use region::RegionKey;
use std::marker::Model;

/// Who stores the frames of an image, between two calls: the bits from the floor on are those of what was stored, and the
/// bytes of all other units are free.
#[derive(Drop)]
pub(crate) struct FrameStore {
    pub(crate) hand: Hand,
    /// What the image's table was told.
    pub(crate) key: Key,
    /// Which region its frames lie in.
    pub(crate) region: RegionKey,
    /// It is there between two calls.
    pub(crate) room: Option<Room>,
    /// The first eight bytes of the frame that begins at a unit, as a word, by where the unit stands in the ring.
    pub(crate) heads: Vec<u64>,
}

impl Model for FrameStore {
    ghost use Rattle.image_rule.specs.Frames.{ring};
    ghost use Rattle.image.specs.Handles.{InserterSeat};
    ghost use Rattle.image.specs.Rests.{Rests};

    ghost Value = { InserterSeat };

    ghost view = { λ n. record { of = record { table = n.hand.seat.table_id; region = n.region; units = ring n.key }; key = n.key; view = n.hand.seat.me.0 } };

    ghost invariant = { λ n. Rests n.key n.region n.hand.seat.me n.room n.heads.items };
}

impl FrameStore {
    /// The position below which nothing is held any more: the least that was cleared to, or the join. What holds of each
    /// inserter at rest: the image's bits from here on are those of the frames that were stored.
    pub(crate) fn floor(&self) -> u64
        ensures value { result ≡ floor_of self.now }
        ensures rests { IsInserting self.now.key self.now.view }
    {
        let _ = &self.hand.seat;
        32 * self.hand.floor
    }
}
