//! What a seat of a log's table knows, and what the table is told.

use log_rule::{Key, View};
use publication::FrameWords;
use region::RegionKey;
use std::collections::LinkedList;

/// Where `has` is 1: a reader's part of the right to read the frame at a position, by the
/// consumer's number, of this round and this account.
pub struct Part {
    pub has: u64,
    pub number: u64,
    pub at: u64,
    pub round: u64,
    pub book: u64,
}

/// What the keeper has taken back: the position below which all memory is room again, and how many
/// bytes behind it are out.
pub struct Room {
    pub freed: u64,
    pub out: u64,
}

/// What a seat knows of the stream, and of its memory. No value of this type is made.
pub struct LogView {
    pub view: View,
    pub part: Part,
    pub room: Room,
    /// Those of the pass's open frames of which the room lies at home, on its way from one seat to
    /// another.
    pub parked: LinkedList<FrameWords>,
}

/// What a log's table is told when it is made: its stream, and the region where frames lie.
pub struct Site {
    pub key: Key,
    pub region: RegionKey,
}
