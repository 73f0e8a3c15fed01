//! What a seat of an image's table knows, and what the table is told.

use position::Identity;
use region::RegionKey;
use std::collections::LinkedList;

/// A frame of the stream: the unit of 32 bytes at which it starts, how many units it covers, and its bytes, as on the wire.
pub struct Frame {
    pub unit: u64,
    pub units: u64,
    pub bytes: LinkedList<u8>,
}

/// What the inserter holds: the floor, all frames that were ever stored, and the words behind the consumers' positions; the
/// unit below which the memory of frames was taken back, and whose slots are out: 0, or one more than that unit.
pub struct Held {
    pub floor: u64,
    pub got: LinkedList<Frame>,
    pub words: LinkedList<u64>,
    pub freed: u64,
    pub out: u64,
}

/// A consumer, where `reads` is 1: its number, the unit where it stands, and how often it looked there and found no frame.
/// Where `holds` is 1 it has its part of the right to read the frame there, of this round and this account. And the frames
/// that the seat knows.
pub struct Reading {
    pub reads: u64,
    pub number: u64,
    pub unit: u64,
    pub misses: u64,
    pub known: LinkedList<Frame>,
    pub holds: u64,
    pub round: u64,
    pub book: u64,
}

/// What a seat knows. No value of this type is made.
pub struct View {
    /// 1 where it is the inserter.
    pub inserting: u64,
    pub held: Held,
    /// Where the consumers stood when the inserter looked, by units.
    pub seen: LinkedList<u64>,
    /// How often it looked at each of them.
    pub looks: LinkedList<u64>,
    /// The consumers below this number haven't been dealt yet, and are this seat's.
    pub undealt: u64,
    pub reading: Reading,
}

/// The stream that an image rebuilds, the unit at which it joins, and how many consumers it has.
#[derive(Clone, Copy)]
pub struct Key {
    pub identity: Identity,
    pub join: u64,
    pub consumers: u64,
}

/// What an image's table is told when it is made: that, and the region where frames lie.
pub struct Site {
    pub key: Key,
    pub region: RegionKey,
}
