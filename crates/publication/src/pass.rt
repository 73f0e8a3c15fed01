//! What contracts see of a pass. No value of these types is made.

use crate::step::WordStep;
use position::Identity;
use std::collections::LinkedList;

/// What one addition took of the stream.
pub struct ClaimRange {
    /// The position at which it begins, a multiple of 32.
    pub start: u64,
    /// The number of its publisher, 0 to 7.
    pub owner: u64,
    /// The lengths of its frames in bytes, without alignment, in order.
    pub cuts: LinkedList<u64>,
    /// Whether it is the rest of a term that an addition passed.
    pub padding: bool,
}

/// A frame's place in the stream, and its words of eight bytes as they stand in the log. The first of them is zero until
/// the frame is committed.
pub struct FrameWords {
    /// The position at which it begins, a multiple of 32.
    pub start: u64,
    /// Its length in bytes, without alignment: that of the claim's frame that it is.
    pub cut: u64,
    pub words: LinkedList<u64>,
}

/// The committed frames of a pass, and its open ones.
pub struct Work {
    pub frames: LinkedList<FrameWords>,
    pub drafts: LinkedList<FrameWords>,
}

/// What a pass may do, and what it has claimed.
pub struct Right {
    /// Its parts of the right to know the whole.
    pub parts: u64,
    /// The limit word that it loaded last.
    pub limit: u64,
    /// 1 where it may add once to the tail of the term that it has seen, else 0.
    pub armed: u64,
    pub claims: LinkedList<ClaimRange>,
    /// The numbers that are its own: it claims under these alone.
    pub numbers: LinkedList<u64>,
}

/// What a pass has seen of the terms, by their counts.
pub struct Seen {
    /// The active count that it loaded last.
    pub count: u64,
    /// The count of the term for which it is armed.
    pub term: u64,
    /// One more than the count of a term that is used up, or 0.
    pub full: u64,
    /// The count of a term that has begun.
    pub begun: u64,
    /// The greatest position that the active count or a raw tail has shown it.
    pub shown: u64,
}

/// A consumer: its number, where it stands, the frames that it knows, and how often it looked where it stood and found
/// none.
pub struct Reading {
    pub number: u64,
    pub position: u64,
    pub known: LinkedList<FrameWords>,
    pub misses: u64,
}

/// What a keeper knows: 1 where the pass is one, the limit word with its flags, how far bytes are zero again, which
/// consumers are there, the positions of consumers that it has seen, and the numbers of the consumers that it read, in
/// order.
pub struct Keeping {
    pub right: u64,
    pub limit: u64,
    pub cleaned: u64,
    /// For each of the eight numbers 1 where a consumer has it, else 0.
    pub there: LinkedList<u64>,
    /// By their numbers.
    pub positions: LinkedList<u64>,
    pub reads: LinkedList<u64>,
}

/// The words of a log that no pass owns: the limit word, the active count, and the raw tails by their partitions.
pub struct Controls {
    pub limit: u64,
    pub count: u64,
    pub tails: LinkedList<u64>,
}

/// A pass: what stays of its log and its own number, the word calls since its last load of the limit, and what it knows.
pub struct Pass {
    pub identity: Identity,
    /// The position at which the log began.
    pub start: u64,
    /// The number under which it claims, 0 to 7.
    pub number: u64,
    pub call: LinkedList<WordStep>,
    pub right: Right,
    pub work: Work,
    pub seen: Seen,
    pub reading: LinkedList<Reading>,
    pub keeping: Keeping,
}
