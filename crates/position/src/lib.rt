//! The arithmetic of a stream's positions: terms and their ids, offsets, and what messages cover. A stream's
//! identity, a frame's head, the flags of a message's frames and a gap stand here, too.
//!
//! A stream is a run of terms of one length. A position counts bytes from the start of the first term; the term id of
//! the first term is the initial term id, and ids wrap. No call takes memory.
//!
//! All of it is proved exactly: the geometry with its two faults in order (`Geometry::new`); the windows that it
//! allows, positions and places with wrapping ids, and framed lengths (the methods of `Geometry`); alignment
//! (`align32`), quotient and rest by a power of two (`split_by`), and partitions (`partition_of`); the texts of the
//! faults, as `Display` writes them (`GeometryError`).
//!
//! A log and an image have a frame as words. Its first word says its head (`first_word`, `head_in`), which is never zero;
//! the rest of its header is said by `header_words`. Which frame some words say is said once (`frame_of`), and it is the
//! frame that was spelt.
#![tactic(auto)]

mod fault;
mod frame_words;
mod gap;
mod geometry;
mod head;
mod identity;
mod lengths;

pub use fault::GeometryError;
pub use frame_words::{first_word, head_in, header_words};
pub use gap::Gap;
pub use geometry::{Geometry, Place};
pub use head::{BEGIN, END, FrameHead, FrameKind, UNFRAGMENTED};
pub use identity::Identity;
pub use lengths::{align32, partition_of, split_by};
