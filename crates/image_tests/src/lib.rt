//! Tests of a receiver's image: it and one by a map answer drawn frames, heartbeats and reads alike; one inserter and two
//! readers, in threads, go round the ring many times; and a receiver's core gives its image's readers away once.
#![tactic(auto)]

#[cfg(test)]
mod alike;
#[cfg(test)]
mod given_away;
#[cfg(test)]
mod map_image;
mod parties;
#[cfg(test)]
mod parts;
mod stream_frames;
#[cfg(test)]
mod streams;

pub use parties::Party;
pub use stream_frames::{LONGEST, frame_at, frame_of};
