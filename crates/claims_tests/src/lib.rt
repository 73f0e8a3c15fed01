//! Tests of a publisher that stalls between two of its steps while terms turn, or is held there while each other party
//! goes on.
#![tactic(auto)]

#[cfg(test)]
mod holds;
mod other_passes;
#[cfg(test)]
mod stalled;
#[cfg(test)]
mod stalls;
#[cfg(test)]
mod stalls_among_threads;

pub use other_passes::{Follower, Four, OtherPasses};
