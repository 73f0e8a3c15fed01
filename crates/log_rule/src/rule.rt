//! What a log is told when it is made.

use position::Identity;

/// The stream that a log carries, the position at which it begins, and how many consumers are there from the start on.
#[derive(Clone, Copy)]
pub struct Key {
    pub identity: Identity,
    pub start: u64,
    pub consumers: u64,
}
