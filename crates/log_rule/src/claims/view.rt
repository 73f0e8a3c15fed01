//! What a seat of a log knows, and the stream that a log carries.

use position::Identity;
use publication::{Controls, Pass};

/// A pass, the word steps that it has made, and what it knows of the control words. No value of this type is made.
pub struct View {
    pub pass: Pass,
    pub steps: u64,
    /// The control words, where the pass is sure of them.
    pub controls: Controls,
    /// 1 where it is sure: it has all parts, and nobody else changes a control word.
    pub sure: u64,
}

/// The stream that a log carries, and the position at which it begins.
#[derive(Clone, Copy)]
pub struct Origin {
    pub identity: Identity,
    pub start: u64,
}
