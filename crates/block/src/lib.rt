//! A block of memory that a contract sees as a list of bytes and of little-endian words of eight bytes, zeros when it
//! is made. Its length is fixed then. A block may be sent to another thread, and be read from several.
//!
//! `Block` stands in the place of raw memory: its bytes are a `Vec` of exactly its length, which nobody resizes. So none
//! is read before it was written, none behind the end is touched, and no function here has a pointer. That a block's
//! memory is given back no contract says, since what is owned may be forgotten; one that is dropped gives it back, as
//! its `Vec` does.
#![tactic(auto)]

mod block;
#[cfg(test)]
mod tests;

pub use crate::block::Block;
