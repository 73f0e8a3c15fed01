//! The steps of a log: what each tells of the pass that makes it. Nothing is said of memory.
//!
//! A publisher loads the limit, the active count and a raw tail, adds to the tail, turns to the next term, and commits an
//! open frame (`Log::commit`): the frame's bytes are written plainly, then its first word is stored, by one step. A
//! consumer looks for a frame where it stands and gets its payload by one copy (`Log::look`), reads a frame again
//! (`Log::reread`), and goes on (`Log::consume`). The keeper reads where consumers stand, makes memory zero and room behind
//! them (`Log::clean`), and sets the limit.
//!
//! A log opens with one pass, which has all (`Log::open`). Passes are dealt from it and joined again (`deal_publisher`,
//! `gather`, `take_over`), are told what others committed (`learn`, `remember`), and meet (`meet`).
//!
//! Whoever commits or cleans shows that the log's region is there, by a handle that comes back (`Log::home`).
//!
//! None of them can be called from outside of this crate: out of order they would break what the log promises.

pub(crate) mod keeper;
pub(crate) mod log;
pub(crate) mod meeting;
pub(crate) mod pass;
pub(crate) mod publisher;
pub(crate) mod reader;
pub(crate) mod seats;
