//! Where a sender gets its frames from: a trait of three reads of a log (`FrameSource`), and of a log that nobody
//! else changes (`Alone`); no code.
//!
//! It says what a reader of frames promises to whom it lends its reads, whether others add to the log meanwhile or
//! not. The log is lent at each call, apart from the reader, so that one log can have several readers. `LogFrames` of
//! `shared_log` and `HandReader` of `one_hand` meet it.
#![tactic(auto)]

mod source;

pub use source::{Alone, FrameSource};
