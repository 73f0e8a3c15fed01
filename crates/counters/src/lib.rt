//! Three positions of a stream that one thread publishes and others read: where the consumer stands that is furthest
//! behind, up to where the stream is whole, and how far it has come. Passes stand for the writer and each reader;
//! they exist for the proofs and may be dropped. A call may wait.
//!
//! For one writer and its readers in any threads: the three positions of a reading are in order, and none is less
//! than in the reader's reading before, nor than what it was told or had been published when it was made. Once both
//! are in one hand, what a reader read last is shown to be one of those that the writer published, whole, and a
//! reading made there is exactly what it published last (`Counters::new`, `reader`, `publish`, `read`, `learn`,
//! `confirm`, `read_with`).
#![tactic(auto)]

mod hand;
mod parties;
mod readings;
mod table;

pub use parties::{CounterReader, CounterWriter};
pub use readings::Readings;
pub use table::Counters;
