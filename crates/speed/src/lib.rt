//! What the log takes, measured: rounds of publishers in threads over a log that they share, and streams that a reader
//! follows meanwhile; and what an image takes for a frame (`measure_image`), whose figures name the frame's length.
//!
//! A round by one to eight threads, in whatever order they run, leaves a book whose entries tile the stream from 0 to
//! its tail: as many messages as offers were accepted, of 256 bytes each, and paddings up to the ends of their terms;
//! the shares are what each publisher's entries cover (`play_round`, and by claims `play_claims`). So does a stream
//! that another thread reads meanwhile, which counts the frames of messages that its reader gets (`play_stream`). A
//! median is the middle one of its figures, sorted (`median`); the figures are those of 1, 2, 4 and 8 threads, each the
//! median of its samples (`measure`).
//!
//! Time is counted from the least of the threads' begins to the greatest of their ends (`Laps`), and there are as many
//! plain stores to compare with as the accepted offers make. That a log was filled isn't said, nor how long anything
//! takes.
#![tactic(auto)]

mod fault;
mod images;
mod rounds;
mod samples;
mod sampling;
mod sorting;

pub use fault::SpeedError;
pub use images::{ImageFigures, ImageSpeedError, Played, measure_image};
pub use rounds::round::{play_claims, play_round};
pub use rounds::streaming::play_stream;
pub use sampling::{Figures, measure, measure_claims, measure_stream};
pub use sorting::median;
