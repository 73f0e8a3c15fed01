//! The image that a receiver rebuilds of a stream, in a ring of three terms, by one inserter and for up to eight readers, which
//! share it without a lock.
//!
//! `open` gives an image and its inserter, with its refusals in order, memory's last; it takes all memory that is ever needed,
//! and no call waits. `deal` gives a reader. `insert`, `heartbeat` and `least` look once at each consumer, let go of what all
//! of them have passed, and answer by the least position that this very call read. The inserter's value is all frames that
//! were ever stored, the high-water mark, the floor below which nothing is held any more, and where it saw the consumers and
//! how often it looked at each. Stored frames never overlap (`stored_apart`). The first gap is the defined one, and finding it
//! takes at most two looks at words of bits and one for each 2,048 of its bytes (`first_gap`, `held_word`, `Steps`).
//!
//! The bytes of frames lie in plain memory, each as on the wire, and are copied in and out by plain copies. The words that
//! are shared have a held bit and a start bit for each unit, and where the consumers stand. Who may write a frame's bytes, and
//! who may read them, goes by rights that take no memory (`region`), which change hands with the bits.
//!
//! A reader hands the frame where it stands, where it lies, to a [`FrameHandler`] (`read_with`), or copies it to a block
//! (`read`), and moves behind it (`advance`). Where it and the inserter meet (`meet`),
//! the reader knows just the frames that were stored, and the inserter has seen it where it stands. So where one hand has
//! both, `read_past_with` is exact. What `insert` and `heartbeat` say is an event of the definitions' image
//! (`calls_are_events`), and with more units the contiguous end is no smaller (`units_grow`).
#![tactic(auto)]

mod answer;
mod fault;
mod handler;
mod held;
mod inserter;
mod law;
mod meeting;
mod reader;
mod steps;
mod words;

pub use answer::Insert;
pub use fault::{CONSUMERS, ImageError};
pub use handler::FrameHandler;
pub use inserter::gap::{first_gap, held_word};
pub use inserter::inserting::{heartbeat, insert};
pub use inserter::{Inserter, deal, least, open};
pub use law::{calls_are_events, units_grow};
pub use meeting::{meet, read_past_with};
pub use reader::ImageReader;
pub use reader::reading::{advance, read, read_with};
pub use steps::Steps;
pub use words::Image;
