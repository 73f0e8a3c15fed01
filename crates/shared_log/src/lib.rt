//! The log that threads share without a lock, its frames in plain memory: eight publishers, its readers and its keeper, each by
//! a pass of its own. No call waits, and none takes memory but `open` and `open_whole`.
//!
//! A log opens unconnected, its limit and its consumers at the start, or for three causes of refusal in order (`open`,
//! `open_whole`, `LogError`). Two publishers meet (`meet`), also with open claims; one that retires leaves what it has to
//! another (`retire`); a log that closes with all its passes answers with its `Book` (`close`, `close_read`).
//!
//! A reader gets a frame's payload by one copy (`next`, `next_whole`), goes on (`advance`), and reads a frame again that it
//! knows (`reread`). The keeper reads where consumers stand, makes memory zero and room behind them, frame by frame, and
//! raises the limit (`clean_and_limit`); consumers join and leave by it (`Keeper::join`, `Keeper::leave`).
//!
//! A publisher's calls are those of `publication` over `OnLog`. A frame is written plainly, then committed by one store
//! (`fill_data`, `fill_padding`).
//!
//! Counted are the steps on words that a pass makes: one store for a frame that is committed, one load where a frame begins,
//! one store for a position, and two steps for each frame whose memory is room again.
#![tactic(auto)]

mod book;
mod closing;
mod fault;
mod handle;
mod home;
mod keeper;
mod opening;
mod parts;
mod publisher;
mod reader;
mod roles;
mod steps;

pub use book::{Book, PUBLISHERS};
pub use closing::{close, close_read};
pub use fault::LogError;
pub use keeper::joining::{begin_consumer, end_consumer};
pub use keeper::{Keeper, clean_and_limit, set_closed, set_connected};
pub use opening::open_whole;
pub use parts::{Parts, first_there, open};
pub use publisher::Publisher;
pub use publisher::calls::OnLog;
pub use publisher::meeting::meet;
pub use publisher::numbering::renumber;
pub use publisher::retiring::retire;
pub use reader::learning::learn;
pub use reader::source::LogFrames;
pub use reader::whole::{Unread, next_whole};
pub use reader::{LogReader, advance, next, reread};
pub use steps::log::Log;
pub use steps::meeting::meets_never_fall;
