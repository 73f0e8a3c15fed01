//! The frames of the wire: what a frame is, and its bytes; and the datagrams of them that go out. All numbers are
//! little-endian. No call takes memory but the one that makes an outbox, and no payload is copied but by `write_frame`.
//!
//! `read_frame` succeeds exactly where the input begins with a frame's spelling, and gives that frame and how many
//! bytes it takes; its fault is the first in the fixed order. `check_datagram` says the same of a datagram.
//! `write_frame` writes the one spelling and leaves the rest of the buffer. `Frame::size` is
//! what a frame takes, `FrameError` has the faults with their texts, `FaultCounts` how often each came.
//!
//! Of bytes that are known to begin with some frame, `known_frame` gives it and its size, a DATA frame without a test.
//! A spelling is of one frame, and a datagram of one list of frames (`one_spelling`, `one_reading`).
//!
//! An outbox holds up to 32 datagrams of at most its MTU, each of one frame or of several, in the order in which they go out;
//! each is the spellings of the frames that were put into it (`Outbox`). It takes its memory when it is made, and no later
//! call takes any.
#![tactic(auto)]

mod datagram;
mod fault;
mod fault_counts;
mod fields;
mod frame;
mod front;
mod outbox;
mod reading;
mod writing;

pub use datagram::{check_datagram, one_reading, one_spelling};
pub use fault::FrameError;
pub use fault_counts::FaultCounts;
pub use frame::{Frame, Header, Nak, Setup, Status};
pub use front::known_frame;
pub use outbox::Outbox;
pub use reading::{NAK_LENGTH, SETUP_LENGTH, STATUS_LENGTH, read_frame};
pub use writing::write_frame;
