//! A receiver's core and its subscriber: datagrams and moments in, outcomes, replies (status messages and NAKs) and
//! messages out. No thread, socket or clock is here.
//!
//! The core (`ReceiverCore`) judges each frame of a datagram, keeps the image that a SETUP opens (`judge`), asks for a SETUP
//! where it has none, and says where its consumers stand. Threads share its image, so consumers may go forward between two
//! steps: the core's state represents the receivers whose image ever stored the same frames, and whose consumers stand where
//! they were seen last, and each datagram and tick makes of these what the definitions say, with the consumers where that call
//! saw them. Memory is asked for twice, for the outcomes and for an image; where it was refused, nothing changed. Who isn't made for
//! want of it gives back what it was handed (`Denied`).
//!
//! An image's readers are given away once (`take_readers`), and a `MessageReader` reads its messages in a thread of its own. A
//! `Subscriber` has a core and the one reader of its image in one hand: no consumer moves between two calls, so each datagram,
//! tick and poll makes of it exactly what the definitions say. Where each datagram is honest for a stream, whatever was lost,
//! repeated or reordered, the messages of all its polls are those of the stream from the image's join to where it stands, in
//! order, each once and whole, as long as no poll is refused (`polls_a_run`).
#![tactic(auto)]

mod assembling;
mod dealing;
mod denied;
mod lives;
mod loss_detector;
mod message_reader;
mod opened;
mod poll_error;
mod positions;
mod readers;
mod receiver_core;
mod setup;
mod subscriber;

pub use denied::Denied;
pub use lives::{polls_a_run, reads_a_run, reads_further};
pub use message_reader::MessageReader;
pub use opened::OpenImage;
pub use poll_error::PollError;
pub use positions::Positions;
pub use readers::Readers;
pub use receiver_core::{Outcome, ReceiverCore, Replies, STATUS_INTERVAL, asking};
pub use setup::fault::SetupError;
pub use setup::judgement::judge;
pub use subscriber::Subscriber;
