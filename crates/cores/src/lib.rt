//! The two ends of a stream, each whole in one value, for whoever brings sockets and a clock: datagrams and moments in,
//! datagrams out one by one, messages into the caller's bytes. No thread, socket or clock is here. And the messages of a log, for
//! whoever reads it where it is.
//!
//! A `SubscriberPass` has a receiver's core, its subscriber and what the last tick has yet to send. A `SenderPass` has a
//! sender's core over a log that it shares, by a reader's pass, and what the last step has yet to send. Each call says what
//! the same call of the core says. While datagrams are left that weren't taken, no step is made that would give others:
//! `Fault::Unsent`. A room that is too small is answered by `Fault::Room`, and nothing is lost.
//!
//! A `MessagesPass` has a log's reader, the assembler of its frames (`LogMessages`) and a share of the log. A message that is longer
//! than a room waits in it.
#![tactic(auto)]

mod fault;
mod numbers;
mod reading;
mod rooms;
mod sending;
mod subscribing;

pub use fault::Fault;
pub use reading::{MessagesPass, NoMessage};
pub use sending::SenderPass;
pub use subscribing::{SubscriberPass, Subscription};
