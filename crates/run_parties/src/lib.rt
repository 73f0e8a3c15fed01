//! What each thread of a run of the driver does, turn by turn: a publisher, the sender, a receiver, a subscriber
//! and the conductor, over what they share (`RunState`) and are lent (`Context`); and a tally of what was polled.
//!
//! A run begins with a log of its session and stream that begins at 0, and all its passes (`open_run_log`, by
//! `IsNewRunLog`), with receivers that have met nothing, each with its window of half a term and counters at zero
//! (`receiver_parts`, by `AreReceiverParts`), and with two devices for each, a way of the sender's and its own, that lose by
//! words of two seeds (`lossy_devices`, by `AreLossy`). Each thread gives its pass of
//! the log back with nothing open (`Ends`, `IsKept`); cycles, polls and counters keep what their crates ask for
//! (`subscribe`, `steer`, `send`, `receive`). A message of a run is its publisher's number, its own count and zeros
//! (`message_of`). What a publisher has claimed more is its messages 0, 1, 2 and so on, as many as it tells were accepted,
//! each committed whole, and paddings (`publish`, by `HasPublished`).
//!
//! A receiver's thread has the receiver's core and its device, and no lock: it began as a receiver that has met nothing, and the
//! datagrams that it heard are those that its device has handed over, where that tells them. Once a SETUP has opened the image it
//! starts the thread of its subscriber, whose reader finds the frames that were stored so far with no lock either (`receive`,
//! `subscribe`, `Poller`). The tally is that of the messages of the frames that were read one after the other, from the join on;
//! once both threads have ended, reader and core meet, and those are frames that the image has stored (`run_receiver`, by
//! `HasReceived` and `EndsLife`). A message that is refused as too long isn't one of them, and the polls go on behind it. Where none
//! was, and each datagram is honest for a stream of the run's ids, those messages are a run of the stream's, from the join on
//! (`gives_a_run`). A tally of messages tells how many they are, and whether each publisher's are its 0, 1, 2 and so on
//! (`Tally::take`, `polled`, `is_in_order`; `IsTallyOf`, `AreInOrder`); the subscriber's counts no more than was
//! wanted. A subscriber that has polled all lets the others go on, unless it is the last one (`ends_all`). What the
//! threads tell one another by what else they share isn't said, nor that one gets on.
#![tactic(auto)]

mod conductor_turns;
mod context;
mod devices;
mod gate;
mod group;
mod new_receiver;
mod poller;
mod publisher_turns;
mod receiver_threads;
mod receiver_turns;
mod reception;
mod run_log;
mod run_state;
mod runs;
mod sender_turns;
mod subscriber_thread;
mod subscriber_turns;
mod tally;

pub use conductor_turns::steer;
pub use context::Context;
pub use devices::{LossyDevices, lossy_devices};
pub use gate::{Gate, Open, Role};
pub use group::receiver_id;
pub use new_receiver::{ReceiverParts, receiver_parts};
pub use poller::Poller;
pub use publisher_turns::{Published, Task, publish};
pub use receiver_threads::{Waiting, run_receiver};
pub use receiver_turns::{Duties, receive};
pub use reception::{Begins, Received, Reception};
pub use run_log::{RunLog, open_run_log};
pub use run_state::{Done, RunState};
pub use runs::gives_a_run;
pub use sender_turns::send;
pub use subscriber_thread::{PolledOn, Subscribing, joined, start_subscriber};
pub use subscriber_turns::subscribe;
pub use tally::{PUBLISHERS, Tally};
