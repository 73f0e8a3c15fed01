//! A run of the driver: publishers, a sender, receivers with a subscriber each, and a conductor, each in a thread of its own,
//! and datagrams over UDP between the sender and each receiver, with losses made on purpose.
//!
//! Each thread gives back the pass that it took by value: publishers have nothing open, the parts that they had, and
//! claimed their messages 0, 1, 2 and so on, each committed whole, and paddings, so many as were accepted; the keeper has
//! claimed nothing. Each receiver has lived over its device, which is given back, and its tally, which counts no more than was
//! wanted, is that of the messages of frames that its image stored, read one after the other from the join on (`run_agents`, by
//! `AreReturned`). A thread that can't be started is a fault, and the sender's and the receivers' faults are told.
//!
//! A run of a plan has its numbers of publishers and receivers and its devices' seeds, wants the messages of all its publishers,
//! and polls no more than these at each receiver (`run`, by `IsOutcome`). What is told of a receiver is the tally of the
//! messages of frames that its image stored, in a life that began with nothing met and heard what its device handed over
//! (`run_over`, by `ReceiversLive`); a device over UDP doesn't tell what that was. A message that was refused as too long is in no
//! tally. What a
//! publisher claimed, whole, is its messages 0, 1, 2 and so on (`PublishersPublish`). The book starts at 0, and entries tile the
//! stream from there to its tail: each publisher's share is that of the entries that it owns, and as many of these are messages, of
//! the plan's length, as it was told were accepted; numbers that take no part have none (`IsBook`). How it ended is a broken
//! order first, then messages that weren't accepted or polled: it is whole only where of each publisher all were accepted, and
//! as many polled in order at each receiver (`Outcome::ending`, by `ending_of`). The log that it closed is a stream of what its
//! publishers have claimed, each one's messages in order, and what is tallied is a run of that stream's messages where what a
//! receiver was handed is honest for it (`run_is_a_stream`). That a run offers or polls anything isn't
//! said, nor that what is heard is what was sent: tests show it.
#![tactic(auto)]

mod law;
mod outcome;
mod passes;
mod planned_run;
mod thread_joins;
mod thread_scope;
mod thread_starts;
mod watch;

pub use law::run_is_a_stream;
pub use outcome::{Ending, Outcome, Polled};
pub use planned_run::{RunEnd, run, run_over};
pub use run_parties::{Gate, Open, Role};
pub use thread_starts::{KeeperBack, PublisherBack, Publishing, ReceiverBack};
