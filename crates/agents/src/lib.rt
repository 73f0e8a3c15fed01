//! Duty cycles: what the agents of a sender, a receiver and a conductor do over and over, and the idle strategy
//! between cycles.
//!
//! A cycle, for any party and any device (`Duty::cycle`): the party heard datagrams one after the other, 16 or as
//! many as there were before a receive found none; then came one tick. Where the device tells, which one over UDP
//! doesn't, these are the datagrams that it handed over, and what it has carried away is exactly what these steps
//! gave out, in order. At a fault it's a beginning of that, with a tick only where all was heard and answered, and
//! either the device has counted a failure or memory was refused to one datagram, which is lost
//! (`faults_are_explained`). The answer is true
//! exactly where a datagram came or went at the tick. A sender's core, a receiver's core, and a receiver with its subscriber are
//! such parties (`Party`).
//!
//! A sender asks for Connect exactly where a status message that doesn't ask for a SETUP has been heard and the queue
//! hasn't taken the command yet; at a fault nothing is asked, and over any run of cycles a fresh client has submitted
//! nothing or Connect alone (`SenderAgent::cycle`; the lemmas `asks_at_most_once`, `runs_ask_once`, `by_cycle`). A conductor's
//! cycle does one command, by one store of the limit word, or finds the queue empty; then the keeper cleans and limits
//! (`conduct`).
//!
//! A receiver's agent has the core and the writer of the counters, and shares nothing under a lock (`ReceiverAgent`). The image's
//! readers are taken from it once, for the threads that poll, and it tells a reader what was stored; consumers may go forward all
//! the time, also during a cycle. A cycle without a fault publishes what its image's inserter tells then: the contiguous end, the
//! high-water mark, and the least position at which the tick saw a consumer, all three together and once, if there is an image.
//! Nothing else publishes. What was published last is never more than what the agent tells.
//!
//! Over a device of some ways a cycle hears each of them once, in order, as above, and then comes one tick, also at a
//! fault, up to that (`Duty::cycle_ways`, `SenderAgent::cycle`; `WaysCycle`, `WaysFault`). The device has lived on by its calls.
//!
//! A log opens for the agents of one stream with one reader and all its passes (`open_log`, by `AreNewPasses`), and its
//! sender's agent has sent nothing yet (`open_stream_sender`, by `IsNewSenderBy`): how many destinations there are chooses its flow
//! control (`flow_control::group_of`). `IdleStrategy::after` counts the idle turns
//! in a row, up to 15,200; that a thread yields or sleeps no contract can say.
#![tactic(auto)]

mod began;
mod conductor_agent;
mod duty;
mod idle_strategy;
mod log_sender;
mod party;
mod passes;
mod receiver_agent;
mod receiver_party;
mod sender_agent;
mod sender_party;
mod sending;

pub use began::{Began, nanoseconds};
pub use conductor_agent::conduct;
pub use duty::{CYCLE_DATAGRAMS, Denied, Duty, faults_are_explained};
pub use idle_strategy::IdleStrategy;
pub use log_sender::{StreamSender, open_stream_sender};
pub use party::Party;
pub use passes::{LogPasses, open_log};
pub use receiver_agent::ReceiverAgent;
pub use receiver_agent::named::Named;
pub use receiver_party::REPLY;
pub use sender_agent::SenderAgent;
