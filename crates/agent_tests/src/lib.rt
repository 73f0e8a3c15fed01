//! Tests of duty cycles: both agents where a device fails, and what a sender's asks of the queue. What tests of cycles share: a
//! log with its publisher and its sender, a subscriber, and devices in memory between them.
#![tactic(auto)]

#[cfg(test)]
mod asking;
#[cfg(test)]
mod hundred;
mod way;

pub use way::{
    Agent, Sender, along, carry, device_with, device_with_status, duty_over, listening, member,
    open_agent, open_group_sender, open_log, open_sender, publish, receive, send,
};
