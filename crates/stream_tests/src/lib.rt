//! Tests of a log that threads share, over many terms: publishers, readers and the keeper in threads of their own; and
//! consumers that join and leave.
#![tactic(auto)]

#[cfg(test)]
mod consumers_among_threads;
#[cfg(test)]
mod learning;
#[cfg(test)]
mod opening;
mod parties;
#[cfg(test)]
mod streams;

pub use parties::Party;
