//! Tests of consumers that join and leave, on one thread.
#![tactic(auto)]

#[cfg(test)]
mod joins;
mod passes;

pub use passes::Passes;
