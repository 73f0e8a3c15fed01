//! Tests of duty cycles over devices in memory: what a send that fails leaves, what a receiver's counters show, and a group of
//! which one falls silent.
#![tactic(auto)]

#[cfg(test)]
mod failing;
#[cfg(test)]
mod group;
#[cfg(test)]
mod reading;
