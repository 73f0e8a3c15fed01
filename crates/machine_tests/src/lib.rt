//! Tests of the machines that need no log: messages joined, with each growth refused in turn, flow limits, losses by
//! chance; channels, and messages as lines and as blocks; the command queue and the counters, alone and in threads.
#![tactic(auto)]

#[cfg(test)]
mod assembly;
#[cfg(test)]
mod chances;
#[cfg(test)]
mod channels;
#[cfg(test)]
mod commands;
#[cfg(test)]
mod limits;
#[cfg(test)]
mod message_input;
#[cfg(test)]
mod sharing;
