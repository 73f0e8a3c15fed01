//! Tests over the network of this machine: of devices (one over UDP, one that fails on purpose, and one that loses by chance),
//! and of whole runs, in threads and over UDP: whatever party is held in its first cycle, each other one goes on to its second.
#![tactic(auto)]

#[cfg(test)]
mod failing;
#[cfg(test)]
mod gates;
#[cfg(test)]
mod losses;
#[cfg(test)]
mod udp;
