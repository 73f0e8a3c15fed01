//! The command queue: eight clients hand commands to the one who conducts the stream. It holds at most 64. What a
//! client has submitted is taken in its order, each command once; between clients no order is promised.
//!
//! For eight clients and one taker in any threads: what the queue held at `finish`, behind what was taken, is each
//! client's accepted commands, in order, each once; a command that is refused comes back; where nothing is taken, all
//! commands that the taker was told of are taken (`Conductor::new`, `with_client`, `with_two_clients`, `submit`, `take`,
//! `learn`, `finish`). Passes stand for the parties, and exist for the proofs. A call may wait.
//!
//! That a command is ever taken isn't said: the 64 commands of a full queue may be other clients', so a `submit` that
//! always refuses meets its contract, and a test alone shows that it doesn't.
#![tactic(auto)]

mod command;
mod hand;
mod parties;
mod queue;

pub use command::{Command, Submitted};
pub use parties::{Client, Taker};
pub use queue::{CAPACITY, CLIENTS, Conductor, finish};
