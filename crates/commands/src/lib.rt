//! The program's commands, over any reader and writers: one command line is carried out, and the status is given.
//!
//! `sim`, of a reader that tells its bytes, succeeds only where they are a script of at most 1 MiB, and then has
//! written the lines of an output of that script, in order, each spelled as its text is and ended by a line feed (of
//! a writer that tells what it holds). `Input` comes only where more than 1 MiB was taken, `Read` and `Memory` only
//! where no more was, `Line` only where the script's fault is on that line, `Write` only where it has none; at any
//! fault but `Write` nothing was written. `Fault` has the texts, as `Display` writes them, and which fault a
//! script's, a word's or a run's becomes.
//!
//! `run_driver` succeeds only with a plan of what it was told, and has then written the lines of what a run of
//! that plan left; the answer is how it ended, and which status that has (`ran`): 0 or 3 only with the lines of a run
//! that ended whole or short.
//!
//! `decode`, where it succeeds, appends a line for each frame of the datagram that a word of hexadecimal digits spells,
//! each byte of them, to a writer that tells what it holds (`FrameLine` as `Display` writes it). `Hex` and a frame's fault
//! (`F1` to `F8`) come only where the word has that fault, `Write` only where it has none, `Memory` only for an even length
//! up to 131,072; at any fault but `Write` nothing was written.
//!
//! An end's socket is bound at its channel's interface, or else a publisher's at any address and a subscriber's at its
//! endpoint's own; a name is looked up once, and the first address is taken that goes with the interface and the time to live
//! (`IsPeer`, `IsRouteOf`, `IsBindingOf`).
//!
//! A command line whose words the parser refuses ends with 2, one that asks for help or the version with 0; or either
//! with 1, for want of memory or where the help can't be written. 2 comes only of such words, and of an end's channel
//! and rates that make no plan; 3 only of words that the parser takes, and no status is greater (`command`, by
//! `IsStatusOf` and `RefusesLine`). Of words that the parser takes, 0 says that all they ask for is done, as far as input and
//! output tell their bytes (`IsDone`): `sim` and `decode` have written their lines, of a word or of each line of the input, a run was whole, all of the input was
//! published to each endpoint, a subscriber ended whole; 3, that a run or a subscriber was short, or that a publisher had a
//! plan (`IsShort`). That a line ends with anything but 1 isn't said.
#![tactic(auto)]

mod decoding;
mod fault;
mod line;
mod publish_command;
mod route;
mod run_command;
mod script_command;
mod status;
mod subscribe_command;

pub use decoding::{FrameLine, LineFault, decode, decode_input};
pub use fault::Fault;
pub use line::command;
pub use run_command::run_driver;
