//! The script language of `mdriver sim`: its commands, and how a text is read as a script.
//!
//! A script is a text of lines, each ended by a line feed, which the last may lack. The words of a line are parted by
//! single spaces. A line without any byte does nothing. The first line that isn't empty opens the log, and each later
//! one that isn't empty is a command; a group is named only right behind the log.
//!
//! A script that is read says line by line what its bytes say. A fault names the line that is at fault; want of
//! memory is the only other answer, and only for a text with a `log` line (`read_script`; the fault's text:
//! `ScriptFault`). Bytes are read from hexadecimal exactly where the digits spell them.
#![tactic(auto)]

mod command;
mod fault;
mod line;
mod pieces;
mod read;
mod values;

pub use command::{Command, GroupSize, LogLine, PartyNumber, Script};
pub use fault::ScriptFault;
pub use read::read_script;
pub use values::hexadecimal;
