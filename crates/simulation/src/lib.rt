//! A log with its sender, eight receivers and every packet that they gave out, what each line of a script does to them,
//! and a whole script, played.
//!
//! Each line prints and changes what its definition says, over the log that threads share, in one hand
//! (`Simulation::play`, by `IsAnswered`), and so does the book at the end (`Simulation::end`). Packets are had by their
//! numbers (`Packets`); which text a line prints is said, too (`Line` as `Display` writes it).
//!
//! A whole script is the way from the model to the code: each script that opens its log is a run of the model, of which
//! `every_run` speaks.
//!
//! `play` prints an output of the script (`IsOutputOf`): the fault of its `log` line alone, or `open`, for each line
//! exactly what the log, its open claims and readers, the sender, the receivers and the packets answer as the lines
//! before left them, and the book, whose shares add up to what was claimed. After each line, what a receiver's polls
//! printed is what was published from where it joined to where it stands, whole, in order, each once, whatever
//! packets were lost, repeated or reordered, and whatever bytes were handed to the sender or to other receivers.
//! Bytes of the script's own may reach that receiver too, as long as each DATA frame and padding that its image is
//! given, and the SETUP that opens it, stands in a packet that was printed before; else nothing is said of its
//! messages. From the first `A1` on it isn't said which messages its polls print.
//!
//! Without these premises: what an assembler gives of the frames that a reader's lines showed is what was published
//! from the start to the end of these frames; the frames of each image never overlap, its consumer stays within what
//! stands without a gap, and that within the high-water mark.
#![tactic(auto)]

mod handlers;
mod line;
mod line_text;
mod log_lines;
mod packets;
mod simulation;
mod whole_script;

pub use line::{Line, add_line};
pub use model::every_run;
pub use packets::Packets;
pub use simulation::{RECEIVERS, Simulation};
pub use whole_script::play;
