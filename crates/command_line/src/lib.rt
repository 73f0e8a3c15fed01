//! Command lines: what their words ask for, or what to show in place of that; options with a number, and flags.
//!
//! A line is taken exactly if its words are `sim`, perhaps before a closing `--`; or `decode` with one word: one that
//! isn't a hyphen with a character behind it, perhaps before a closing `--`, or any word behind a `--`; or begin with
//! `run` and give some of its options: then each number is the one that was given, in its range, or its default, and
//! `run` alone is taken with all defaults (`options`). What is shown otherwise has a kind that the parser's own
//! contract gives. Of a line that is to be taken, want of memory is the only refusal, and it is told as such exactly
//! where the parser met it. Which faults are refusals, and not help that was asked for, `LineFault::is_refusal`
//! says.
//!
//! A line of `publish` or `subscribe` that is taken tells what the parser found in its words: the channel, each
//! number in its range, as it was spelled or as it is where nothing is said, and the flags (`publish_options`,
//! `subscribe_options`, by `IsPublishOf` and `IsSubscribeOf`). It is taken only where the parser's own contract holds
//! nothing against the words; what is shown otherwise has a kind of those that it holds (`IsFaultOf`). Of texts no
//! contract speaks but of the one that memory was refused. Who reads a line is said exactly (`line_reader`), and so is which
//! standard descriptor that is closed it can't do without (`lacking`).
//!
//! A command has the options of a row more, each with its range, or a flag more; the number that is found is the one
//! that was spelled, in its range, or the option's default (`with_numbers`, `with_flag`, `number_of`, `flag_of`, by
//! `IsNumber` and `IsFlag`). One that may stand several times has its texts in their order (`with_list`, `list_of`).
#![tactic(auto)]

mod choice;
mod descriptors;
mod driver_line;
mod end_line;
mod fault;
mod flag;
mod list;
mod network;
mod number;
mod parse;
mod process;
mod publish_line;
mod readers;
mod run_line;
mod subscribe_line;
mod valued;

pub use choice::Options;
pub use descriptors::{Closed, Descriptor, lacking};
pub use driver_line::options;
pub use fault::LineFault;
pub use network::{LOSS, SEED};
pub use number::{Number, number_of, with_numbers};
pub use parse::parsed;
pub use process::process_words;
pub use publish_line::publish_options;
pub use readers::{Reader, line_reader, line_words};
pub use subscribe_line::subscribe_options;
