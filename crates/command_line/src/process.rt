//! The words of the process.

use std::alloc::AllocGlobal;
use std::env::{self, Env};
use std::io;

/// The words of the process's command line, of which the first is the program's name. The fault is memory, or a word
/// that is no text.
pub fn process_words<R: Env + AllocGlobal>(rt: &R) -> io::Result<Vec<String>> {
    let words = env::args(rt)?.collect(rt.alloc())?;
    Ok(words)
}
