//! The media driver's program: `mdriver sim` plays a script from offer to poll, `mdriver run` runs the driver in
//! threads over UDP, `mdriver decode` prints the frames of a datagram, and `mdriver publish` and `mdriver subscribe`
//! carry messages from one process to another. `main` is proved safe.
//!
//! A line that can't do without a standard descriptor that is closed isn't carried out. Which those are is exact
//! (`command_line::lacking`). In place of others that are closed the null device is opened, before anything else is. What the
//! system answers to that isn't said.
//!
//! The error output may block, as a pipe that nobody reads: a thread of its own writes the lines, behind a queue that is
//! bounded, so whoever tells a line never waits for it. A line that is the one told last is counted and not shown again;
//! one that finds no room in the queue is lost and counted. The next line that is shown stands behind what both counts
//! tell; what is shown for it is exact (`Ledger::text`, by `shown_text`), and so is what each call leaves of the counts.
//! That a line is written isn't said.
#![tactic(auto)]

mod fault;
mod ledger;
mod lines;
mod null_device;
mod shared;

use command_line::{lacking, line_words, process_words};
use commands::command;
use fault::Fault;
use lines::ErrorLines;
use null_device::fill_closed;
use std::alloc::AllocGlobal;
use std::env::Env;
use std::io::{BufWriter, Read, Write};
use std::net::Net;
use std::process::ExitCode;
use std::random::RandomSource;
use std::sync::Wait;
use std::thread::Threads;
use std::time::Clock;

fn main(rt: HostRuntime) -> ExitCode {
    match carry_out(&rt, rt.stdin(), rt.stdout(), rt.stderr()) {
        Ok(status) => ExitCode::from(status),
        Err(fault) => {
            let _ = eprintln!(rt; "error: {fault}");
            ExitCode::from(1)
        }
    }
}

/// Carries out the process's command line, and gives the status. Where a fault comes no command was begun.
fn carry_out<
    C: Threads
        + Wait
        + Clock
        + Net
        + RandomSource
        + Sync
        + Send
        + Copy
        + Env
        + AllocGlobal
        + 'static,
    R: Read + Send + Drop + 'static,
    W: Write + Drop,
    E: Write + Send + Copy + Drop + 'static,
>(rt: &C, input: R, output: W, errors: E) -> Result<u8, Fault> {
    let alloc = rt.alloc();
    let closed = fill_closed()?;
    let words = process_words(rt)?;
    let words: Vec<&str> = words.iter().map(|word| word.as_str()).collect(alloc)?;
    if let Some(descriptor) = lacking(line_words(&words), closed) {
        return Err(Fault::Closed(descriptor));
    }
    let mut output = BufWriter::new(alloc, output)?;
    let mut errors = ErrorLines::new(rt, alloc, errors);
    let status = command(rt, alloc, &words, input, &mut output, &mut errors);
    errors.finish();
    Ok(status)
}
