//! Measures what is to be fast: `bench ROUNDS` prints medians of so many rounds of the log that threads share, `bench
//! claims ROUNDS` those of claims that are written and committed, `bench stream ROUNDS MESSAGES` how long publishers and
//! a reader take for a message, `bench images FRAMES` how long an image takes for a frame that is read at once, `bench log
//! OPTIONS` and `bench driver OPTIONS` a row on the time from a message's offer to its poll, of which `bench header` prints
//! the head, and `bench` plays small rounds and prints no figures.
//!
//! It is proved safe, and what its lines tell (`timing_options`, `timing_plan`).
#![tactic(auto)]

mod commands;
mod timing;
mod timing_line;
mod timing_plan;

use crate::commands::carry_out;
use std::process::ExitCode;

fn main(rt: HostRuntime) -> ExitCode {
    match carry_out(&rt, rt.alloc()) {
        Ok(()) => ExitCode::from(0),
        Err(error) => {
            let _ = eprintln!(rt; "error: {error}");
            ExitCode::from(1)
        }
    }
}
