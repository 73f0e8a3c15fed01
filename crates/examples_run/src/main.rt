//! Plays each script of `examples/` and carries out each row there by the program's own commands, and says whether it prints
//! and tells what is expected; then whether command lines do over streams of memory, over such as fail, and of the greatest
//! lengths.
#![tactic(auto)]

mod broken;
mod bytes;
mod lines;
mod rows;
mod run_options;
mod streams;
mod table;

use lines::prints;
use rows::{Found, play_rows};
use run_options::are_told;
use std::net::Net;
use std::process::ExitCode;
use std::random::RandomSource;
use std::sync::Wait;
use std::thread::Threads;
use std::time::Clock;
use std::{fs, io};
use streams::{faults_are_told, lengths_are_bounded};

/// The examples by their names: each is a file `NAME.script`, and what it prints a file `NAME.expected`.
const NAMES: [&str; 23] = [
    "first",
    "loss",
    "joins",
    "publishers",
    "terms",
    "padding",
    "claims",
    "fragments",
    "gap",
    "resend",
    "mended",
    "lost_padding",
    "two_terms",
    "sixteen_actions",
    "lingering",
    "heartbeats",
    "forged",
    "forgeries",
    "group",
    "consumers",
    "middle_join",
    "last_behind",
    "seven_readers",
];

/// The files of rows by their names: each is a file `NAME.expected`.
const ROWS: [&str; 11] = [
    "log_rows",
    "claim_rows",
    "long_rows",
    "hostile_rows",
    "place_rows",
    "line_rows",
    "decode_rows",
    "command_rows",
    "option_rows",
    "channel_rows",
    "run_rows",
];

fn main(rt: HostRuntime) -> ExitCode {
    match carry_out_all(&rt, &rt) {
        Ok(true) => ExitCode::from(0),
        Ok(false) => ExitCode::from(1),
        Err(_) => {
            let _ = eprintln!(rt; "error: read");
            ExitCode::from(1)
        }
    }
}

/// Whether all does what is expected.
fn carry_out_all<C: Threads + Wait + Clock + Net + RandomSource + Sync + Send + Copy + 'static>(
    host: &HostRuntime,
    rt: &C,
) -> io::Result<bool> {
    let played = play_all(host, rt)?;
    let alike = compare_all(host, rt)?;
    let told = tell_streams(host, rt)?;
    Ok(played && alike && told)
}

/// Whether command lines over other streams, and options, tell what is expected.
fn tell_streams<C: Threads + Wait + Clock + Net + RandomSource + Sync + Send + Copy + 'static>(
    host: &HostRuntime,
    rt: &C,
) -> io::Result<bool> {
    let told = faults_are_told(rt, host.alloc())?;
    let bounded = lengths_are_bounded(rt, host.alloc())?;
    let options = are_told(host.alloc());
    tell(host, "streams", told)?;
    tell(host, "lengths", bounded)?;
    tell(host, "options", options)?;
    Ok(told && bounded && options)
}

/// Tells whether something does what is expected.
fn tell(host: &HostRuntime, name: &str, expected: bool) -> io::Result<()> {
    let word = if expected { "as expected" } else { "differ" };
    println!(host; "{name}: {word}")?;
    Ok(())
}

/// What stands in a file of the folder that this program runs in.
fn read(host: &HostRuntime, name: &str, ending: &str) -> io::Result<String> {
    fs::read_to_string(host, &format!(in host.alloc(); "{name}.{ending}")?)
}

/// Whether all examples print what is expected.
fn play_all<C: Threads + Wait + Clock + Net + RandomSource + Sync + Send + Copy + 'static>(
    host: &HostRuntime,
    rt: &C,
) -> io::Result<bool> {
    let mut all = true;
    for name in NAMES {
        let alike = play(host, rt, name)?;
        tell(host, name, alike)?;
        all &= alike;
    }
    Ok(all)
}

/// Whether an example prints what is expected.
fn play<C: Threads + Wait + Clock + Net + RandomSource + Sync + Send + Copy + 'static>(
    host: &HostRuntime,
    rt: &C,
    name: &str,
) -> io::Result<bool> {
    let script = read(host, name, "script")?;
    let expected = read(host, name, "expected")?;
    Ok(prints(rt, host.alloc(), &script, &expected)?)
}

/// Whether all rows do what is expected.
fn compare_all<C: Threads + Wait + Clock + Net + RandomSource + Sync + Send + Copy + 'static>(
    host: &HostRuntime,
    rt: &C,
) -> io::Result<bool> {
    let mut all = true;
    for name in ROWS {
        let found = compare(host, rt, name)?;
        tell_rows(host, name, &found)?;
        all &= found.differing.is_empty();
    }
    Ok(all)
}

/// Carries out the rows of a file.
fn compare<C: Threads + Wait + Clock + Net + RandomSource + Sync + Send + Copy + 'static>(
    host: &HostRuntime,
    rt: &C,
    name: &str,
) -> io::Result<Found> {
    let text = read(host, name, "expected")?;
    Ok(play_rows(rt, host.alloc(), &text)?)
}

/// Tells how many rows there were, and which of them differ.
fn tell_rows(host: &HostRuntime, name: &str, found: &Found) -> io::Result<()> {
    println!(host; "{name}: {} rows", found.rows)?;
    for line in found.differing.as_slice() {
        println!(host; "line {line}: differs")?;
    }
    Ok(())
}
