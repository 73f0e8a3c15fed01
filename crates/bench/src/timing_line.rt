//! A line of `log` or of `driver`.

ghost use Rattle.std.specs.Prelude.{◌≡◌, map, IfOk};
ghost use Rattle.clap.specs.Words.{app_of, found_of, matches_of, rows_of};
ghost use Rattle.bench.specs.TimingLines.{IsTimingOf, driver_app, log_app, timing_app};

use crate::timing::{Subject, TimingOptions};
use clap::{ArgMatches, Command};
use command_line::{LOSS, LineFault, Number, SEED, number_of, parsed, with_numbers};
use std::alloc::{AllocError, Global};

const PUBLISHERS: Number = Number {
    name: "publishers",
    value: "N",
    heading: None,
    least: 1,
    most: 8,
    otherwise: 1,
    help: "How many publishers, 1 to 8 [default: 1]",
};

const LENGTH: Number = Number {
    name: "length",
    value: "N",
    heading: None,
    least: 16,
    most: 2_097_152,
    otherwise: 200,
    help: "The bytes of a message, 16 to 2097152 [default: 200]",
};

const TERM: Number = Number {
    name: "term",
    value: "N",
    heading: None,
    least: 65_536,
    most: 16_777_216,
    otherwise: 65_536,
    help: "The bytes of a term, a power of two from 65536 to 16777216 [default: 65536]",
};

const MTU: Number = Number {
    name: "mtu",
    value: "N",
    heading: None,
    least: 256,
    most: 65_504,
    otherwise: 1408,
    help: "The most bytes of a datagram, a multiple of 32 from 256 to 65504 [default: 1408]",
};

const MESSAGES_IN_ALL: Number = Number {
    name: "messages",
    value: "N",
    heading: None,
    least: 1,
    most: 1_000_000_000,
    otherwise: 100_000,
    help: "How many messages all publishers send, 1 to 1000000000 [default: 100000]",
};

const RATE: Number = Number {
    name: "rate",
    value: "N",
    heading: None,
    least: 0,
    most: 1_000_000_000,
    otherwise: 0,
    help: "How many of them in a second, up to 1000000000; 0 for as many as are accepted [default: 0]",
};

/// The options of a log, in the order in which the help shows them.
const LOG: [Number; 6] = [PUBLISHERS, LENGTH, TERM, MTU, MESSAGES_IN_ALL, RATE];

/// The options of the driver.
const DRIVER: [Number; 8] = [
    PUBLISHERS,
    LENGTH,
    TERM,
    MTU,
    MESSAGES_IN_ALL,
    RATE,
    LOSS,
    SEED,
];

fn log_command<'a>(alloc: Global) -> Result<Command<'a>, AllocError>
    ensures { IfOk result (λ r. app_of r ≡ log_app) }
{
    let command = Command::new(alloc, "log").bin_name("bench log")?;
    let command = command.about("Time a log that threads share, and print a row");
    with_numbers(alloc, command, &LOG)
}

fn driver_command<'a>(alloc: Global) -> Result<Command<'a>, AllocError>
    ensures { IfOk result (λ r. app_of r ≡ driver_app) }
{
    let command = Command::new(alloc, "driver").bin_name("bench driver")?;
    let command = command.about("Time the driver, and print a row");
    with_numbers(alloc, command, &DRIVER)
}

fn command<'a>(alloc: Global, subject: Subject) -> Result<Command<'a>, AllocError>
    ensures { IfOk result (λ r. app_of r ≡ timing_app subject) }
{
    match subject {
        Subject::Log => log_command(alloc),
        Subject::Driver => driver_command(alloc),
    }
}

/// What the options that were found tell; one that a log lacks is as it is where nothing is said.
fn timing_of(matches: &ArgMatches<'_>) -> TimingOptions
    ensures { IsTimingOf (rows_of (found_of matches.now)) result }
{
    TimingOptions {
        publishers: number_of(matches, PUBLISHERS) as u32,
        length: number_of(matches, LENGTH) as u32,
        term: number_of(matches, TERM) as u32,
        mtu: number_of(matches, MTU) as u32,
        messages: number_of(matches, MESSAGES_IN_ALL) as u32,
        rate: number_of(matches, RATE),
        loss: number_of(matches, LOSS) as u32,
        seed: number_of(matches, SEED),
    }
}

/// What the words of a line of `log` or of `driver` tell; the first of them is that word.
pub fn timing_options(
    alloc: Global,
    subject: Subject,
    words: &[&str],
) -> Result<TimingOptions, LineFault>
    ensures { IfOk result (λ o. IsTimingOf (matches_of (timing_app subject) (map (λ s. s.now) words.now)) o) }
{
    match parsed(command(alloc, subject), words) {
        Ok(matches) => Ok(timing_of(&matches)),
        Err(fault) => Err(fault),
    }
}
