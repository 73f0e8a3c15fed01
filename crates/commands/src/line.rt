//! One command line, carried out.

ghost use Rattle.std.specs.Prelude.{◌≡◌, ◌≢◌, ◌≤◌, [], map};
ghost use Rattle.clap.specs.Words.{fault_of};
ghost use Rattle.command_line.specs.CommandLines.{driver_app};
ghost use Rattle.command_line.specs.Readers.{faults_of};
ghost use Rattle.command_line.specs.Refusals.{HoldRefusal};
ghost use Rattle.commands.specs.DecodedInput.{DecodesInput};
ghost use Rattle.commands.specs.Done.{DrivesBy, DrivesShortBy, IsDone, IsDriven, IsDrivenShort, IsShort};
ghost use Rattle.commands.specs.Running.{IsLeftBy};
ghost use Rattle.commands.specs.Statuses.{IsStatusOf, RefusesLine, ran_status};

use crate::decoding::{decode, decode_input};
use crate::fault::Fault;
use crate::publish_command::publish_command;
use crate::run_command::run_driver;
use crate::script_command::sim;
use crate::status::{done, failed, line_status, shown};
use crate::subscribe_command::subscribe_command;
use command_line::{Options, Reader, line_reader, line_words, options};
use options::RunOptions;
use publisher::buffered;
use run::Ending;
use std::alloc::Global;
use std::io::{Read, Write};
use std::net::Net;
use std::random::RandomSource;
use std::sync::Wait;
use std::thread::Threads;
use std::time::Clock;

/// The line of `--version`: the program's name and version, and the kit that it is written for.
const VERSION: &str = "mdriver 0.2.0, for rattle-kit-13f logic dac8208d650f15bf\n";

/// The line that asks for the help of `publish`.
const PUBLISH_HELP: [&str; 2] = ["publish", "--help"];

/// The line that asks for the help of `subscribe`.
const SUBSCRIBE_HELP: [&str; 2] = ["subscribe", "--help"];

/// Carries out a command line, and gives the status: 0 where all was done, 1 at a fault, 2 where the line, an end's channel,
/// endpoints or rates are refused, 3 where a run was short, a publisher ended before all was written, or a subscriber with
/// `--once` wasn't told the end, or lost an image. The first word is the program's name. The input is taken over, since the thread that reads it
/// may outlive the command.
///
/// At 0 all that the words ask for is done, and at 3 less, as far as the input and the output tell their bytes. The texts of
/// help, the version and refusals are the parser's, of which no contract speaks.
pub fn command<
    'a,
    C: Threads + Wait + Clock + Net + RandomSource + Sync + Send + Copy + 'static,
    R: Read + Send + Drop + 'static,
    W: Write,
    E: Write,
>(rt: &C, alloc: Global, words: &'a [&'a str], mut input: R, output: &mut W, errors: &mut E) -> u8
    // Refused words end with 2, and help with 0; or with 1, for want of memory or where the help isn't written.
    ensures status { IsStatusOf (faults_of (map (λ s. s.now) words.entry.now)) result }
    // Only such words, and an end's channel and rates, end with 2.
    ensures refused { result ≡ 2 → RefusesLine (map (λ s. s.now) words.entry.now) }
    // Of words that the parser takes, 0 says that what they ask for is done.
    ensures done { faults_of (map (λ s. s.now) words.entry.now) ≡ [] → result ≡ 0
        → IsDone (map (λ s. s.now) words.entry.now) (R.remaining input) (W.contents output.old) (W.contents output.new) }
    ensures short { result ≡ 3 → IsShort (map (λ s. s.now) words.entry.now) (W.contents output.old) (W.contents output.new) }
{
    let line = line_words(words);
    match line_reader(line) {
        Reader::Version => shown(&VERSION, output, errors),
        Reader::PublishHelp => publish_command(rt, alloc, &PUBLISH_HELP, input, output, errors),
        Reader::SubscribeHelp => subscribe_command(rt, alloc, &SUBSCRIBE_HELP, output, errors),
        Reader::Publish => publish_command(rt, alloc, line, input, output, errors),
        Reader::Subscribe => subscribe_command(rt, alloc, line, output, errors),
        Reader::DecodeInput => decode_input_status(alloc, input, output, errors),
        Reader::Driver => driver_command(rt, alloc, words, &mut input, output, errors),
    }
}

/// Carries out a line of `sim`, `decode` or `run`, and gives the status.
fn driver_command<'a, C: Threads + Wait + Clock + Net + Sync, R: Read, W: Write, E: Write>(
    rt: &C,
    alloc: Global,
    words: &'a [&'a str],
    input: &mut R,
    output: &mut W,
    errors: &mut E,
) -> u8
    ensures status { IsStatusOf (fault_of driver_app (map (λ s. s.now) words.entry.now)) result }
    ensures refused { result ≡ 2 → HoldRefusal (fault_of driver_app (map (λ s. s.now) words.entry.now)) }
    ensures done { fault_of driver_app (map (λ s. s.now) words.entry.now) ≡ [] → result ≡ 0
        → DrivesBy (map (λ s. s.now) words.entry.now) (R.remaining input.old) (W.contents output.old) (W.contents output.new) }
    ensures short { result ≡ 3 → DrivesShortBy (map (λ s. s.now) words.entry.now) (W.contents output.old) (W.contents output.new) }
{
    match options(alloc, words) {
        Ok(options) => driver_status(rt, alloc, &options, input, output, errors),
        Err(fault) => line_status(&fault, output, errors),
    }
}

/// Carries out what a line asks for, and gives the status.
fn driver_status<C: Threads + Wait + Clock + Net + Sync, R: Read, W: Write, E: Write>(
    rt: &C,
    alloc: Global,
    options: &Options<'_>,
    input: &mut R,
    output: &mut W,
    errors: &mut E,
) -> u8
    ensures most { result ≤ 3 }
    ensures accepted { result ≢ 2 }
    ensures done { result ≡ 0 → IsDriven options.now (R.remaining input.old) (W.contents output.old) (W.contents output.new) }
    ensures short { result ≡ 3 → IsDrivenShort options.now (W.contents output.old) (W.contents output.new) }
{
    match *options {
        Options::Sim => done(&sim(alloc, input, output), errors),
        Options::Decode(word) => done(&decode(alloc, word, output), errors),
        Options::Run(options) => run_status(rt, alloc, &options, output, errors),
    }
}

/// Prints the frames of the datagrams that the input spells, and gives the status.
fn decode_input_status<R: Read + Drop, W: Write, E: Write>(
    alloc: Global,
    input: R,
    output: &mut W,
    errors: &mut E,
) -> u8
    ensures most { result ≤ 1 }
    ensures decoded { result ≡ 0 → DecodesInput (R.remaining input) (W.contents output.old) (W.contents output.new) }
{
    match buffered(alloc, input) {
        Ok(mut input) => done(&decode_input(alloc, &mut input, output), errors),
        Err(fault) => failed(&fault, errors),
    }
}

/// Runs the driver, and gives the status. At 0 the run was whole, and at 3 short, as the lines that were written tell.
fn run_status<C: Threads + Wait + Clock + Net + Sync, W: Write, E: Write>(
    rt: &C,
    alloc: Global,
    options: &RunOptions,
    output: &mut W,
    errors: &mut E,
) -> u8
    ensures most { result ≤ 3 }
    ensures accepted { result ≢ 2 }
    ensures whole { result ≡ 0 → IsLeftBy options.now (W.contents output.old) (W.contents output.new) Ending.Whole }
    ensures short { result ≡ 3 → IsLeftBy options.now (W.contents output.old) (W.contents output.new) Ending.Short }
{
    let ended = run_driver(rt, alloc, options, output, &mut *errors);
    ran(&ended, errors)
}

/// The status of a run that ended; a fault is told, and so is a broken order.
fn ran<E: Write>(ended: &Result<Ending, Fault>, errors: &mut E) -> u8
    ensures value { result ≡ ran_status ended.now }
    ensures most { result ≤ 3 }
    ensures accepted { result ≢ 2 }
{
    match ended {
        Ok(Ending::Whole) => 0,
        Ok(Ending::Short) => 3,
        Ok(Ending::Broken) => failed(&Fault::Order, errors),
        Err(fault) => failed(fault, errors),
    }
}
