//! What the lines of both ends have.

ghost use Rattle.std.specs.Prelude.{◌≡◌, IfOk};
ghost use Rattle.clap.specs.Words.{app_of, found_of, new_app, rows_of};
ghost use Rattle.command_line.specs.Lines.{IsSharedOf, with_channel, with_shared};

use crate::flag::{flag_of, with_flag};
use crate::network::{HOLD, LOSS, REPEAT, SEED};
use crate::number::{Number, number_of, with_numbers};
use clap::{Arg, ArgMatches, Command};
use options::EndOptions;
use std::alloc::{AllocError, Global};

const STREAM: Number = Number {
    name: "stream",
    value: "N",
    heading: None,
    least: 0,
    most: 2_147_483_647,
    otherwise: 1001,
    help: "The stream's id, 0 to 2147483647 [default: 1001]",
};

/// The losses of what an end sends.
const OWN_LOSS: Number = Number {
    help: "How many of 1000 datagrams that it sends are lost, 0 to 1000 [default: 0]",
    ..LOSS
};

/// The options with a number that both have, in the order in which the help shows them.
const NUMBERS: [Number; 5] = [STREAM, OWN_LOSS, REPEAT, HOLD, SEED];

/// The command with its channel.
fn with_channel<'a>(alloc: Global, command: Command<'a>) -> Result<Command<'a>, AllocError>
    ensures { IfOk result (λ r. app_of r ≡ with_channel (app_of command.entry)) }
{
    let channel = Arg::new(alloc, "CHANNEL")
        .help("The channel, as aeron:udp?endpoint=127.0.0.1:40123|term-length=1m")
        .required(true);
    command.arg(channel)
}

/// The command with the options that both have.
fn with_shared<'a>(alloc: Global, command: Command<'a>) -> Result<Command<'a>, AllocError>
    ensures { IfOk result (λ r. app_of r ≡ with_shared (app_of command.entry)) }
{
    let command = with_numbers(alloc, command, &NUMBERS)?;
    let help = "A message stands behind its length, 32 bits with the lowest byte first";
    let command = with_flag(alloc, command, "blocks", help)?;
    with_flag(
        alloc,
        command,
        "counters",
        "Print the counters each second, and at the end, in a line on standard error",
    )
}

/// A command with its texts, and no argument.
fn named<'a>(
    alloc: Global,
    name: &'static str,
    line: &'static str,
    about: &'static str,
    more: &'static str,
) -> Result<Command<'a>, AllocError>
    ensures { IfOk result (λ r. app_of r ≡ new_app name.now) }
{
    let command = Command::new(alloc, name).bin_name(line)?;
    Ok(command.about(about).after_help(more))
}

/// A command with all that both have.
pub(crate) fn command_of<'a>(
    alloc: Global,
    name: &'static str,
    line: &'static str,
    about: &'static str,
    more: &'static str,
) -> Result<Command<'a>, AllocError>
    ensures { IfOk result (λ r. app_of r ≡ with_shared (with_channel (new_app name.now))) }
{
    let command = named(alloc, name, line, about, more)?;
    let command = with_channel(alloc, command)?;
    with_shared(alloc, command)
}

/// What the options that both have tell.
pub(crate) fn shared_of<'a>(matches: &ArgMatches<'a>) -> EndOptions<'a>
    ensures { IsSharedOf (rows_of (found_of matches.now)) result }
{
    EndOptions {
        // The word is required, so a parse that succeeds has it.
        channel: matches.get_str("CHANNEL").unwrap_or(""),
        stream: number_of(matches, STREAM) as u32,
        loss: number_of(matches, OWN_LOSS) as u32,
        repeat: number_of(matches, REPEAT) as u32,
        hold: number_of(matches, HOLD) as u32,
        seed: number_of(matches, SEED),
        blocks: flag_of(matches, "blocks"),
        counters: flag_of(matches, "counters"),
    }
}
