//! The options of a line of `run`.

ghost use Rattle.std.specs.Prelude.{◌≡◌, IfOk, codes, false};
ghost use Rattle.clap.specs.declared.builder.command.Command.TheViews.{out-Command};
ghost use Rattle.clap.specs.Words.{app_of, found_of, new_app, rows_of};
ghost use Rattle.command_line.specs.RunLines.{run_app};
ghost use Rattle.command_line.specs.RunTold.{IsRunOf};

use crate::flag::{flag_of, with_flag};
use crate::network::{HOLD, LOSS, REPEAT, SEED};
use crate::number::{Number, number_of, with_numbers};
use clap::{ArgMatches, Command};
use options::RunOptions;
use std::alloc::{AllocError, Global};

const PUBLISHERS: Number = Number {
    name: "publishers",
    value: "N",
    heading: None,
    least: 1,
    most: 8,
    otherwise: 4,
    help: "How many publishers, 1 to 8 [default: 4]",
};

const RECEIVERS: Number = Number {
    name: "receivers",
    value: "N",
    heading: None,
    least: 1,
    most: 8,
    otherwise: 1,
    help: "How many receivers, 1 to 8; from 2 on a group [default: 1]",
};

const MESSAGES_OF_EACH: Number = Number {
    name: "messages",
    value: "N",
    heading: None,
    least: 1,
    most: 1_000_000,
    otherwise: 1000,
    help: "How many messages each publisher sends, 1 to 1000000 [default: 1000]",
};

const LENGTH: Number = Number {
    name: "length",
    value: "N",
    heading: None,
    least: 8,
    most: 2_097_152,
    otherwise: 200,
    help: "The bytes of a message, 8 to 2097152 [default: 200]",
};

const TURNS: Number = Number {
    name: "turns",
    value: "N",
    heading: None,
    least: 1,
    most: 1_000_000_000,
    otherwise: 1_000_000,
    help: "The most turns of each thread, 1 to 1000000000 [default: 1000000]",
};

const TERM: Number = Number {
    name: "term",
    value: "N",
    heading: None,
    least: 0,
    most: 4_294_967_295,
    otherwise: 65_536,
    help: "The bytes of a term, a power of two from 65536 to 16777216, else status 1 [default: 65536]",
};

const MTU: Number = Number {
    name: "mtu",
    value: "N",
    heading: None,
    least: 0,
    most: 4_294_967_295,
    otherwise: 1408,
    help: "The most bytes of a datagram, a multiple of 32 from 256 to 65504, else status 1 [default: 1408]",
};

/// The options with a number, in the order in which the help shows them.
const NUMBERS: [Number; 11] = [
    PUBLISHERS,
    RECEIVERS,
    MESSAGES_OF_EACH,
    LENGTH,
    LOSS,
    REPEAT,
    HOLD,
    SEED,
    TURNS,
    TERM,
    MTU,
];

/// The command `run`.
pub(crate) fn run_command<'a>(alloc: Global) -> Result<Command<'a>, AllocError>
    ensures shape { IfOk result (λ r. app_of r ≡ run_app) }
    ensures globals { IfOk result (λ r. (out-Command r).has_globals ≡ false) }
{
    let run = with_numbers(alloc, without_options(alloc), &NUMBERS)?;
    with_flag(alloc, run, "counters", "Show the counters")
}

fn without_options<'a>(alloc: Global) -> Command<'a>
    ensures shape { app_of result ≡ new_app (codes "run") }
    ensures globals { (out-Command result).has_globals ≡ false }
{
    Command::new(alloc, "run").about("Run publishers, a sender and receivers")
}

/// What the options that were found tell.
pub(crate) fn run_of(matches: &ArgMatches<'_>) -> RunOptions
    ensures { IsRunOf (rows_of (found_of matches.now)) result }
{
    RunOptions {
        publishers: number_of(matches, PUBLISHERS) as u32,
        receivers: number_of(matches, RECEIVERS) as u32,
        messages: number_of(matches, MESSAGES_OF_EACH) as u32,
        length: number_of(matches, LENGTH) as u32,
        loss: number_of(matches, LOSS) as u32,
        repeat: number_of(matches, REPEAT) as u32,
        hold: number_of(matches, HOLD) as u32,
        seed: number_of(matches, SEED),
        turns: number_of(matches, TURNS) as u32,
        term: number_of(matches, TERM) as u32,
        mtu: number_of(matches, MTU) as u32,
        counters: flag_of(matches, "counters"),
    }
}
