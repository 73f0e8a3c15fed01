//! Options that have a number.

ghost use Rattle.std.specs.Prelude.{◌≡◌, ◌≤◌, IfOk, false};
ghost use Rattle.clap.specs.declared.builder.command.Command.TheViews.{out-Command};
ghost use Rattle.clap.specs.Words.{app_of, found_of, rows_of};
ghost use Rattle.command_line.specs.Numbers.{IsNumber, plus, with_numbers};

use crate::valued::{headed, valued};
use clap::builder::ValueParser;
use clap::{ArgMatches, Command};
use std::alloc::{AllocError, Global};

/// An option `--NAME` with a number.
#[derive(Clone, Copy)]
pub struct Number {
    pub name: &'static str,
    /// What the help calls its value.
    pub value: &'static str,
    /// The heading under which the help shows it, `Options` where it is none.
    pub heading: Option<&'static str>,
    /// The least number that is taken.
    pub least: u64,
    /// The greatest.
    pub most: u64,
    /// The number where the option isn't given.
    pub otherwise: u64,
    pub help: &'static str,
}

/// The command with one option more.
fn with_number<'a>(
    alloc: Global,
    command: Command<'a>,
    number: &Number,
) -> Result<Command<'a>, AllocError>
    ensures shape { IfOk result (λ r. app_of r ≡ plus number.now.name.now number.now.least number.now.most (app_of command.entry)) }
    ensures globals { IfOk result (λ r. (out-Command command.entry).has_globals ≡ false → (out-Command r).has_globals ≡ false) }
{
    let argument = valued(alloc, number.name, number.value, number.help).value_parser(
        ValueParser::unsigned(number.least, number.most),
    );
    command.arg(headed(argument, number.heading))
}

/// The command with these options more.
pub fn with_numbers<'a>(
    alloc: Global,
    command: Command<'a>,
    numbers: &[Number],
) -> Result<Command<'a>, AllocError>
    ensures shape { IfOk result (λ r. app_of r ≡ with_numbers numbers.now (app_of command.entry)) }
    ensures globals { IfOk result (λ r. (out-Command command.entry).has_globals ≡ false → (out-Command r).has_globals ≡ false) }
{
    let mut command = command;
    for number in numbers {
        command = with_number(alloc, command, number)?;
    }
    Ok(command)
}

/// The number that the option has. The parser refuses a word that spells none in the range, so the range cuts nothing
/// off.
pub fn number_of(matches: &ArgMatches<'_>, number: Number) -> u64
    requires low { number.least ≤ number.otherwise }
    requires high { number.otherwise ≤ number.most }
    ensures { IsNumber (rows_of (found_of matches.now)) number.name.now number.least number.most number.otherwise result }
{
    let found = matches.get_one::<u64>(number.name);
    found
        .unwrap_or(number.otherwise)
        .clamp(number.least, number.most)
}
