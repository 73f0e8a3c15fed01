//! Options that have a value.

ghost use Rattle.std.specs.Prelude.{◌≡◌, false};
ghost use Rattle.clap.specs.Words.{rule_of};
ghost use Rattle.command_line.specs.Numbers.{valued_rule};

use clap::Arg;
use std::alloc::Global;

/// An option `--NAME` with a value, which the help calls so.
pub(crate) fn valued<'a>(
    alloc: Global,
    name: &'static str,
    value: &'static str,
    help: &'static str,
) -> Arg<'a>
    ensures rule { rule_of result ≡ valued_rule name.now }
    ensures globals { result.global ≡ false }
{
    Arg::new(alloc, name)
        .long(name)
        .value_name(value)
        .help(help)
}

/// The argument under its heading, if it has one.
pub(crate) fn headed<'a>(argument: Arg<'a>, heading: Option<&'static str>) -> Arg<'a>
    ensures rule { rule_of result ≡ rule_of argument.entry }
    ensures globals { result.global ≡ argument.entry.global }
{
    match heading {
        Some(heading) => argument.help_heading(heading),
        None => argument,
    }
}
