//! Flags.

ghost use Rattle.std.specs.Prelude.{◌≡◌, IfOk, false};
ghost use Rattle.clap.specs.declared.builder.command.Command.TheViews.{out-Command};
ghost use Rattle.clap.specs.Words.{app_of, found_of, rows_of};
ghost use Rattle.command_line.specs.Flags.{IsFlag, plus_flag};

use clap::{Arg, ArgAction, ArgMatches, Command};
use std::alloc::{AllocError, Global};

/// The command with one flag `--NAME` more.
pub fn with_flag<'a>(
    alloc: Global,
    command: Command<'a>,
    name: &'static str,
    help: &'static str,
) -> Result<Command<'a>, AllocError>
    ensures shape { IfOk result (λ r. app_of r ≡ plus_flag name.now (app_of command.entry)) }
    ensures globals { IfOk result (λ r. (out-Command command.entry).has_globals ≡ false → (out-Command r).has_globals ≡ false) }
{
    let argument = Arg::new(alloc, name)
        .long(name)
        .help(help)
        .action(ArgAction::SetTrue);
    command.arg(argument)
}

/// Whether the flag was given.
pub fn flag_of(matches: &ArgMatches<'_>, name: &'static str) -> bool
    ensures { IsFlag (rows_of (found_of matches.now)) name.now result }
{
    matches.get_flag(name)
}
