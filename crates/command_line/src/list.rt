//! Options that may stand several times.

ghost use Rattle.std.specs.Prelude.{◌≡◌, IfOk};
ghost use Rattle.clap.specs.Words.{app_of, found_of, rows_of};
ghost use Rattle.command_line.specs.Lists.{AreTold, plus_list};

use crate::valued::valued;
use clap::{ArgAction, ArgMatches, Command};
use std::alloc::{AllocError, Global};

/// The command with one option `--NAME` more, which may stand several times, each with a text that the help
/// calls so.
pub(crate) fn with_list<'a>(
    alloc: Global,
    command: Command<'a>,
    name: &'static str,
    value: &'static str,
    help: &'static str,
) -> Result<Command<'a>, AllocError>
    ensures { IfOk result (λ r. app_of r ≡ plus_list name.now (app_of command.entry)) }
{
    let argument = valued(alloc, name, value, help).action(ArgAction::Append);
    command.arg(argument)
}

/// The texts of the option, in their order.
pub(crate) fn list_of<'a>(
    alloc: Global,
    matches: &ArgMatches<'a>,
    name: &'static str,
) -> Result<Vec<&'a str>, AllocError>
    ensures { IfOk result (λ texts. AreTold (rows_of (found_of matches.now)) name.now texts.items) }
{
    let mut texts = Vec::new(alloc);
    let Some(found) = matches.get_strs(name) else {
        return Ok(texts);
    };
    texts.extend_from_slice(found)?;
    Ok(texts)
}
