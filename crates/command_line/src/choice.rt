//! What a line of `sim`, `decode` or `run` asks for.

ghost use Rattle.clap.specs.Words.{subcommand_rows_of};
ghost use Rattle.command_line.specs.CommandLines.{IsChoice, IsChoiceButRun};

use crate::run_line::run_of;
use clap::ArgMatches;
use options::RunOptions;

/// What a command line asks for.
#[derive(Clone, Copy, Debug, PartialEq, Eq)]
pub enum Options<'a> {
    /// Play the script that the standard input holds.
    Sim,
    /// Print the frames of the datagram that this word spells.
    Decode(&'a str),
    /// Run publishers, a sender and receivers, as this tells.
    Run(RunOptions),
}

/// What the subcommand that was met asks for.
pub(crate) fn choice<'a>(matches: &ArgMatches<'a>) -> Options<'a>
    ensures { IsChoice (subcommand_rows_of matches.now) result }
{
    match matches.subcommand_matches("run") {
        Some(run) => Options::Run(run_of(run)),
        None => choice_but_run(matches),
    }
}

/// What it asks for where it isn't `run`.
fn choice_but_run<'a>(matches: &ArgMatches<'a>) -> Options<'a>
    ensures { IsChoiceButRun (subcommand_rows_of matches.now) result }
{
    // The word is required, so a parse that succeeds has it.
    match matches.subcommand_matches("decode") {
        Some(decode) => Options::Decode(decode.get_str("HEX").unwrap_or("")),
        None => Options::Sim,
    }
}
