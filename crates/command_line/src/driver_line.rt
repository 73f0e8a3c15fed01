//! A line of `sim`, `decode` or `run`.

ghost use Rattle.std.specs.Prelude.{◌≡◌, ℕ, List, [], codes, false, map, IfOk, IfErr, OnOk, Err, MatchResult};
ghost use Rattle.clap.specs.declared.builder.command.Command.TheViews.{out-Command};
ghost use Rattle.clap.specs.Words.{App, IsAmong, app_of, fault_of as clap_faults, kind_of, new_app, with_rule, with_subcommand};
ghost use Rattle.command_line.specs.CommandLines.{AsksFor, AsksForBareRun, AsksForDecode, AsksForSim, IsRunByDefault, bare_app, driver_app, hex_rule};

use crate::choice::{Options, choice};
use crate::fault::LineFault;
use crate::parse::parsed;
use crate::run_line::run_command;
use clap::error::ErrorKind;
use clap::{Arg, Command, Error};
use std::alloc::{AllocError, Global};

/// What the words of a command line ask for; the first one is the program's name.
///
/// Taken are `sim`, alone or before a `--` that ends the options, and `decode` with one word: a word that doesn't begin
/// with a hyphen or is a hyphen alone, perhaps before a `--`, or any word behind a `--`. A line taken that begins with
/// `run` may give each number of a run, in its range, and the flag: `run` alone is taken, with all numbers as they are
/// where nothing is said. Any other line is `Shown`, and so is a request for help.
pub fn options<'a>(alloc: Global, words: &'a [&'a str]) -> Result<Options<'a>, LineFault>
    ensures taken { AsksForSim (map (λ s. s.now) words.entry.now)
        → IfErr result (λ e. e ≡ LineFault.Memory) }
    ensures decode_taken { (word : List ℕ) → AsksForDecode (map (λ s. s.now) words.entry.now) word
        → IfErr result (λ e. e ≡ LineFault.Memory) }
    ensures run_taken { AsksForBareRun (map (λ s. s.now) words.entry.now)
        → MatchResult result IsRunByDefault (λ e. e ≡ LineFault.Memory) }
    ensures only { IfOk result (λ o. AsksFor o (map (λ s. s.now) words.entry.now)) }
    // What the parser holds against a line, as a number out of its range, keeps it from being taken.
    ensures passed { OnOk result (clap_faults driver_app (map (λ s. s.now) words.entry.now) ≡ []) }
    ensures shown { (e : Error) → result ≡ Err (LineFault.Shown e)
        → kind_of e ≡ ErrorKind.OutOfMemory → ⊥ }
    ensures kind { (e : Error) → result ≡ Err (LineFault.Shown e)
        → IsAmong (kind_of e) (clap_faults driver_app (map (λ s. s.now) words.entry.now)) }
{
    match parsed(whole(alloc), words) {
        Ok(matches) => Ok(choice(&matches)),
        Err(fault) => Err(fault),
    }
}

/// The program's commands.
fn whole<'a>(alloc: Global) -> Result<Command<'a>, AllocError>
    ensures { IfOk result (λ r. app_of r ≡ driver_app) }
{
    let with_sim = joined(bare_command(alloc), Ok(sim_command(alloc)));
    let with_decode = joined(with_sim, decode_command(alloc));
    joined(with_decode, run_command(alloc))
}

/// The command with one subcommand more, where both could be made.
fn joined<'a>(
    command: Result<Command<'a>, AllocError>,
    subcommand: Result<Command<'a>, AllocError>,
) -> Result<Command<'a>, AllocError>
    ensures { (a : App) (b : App) → IfOk command.entry (λ r. app_of r ≡ a)
        → IfOk subcommand.entry (λ r. app_of r ≡ b) → IfOk subcommand.entry (λ r. (out-Command r).has_globals ≡ false)
        → IfOk result (λ r. app_of r ≡ with_subcommand a b.top) }
{
    let command = command?;
    command.subcommand(subcommand?)
}

/// The program's help.
const HELP: &str =
    "Carries messages from process to process over UDP, in order and each exactly once.

Usage: mdriver <COMMAND>

From process to process:
  publish    Publish each line of standard input as a message
  subscribe  Write each message to standard output as a line

To try it and to look inside:
  run        Run publishers, a sender and receivers in threads of this process, over UDP
  sim        Play the script on standard input (the repository's examples/README.md explains scripts)
  decode     Print the frames of a datagram
  help       Print this help, or that of a command

Options:
  -h, --help     Print this help
  -V, --version  Print the version, and the kit that it is written for

The help of a command is printed by help COMMAND or COMMAND --help.

Exit status:
  0  done
  1  an error, told in one line; also a run's term, MTU, length or rates out of their bounds
  2  the command line is refused
  3  a run whose turns were used up, a publisher that gave up, or a subscriber whose stream was cut off";

/// The program's command without those below it. A line without words gets the help, and is refused.
fn bare_command<'a>(alloc: Global) -> Result<Command<'a>, AllocError>
    ensures { IfOk result (λ r. app_of r ≡ bare_app) }
{
    let command = Command::new(alloc, "mdriver").bin_name("mdriver")?;
    Ok(
        command
            .override_help(HELP)
            .subcommand_required(true)
            .arg_required_else_help(true),
    )
}

/// What the help of `sim` says of scripts.
const SCRIPTS: &str =
    "The repository's examples/README.md explains scripts, and has all lines of their language.

Exit status:
  0  played
  1  an error, told in one line with the number of the script's line";

fn sim_command<'a>(alloc: Global) -> Command<'a>
    ensures shape { app_of result ≡ new_app (codes "sim") }
    ensures globals { (out-Command result).has_globals ≡ false }
{
    Command::new(alloc, "sim")
        .about("Play the script on standard input")
        .after_help(SCRIPTS)
}

/// What the help of `decode` says of its digits.
const DIGITS: &str =
    "With --stdin in place of HEX each line of standard input is a datagram, in hexadecimal.

Exit status:
  0  printed
  1  an error, told in one line: as hex where the digits aren't an even number of at most 131072,
     or F1 to F8 where their bytes are no datagram";

fn decode_command<'a>(alloc: Global) -> Result<Command<'a>, AllocError>
    ensures shape { IfOk result (λ r. app_of r ≡ with_rule (new_app (codes "decode")) hex_rule) }
    ensures globals { IfOk result (λ r. (out-Command r).has_globals ≡ false) }
{
    let hex = Arg::new(alloc, "HEX")
        .help("The datagram in hexadecimal")
        .required(true);
    Command::new(alloc, "decode")
        .about("Print the frames of a datagram")
        .after_help(DIGITS)
        .arg(hex)
}
