//! What a command finds in the words of its line.

ghost use Rattle.std.specs.Prelude.{◌≡◌, [], map, true, IfErr, IfOk, OnOk};
ghost use Rattle.clap.specs.Words.{App, HasMatchesOf, app_of, fault_of as clap_faults, is_simple_and_free};
ghost use Rattle.command_line.specs.Refusals.{IsFaultOf};

use crate::fault::{LineFault, fault_of};
use clap::{ArgMatches, Command};
use std::alloc::AllocError;

/// What a command finds in the words of its line, of which the first is the command's name; or why nothing is to be done,
/// which is want of memory where the command couldn't be made.
pub fn parsed<'a>(
    command: Result<Command<'a>, AllocError>,
    words: &'a [&'a str],
) -> Result<ArgMatches<'a>, LineFault>
    ensures found { (a : App) → IfOk command.entry (λ r. app_of r ≡ a)
        → IfOk result (HasMatchesOf a (map (λ s. s.now) words.entry.now)) }
    ensures passed { (a : App) → IfOk command.entry (λ r. app_of r ≡ a) → is_simple_and_free a ≡ true
        → OnOk result (clap_faults a (map (λ s. s.now) words.entry.now) ≡ []) }
    ensures fault { (a : App) → IfOk command.entry (λ r. app_of r ≡ a) → is_simple_and_free a ≡ true
        → IfErr result (IsFaultOf (clap_faults a (map (λ s. s.now) words.entry.now))) }
{
    let Ok(command) = command else {
        return Err(LineFault::Memory);
    };
    match command.try_get_matches_from(words) {
        Ok(matches) => Ok(matches),
        Err(error) => Err(fault_of(error)),
    }
}
