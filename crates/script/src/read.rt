ghost use Rattle.std.specs.Prelude.{ℕ, List, ◌≡◌, ◌∷◌, true, length, None, OnOk, IfOk, IfErr, MatchResult, IsErrOf};
ghost use Rattle.std.specs.List.{Any, list_any};
ghost use Rattle.script.specs.Language.{BeginsLog, IsScript, IsFaultLine};
ghost use Rattle.script.specs.Meaning.{ScriptContent, opened, contents_of, script_content};
ghost use Rattle.script.specs.Pieces.{lines};
ghost use Rattle.script.specs.Reading.{FaultIs, GivesScript, ReadsOn, are_none, is_log, finished, script_from, script_of};

use crate::command::{Command, LogLine, Script};
use crate::fault::ScriptFault;
use crate::line::{command_at, is_log_line, log_line};
use crate::pieces::Lines;
use std::alloc::Global;

/// Reads the line with this number, behind lines of which `log` and `commands` tell.
fn read_line(
    alloc: Global,
    number: u64,
    line: &[u8],
    log: &mut Option<LogLine>,
    commands: &mut Vec<Command>,
) -> Result<(), ScriptFault>
    ensures ok { OnOk result (ReadsOn number line.now (opened log.old) (contents_of commands.old.items) (opened log.new) (contents_of commands.new.items)) }
    ensures err { IfErr result (λ fault. (rest : List (List ℕ)) → FaultIs fault (script_from number (are_none (contents_of commands.old.items)) (opened log.old) (line.now ∷ rest))) }
{
    if line.is_empty() {
        return Ok(());
    }
    match *log {
        None => {
            let Some(opening) = log_line(line) else {
                return Err(ScriptFault::Line(number));
            };
            *log = Some(opening);
        }
        Some(_) => {
            let next = command_at(alloc, number, commands.is_empty(), line)?;
            commands.push(next)?;
        }
    }
    Ok(())
}

/// The script of a text that has a line whose first word is `log`.
fn read_lines(alloc: Global, bytes: &[u8]) -> Result<Script, ScriptFault>
    ensures { GivesScript script_content result (finished (script_from 1 true None (lines bytes.now))) }
{
    let mut log = None;
    let mut commands = Vec::new(alloc);
    let mut number = 1;
    for line in Lines::new(bytes) {
        read_line(alloc, number, line, &mut log, &mut commands)?;
        number += 1;
    }
    match log {
        Some(log) => Ok(Script { log, commands }),
        None => Err(ScriptFault::Line(1)),
    }
}

/// Whether the first word of some line is `log`.
fn has_log(bytes: &[u8]) -> bool
    ensures { result ≡ list_any is_log (lines bytes.now) }
{
    for line in Lines::new(bytes) {
        if is_log_line(line) {
            return true;
        }
    }
    false
}

fn line_count(bytes: &[u8]) -> u64
    ensures { result ≡ length (lines bytes.now) }
{
    Lines::new(bytes).count() as u64
}

/// The script of a text, unless memory runs out.
fn read(alloc: Global, bytes: &[u8]) -> Result<Script, ScriptFault>
    ensures given { GivesScript script_content result (script_of bytes.now) }
    ensures memory { IsErrOf result ScriptFault.Memory → list_any is_log (lines bytes.now) ≡ true }
{
    if has_log(bytes) {
        read_lines(alloc, bytes)
    } else {
        Err(ScriptFault::Line(line_count(bytes).max(1)))
    }
}

/// The script that a text is.
///
/// A text without any line whose first word is `log` has its fault on its last line, or on line 1 if it has no line.
/// In any other the fault is on the first line from the top that doesn't fit: a line before the `log` line that isn't
/// empty, another `log` line, a `group` line that isn't the first behind it, a line of no form, or a number out of its range.
pub fn read_script(alloc: Global, bytes: &[u8]) -> Result<Script, ScriptFault>
    // What is read is what the text says.
    ensures found { IfOk result (λ script. IsScript bytes.now (script_content script)) }
    // What the text says is read, unless memory runs out.
    ensures only { (meant : ScriptContent) → IsScript bytes.now meant → MatchResult result (λ script. script_content script ≡ meant) (λ fault. fault ≡ ScriptFault.Memory) }
    // Memory is wanted only for a text with a line that begins with `log`.
    ensures memory { IsErrOf result ScriptFault.Memory → Any BeginsLog (lines bytes.now) }
    // A fault names the line of the text's fault.
    ensures fault { (number : ℕ) → IsErrOf result (ScriptFault.Line number) → IsFaultLine bytes.now number }
{
    read(alloc, bytes)
}
