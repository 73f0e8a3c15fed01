//! A script from a reader, its lines to a writer.

ghost use Rattle.std.specs.Prelude.{◌≡◌, ◌≤◌, ◌⊎◌, vec_len, IfErr, IfOk, IfSome, OnOk};
ghost use Rattle.std.specs.Io.KnownBytes.{Appends, Consumes, Keeps};
ghost use Rattle.simulation.specs.LineTexts.{text_of_lines};
ghost use Rattle.simulation.specs.Lines.{line_contents};
ghost use Rattle.commands.specs.Scripting.{ExplainsInput, ExplainsScript, PlaysInput};

use crate::fault::Fault;
use script::read_script;
use simulation::{Line, play};
use std::alloc::Global;
use std::io::{ErrorKind, Read, Write};

/// The most bytes of a script: 1 MiB.
const GREATEST_INPUT: usize = 1_048_576;

/// Plays the script that the input holds, and writes its lines. An input of more than 1 MiB is `Input`, once so much was
/// taken of it; `Read` and `Memory` come only before. At any fault but `Write` nothing was written; at `Write` some of the
/// output's bytes may have been.
pub fn sim<R: Read, W: Write>(alloc: Global, input: &mut R, output: &mut W) -> Result<(), Fault>
    ensures done { OnOk result (PlaysInput (R.remaining input.old) (W.contents output.old) (W.contents output.new)) }
    ensures fault { IfErr result (λ fault. ExplainsScript (R.remaining input.old) (R.remaining input.new) fault) }
    ensures kept { IfErr result (λ fault. (fault ≡ Fault.Write)
        ⊎ Keeps (W.contents output.old) (W.contents output.new)) }
{
    let text = text_of(alloc, input)?;
    let script = read_script(alloc, &text)?;
    let lines = play(alloc, &script)?;
    write_lines(&lines, output)?;
    output.flush().map_err(|_| Fault::Write)
}

/// Writes lines, each ended by a line feed.
fn write_lines<W: Write>(lines: &[Line], output: &mut W) -> Result<(), Fault>
    ensures done { OnOk result (Appends (W.contents output.old) (W.contents output.new) (text_of_lines (line_contents lines.now))) }
    ensures fault { IfErr result (λ fault. fault ≡ Fault.Write) }
{
    for line in lines {
        writeln!(output, "{line}").map_err(|_| Fault::Write)?;
    }
    Ok(())
}

/// All of the input, unless it is longer than 1 MiB. The fault is `Input` then, `Read` where the input fails, or want of
/// memory.
fn text_of<R: Read>(alloc: Global, input: &mut R) -> Result<Vec<u8>, Fault>
    ensures whole { IfOk result (λ text. IfSome (R.remaining input.old) (λ bytes. text.items ≡ bytes)) }
    ensures taken { IfOk result (λ text. Consumes (R.remaining input.old) (R.remaining input.new) text.items) }
    ensures short { IfOk result (λ text. vec_len text ≤ 1048576) }
    ensures fault { IfErr result (λ fault. ExplainsInput (R.remaining input.old) (R.remaining input.new) fault) }
{
    let mut text = Vec::new(alloc);
    let mut buffer = [0; 4096];
    for _turn in 0..u64::MAX {
        let count = match input.read(&mut buffer) {
            Ok(count) => count,
            Err(error) if error.kind() == ErrorKind::Interrupted => continue,
            Err(_) => return Err(Fault::Read),
        };
        if count == 0 {
            return Ok(text);
        }
        if count > GREATEST_INPUT - text.len() {
            return Err(Fault::Input);
        }
        text.extend_from_slice(&buffer[..count])?;
    }
    Err(Fault::Read)
}
