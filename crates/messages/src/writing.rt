//! A message, written.

ghost use Rattle.std.specs.Prelude.{◌≡◌, ◌^◌, ◌≤◌, length, IsErr, OnErr, OnOk, Some};
ghost use Rattle.std.specs.Io.KnownBytes.{Appends, Keeps};
ghost use Rattle.messages.specs.Forms.{AppendsPart, block, output_text, spelled};

use crate::form::Form;
use std::error::Error;
use std::fmt;
use std::io::{ErrorKind, Write};

/// The output failed, with the system's number, where it gave one; or the message is too long for its form. Some of the
/// message's bytes may have been written.
#[derive(Clone, Copy, Debug, PartialEq, Eq)]
pub struct OutputFailed(pub Option<i32>);

impl fmt::Display for OutputFailed {
    ghost output = { λ _. Some output_text };

    fn fmt<W: fmt::Write>(&self, f: &mut fmt::Formatter<W>) -> fmt::Result {
        f.write_str("output")
    }
}

impl Error for OutputFailed {}

/// Writes bytes. At an error a part of them was written, perhaps none, and never all.
fn write_bytes<W: Write>(bytes: &[u8], output: &mut W) -> Result<(), OutputFailed>
    ensures done { OnOk result (Appends (W.contents output.old) (W.contents output.new) bytes.now) }
    ensures part { OnErr result (AppendsPart (W.contents output.old) (W.contents output.new) bytes.now) }
{
    if bytes.is_empty() {
        return Ok(());
    }
    let mut at = 0;
    for _turn in 0..u64::MAX {
        let rest = &bytes[at..];
        match output.write(rest) {
            Ok(0) => return Err(OutputFailed(None)),
            Ok(count) if count == rest.len() => return Ok(()),
            Ok(count) => at += count,
            Err(error) if error.kind() == ErrorKind::Interrupted => {}
            Err(error) => return Err(OutputFailed(error.raw_os_error())),
        }
    }
    Err(OutputFailed(None))
}

fn write_block<W: Write>(message: &[u8], output: &mut W) -> Result<(), OutputFailed>
    ensures done { OnOk result (Appends (W.contents output.old) (W.contents output.new) (block message.now)) }
    ensures part { OnErr result (AppendsPart (W.contents output.old) (W.contents output.new) (block message.now)) }
    ensures long { 2 ^ 32 ≤ length message.now → IsErr result × Keeps (W.contents output.old) (W.contents output.new) }
{
    if message.len() > u32::MAX as usize {
        return Err(OutputFailed(None));
    }
    let length = (message.len() as u32).to_le_bytes();
    write_bytes(&length, output)?;
    write_bytes(message, output)
}

/// Writes a message as its form says. The error comes where the output fails, and then a part of that is written, perhaps
/// nothing, and never all of it. For a block of 2^32 bytes or more it always comes, and nothing is written.
pub fn write_message<W: Write>(
    form: Form,
    message: &[u8],
    output: &mut W,
) -> Result<(), OutputFailed>
    ensures done { OnOk result (Appends (W.contents output.old) (W.contents output.new) (spelled form message.now)) }
    ensures part { OnErr result (AppendsPart (W.contents output.old) (W.contents output.new) (spelled form message.now)) }
    ensures long { form ≡ Form.Blocks → 2 ^ 32 ≤ length message.now → IsErr result × Keeps (W.contents output.old) (W.contents output.new) }
{
    match form {
        Form::Lines => {
            write_bytes(message, output)?;
            write_bytes(b"\n", output)
        }
        Form::Blocks => write_block(message, output),
    }
}
