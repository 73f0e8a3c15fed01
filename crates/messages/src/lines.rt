//! Lines.

ghost use Rattle.std.specs.Prelude.{◌≤◌, IfErr, IfOk, length};
ghost use Rattle.messages.specs.declared.form.Form.TheVariants.{Lines};
ghost use Rattle.messages.specs.Inputs.{Explains, Gives};
ghost use Rattle.messages.specs.Shown.{BreaksLine, TakesShown};

use crate::bytes::next_byte;
use crate::fault::InputFault;
use memchr::memchr;
use std::io::{BufRead, ErrorKind};

/// What the input showed of a line.
#[derive(Clone, Copy)]
pub(crate) enum Shown {
    /// Nothing: the input is at its end.
    End,
    /// The rest of it, and its line feed.
    Rest,
    /// A part of it, perhaps none.
    Part,
}

/// Takes one byte of a line, if the input has one, and adds it to what is held of the line.
fn take_byte<R: BufRead>(
    number: u64,
    greatest: usize,
    input: &mut R,
    line: &mut Vec<u8>,
) -> Result<Shown, InputFault>
    requires { length line.old.items ≤ greatest }
    ensures takes { IfOk result (λ shown. TakesShown greatest (R.remaining input.old) (R.remaining input.new) shown line.old.items line.new.items) }
    ensures fault { IfErr result (λ fault. BreaksLine number greatest (R.remaining input.old) (R.remaining input.new) line.old.items line.new.items fault) }
{
    let Some(byte) = next_byte(input)? else {
        return Ok(Shown::End);
    };
    if byte == b'\n' {
        return Ok(Shown::Rest);
    }
    if line.len() == greatest {
        return Err(InputFault::TooLong(number, greatest));
    }
    line.push(byte)?;
    Ok(Shown::Part)
}

/// Takes what the input shows of a line up to its line feed, which is taken too, and adds it to what is held of the line.
/// Of a line that is too long one byte more than may be held is taken; where memory is refused one more than is held.
fn take_shown<R: BufRead>(
    number: u64,
    greatest: usize,
    input: &mut R,
    line: &mut Vec<u8>,
) -> Result<Shown, InputFault>
    requires { length line.old.items ≤ greatest }
    ensures takes { IfOk result (λ shown. TakesShown greatest (R.remaining input.old) (R.remaining input.new) shown line.old.items line.new.items) }
    ensures fault { IfErr result (λ fault. BreaksLine number greatest (R.remaining input.old) (R.remaining input.new) line.old.items line.new.items fault) }
{
    let shown = match input.fill_buf() {
        Ok(shown) => shown,
        Err(error) if error.kind() == ErrorKind::Interrupted => return Ok(Shown::Part),
        Err(error) => return Err(InputFault::Read(error.raw_os_error())),
    };
    if shown.is_empty() {
        return take_byte(number, greatest, input, line);
    }
    let room = greatest - line.len();
    let feed = memchr(b'\n', shown);
    let size = feed.unwrap_or(shown.len());
    if size > room {
        input.consume(room + 1);
        return Err(InputFault::TooLong(number, greatest));
    }
    if line.extend_from_slice(&shown[..size]).is_err() {
        input.consume(1);
        return Err(InputFault::Memory);
    }
    if feed.is_some() {
        input.consume(size + 1);
        return Ok(Shown::Rest);
    }
    input.consume(size);
    Ok(Shown::Part)
}

/// Reads the line of this number, of at most `greatest` bytes, without its line feed. Whether there was one.
pub fn next_line<R: BufRead>(
    number: u64,
    greatest: usize,
    input: &mut R,
    message: &mut Vec<u8>,
) -> Result<bool, InputFault>
    ensures gives { IfOk result (λ any. Gives Lines greatest (R.remaining input.old) (R.remaining input.new) any message.new.items) }
    ensures fault { IfErr result (λ fault. Explains Lines number greatest (R.remaining input.old) (R.remaining input.new) message.new.items fault) }
{
    message.clear();
    for _turn in 0..u64::MAX {
        match take_shown(number, greatest, input, message)? {
            Shown::End => return Ok(!message.is_empty()),
            Shown::Rest => return Ok(true),
            Shown::Part => {}
        }
    }
    Err(InputFault::Read(None))
}
