//! Blocks.

ghost use Rattle.std.specs.Prelude.{List, ℕ, [], ◌∷◌, ◌<◌, IfErr, IfOk};
ghost use Rattle.std.specs.Io.KnownBytes.{Consumes};
ghost use Rattle.messages.specs.declared.form.Form.TheVariants.{Blocks};
ghost use Rattle.messages.specs.Blocks.{BreaksLength, BreaksPart, EndsLength, GivesLength, TakesPart};
ghost use Rattle.messages.specs.Inputs.{Explains, Gives};
ghost use Rattle.messages.specs.Shown.{BreaksSome, TakesSome};

use crate::bytes::next_byte;
use crate::fault::InputFault;
use std::io::{BufRead, ErrorKind};

/// Takes one byte of a block, if the input has one. Whether it had.
fn take_byte<R: BufRead>(input: &mut R, held: &mut Vec<u8>) -> Result<bool, InputFault>
    ensures takes { IfOk result (λ more. TakesSome 1 (R.remaining input.old) (R.remaining input.new) more held.old.items held.new.items) }
    ensures fault { IfErr result (λ fault. BreaksSome (R.remaining input.old) (R.remaining input.new) held.old.items held.new.items fault) }
{
    let Some(byte) = next_byte(input)? else {
        return Ok(false);
    };
    held.push(byte)?;
    Ok(true)
}

/// Takes what the input shows of so many bytes, and adds it to what is held of them. Whether there may be more. Where memory
/// is refused one byte more than is held is taken.
fn take_shown<R: BufRead>(
    most: usize,
    input: &mut R,
    held: &mut Vec<u8>,
) -> Result<bool, InputFault>
    requires { 0 < most }
    ensures takes { IfOk result (λ more. TakesSome most (R.remaining input.old) (R.remaining input.new) more held.old.items held.new.items) }
    ensures fault { IfErr result (λ fault. BreaksSome (R.remaining input.old) (R.remaining input.new) held.old.items held.new.items fault) }
{
    let shown = match input.fill_buf() {
        Ok(shown) => shown,
        Err(error) if error.kind() == ErrorKind::Interrupted => return Ok(true),
        Err(error) => return Err(InputFault::Read(error.raw_os_error())),
    };
    if shown.is_empty() {
        return take_byte(input, held);
    }
    let size = shown.len().min(most);
    if held.extend_from_slice(&shown[..size]).is_err() {
        input.consume(1);
        return Err(InputFault::Memory);
    }
    input.consume(size);
    Ok(true)
}

/// Reads so many bytes. Whether they were all there.
fn next_part<R: BufRead>(
    length: u32,
    input: &mut R,
    message: &mut Vec<u8>,
) -> Result<bool, InputFault>
    ensures takes { IfOk result (λ whole. TakesPart length (R.remaining input.old) (R.remaining input.new) whole message.new.items) }
    ensures fault { IfErr result (λ fault. BreaksPart length (R.remaining input.old) (R.remaining input.new) message.new.items fault) }
{
    message.clear();
    for _turn in 0..u64::MAX {
        let left = length as usize - message.len();
        if left == 0 {
            return Ok(true);
        }
        if !take_shown(left, input, message)? {
            return Ok(false);
        }
    }
    if message.len() == length as usize {
        return Ok(true);
    }
    Err(InputFault::Read(None))
}

/// Reads the length of the block of this number, 32 bits with the lowest byte first; none at the end of the input.
fn next_length<R: BufRead>(number: u64, input: &mut R) -> Result<Option<u32>, InputFault>
    ensures gives { IfOk result (λ found. GivesLength (R.remaining input.old) (R.remaining input.new) found) }
    ensures fault { IfErr result (λ fault. (front : List ℕ) × BreaksLength number (R.remaining input.old) (R.remaining input.new) front fault) }
{
    let Some(first) = next_byte(input)? else {
        return Ok(None);
    };
    let second = byte_of_length(number, input)?;
    let third = byte_of_length(number, input)?;
    let fourth = byte_of_length(number, input)?;
    Ok(Some(u32::from_le_bytes([first, second, third, fourth])))
}

/// Reads one more byte of a length that was begun.
fn byte_of_length<R: BufRead>(number: u64, input: &mut R) -> Result<u8, InputFault>
    ensures gives { IfOk result (λ byte. Consumes (R.remaining input.old) (R.remaining input.new) (byte ∷ [])) }
    ensures fault { IfErr result (λ fault. EndsLength number (R.remaining input.old) (R.remaining input.new) fault) }
{
    match next_byte(input)? {
        Some(byte) => Ok(byte),
        None => Err(InputFault::Cut(number)),
    }
}

/// Reads the block of this number, of at most `greatest` bytes. Whether there was one.
pub fn next_block<R: BufRead>(
    number: u64,
    greatest: usize,
    input: &mut R,
    message: &mut Vec<u8>,
) -> Result<bool, InputFault>
    ensures gives { IfOk result (λ any. Gives Blocks greatest (R.remaining input.old) (R.remaining input.new) any message.new.items) }
    ensures fault { IfErr result (λ fault. Explains Blocks number greatest (R.remaining input.old) (R.remaining input.new) message.new.items fault) }
{
    let Some(length) = next_length(number, input)? else {
        return Ok(false);
    };
    if length as usize > greatest {
        return Err(InputFault::TooLong(number, greatest));
    }
    if next_part(length, input, message)? {
        return Ok(true);
    }
    Err(InputFault::Cut(number))
}
