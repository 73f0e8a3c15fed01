//! A message of an input.

ghost use Rattle.std.specs.Prelude.{IfErr, IfOk};
ghost use Rattle.messages.specs.Inputs.{Explains, Gives};

use crate::blocks::next_block;
use crate::fault::InputFault;
use crate::form::Form;
use crate::lines::next_line;
use std::io::BufRead;

/// Reads the next message, of at most `greatest` bytes, and says whether there was one; none is there only at the end of
/// the input. `number` is the message's, counted from 1, for the faults. A carriage return is kept, and an empty line is an
/// empty message. The last line may lack its line feed.
///
/// At a fault the input has lost what was taken of the message, so nothing sensible can be read behind it. `Read` and
/// `Memory` come only where what was taken isn't longer than a message may be; at `Memory` the message holds all of its bytes
/// that were taken but the last.
pub fn read_message<R: BufRead>(
    form: Form,
    number: u64,
    greatest: usize,
    input: &mut R,
    message: &mut Vec<u8>,
) -> Result<bool, InputFault>
    ensures gives { IfOk result (λ any. Gives form greatest (R.remaining input.old) (R.remaining input.new) any message.new.items) }
    ensures fault { IfErr result (λ fault. Explains form number greatest (R.remaining input.old) (R.remaining input.new) message.new.items fault) }
{
    match form {
        Form::Lines => next_line(number, greatest, input, message),
        Form::Blocks => next_block(number, greatest, input, message),
    }
}
