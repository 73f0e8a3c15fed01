//! One byte of an input.

ghost use Rattle.std.specs.Prelude.{◌≡◌, ℤ, Option, [], IfErr, IfOk, OnErr};
ghost use Rattle.std.specs.Io.KnownBytes.{Consumes};
ghost use Rattle.messages.specs.Inputs.{GivesByte};

use crate::fault::InputFault;
use std::io::{ErrorKind, Read};

/// The next byte; none at the end. A read that was interrupted is made again. The fault is `Read`, and then nothing was taken.
pub fn next_byte<R: Read>(input: &mut R) -> Result<Option<u8>, InputFault>
    ensures gives { IfOk result (λ byte. GivesByte (R.remaining input.old) (R.remaining input.new) byte) }
    ensures fault { IfErr result (λ fault. (number : Option ℤ) × (fault ≡ InputFault.Read number)) }
    ensures kept { OnErr result (Consumes (R.remaining input.old) (R.remaining input.new) []) }
{
    let mut byte = [0];
    for _turn in 0..u64::MAX {
        match input.read(&mut byte) {
            Ok(0) => return Ok(None),
            Ok(_) => return Ok(Some(byte[0])),
            Err(error) if error.kind() == ErrorKind::Interrupted => {}
            Err(error) => return Err(InputFault::Read(error.raw_os_error())),
        }
    }
    Err(InputFault::Read(None))
}
