//! What C is told of a write to a room's front.

ghost use Rattle.pechvang.specs.Answers.{Tells};

use crate::codes::{DONE, FRAME};
use cores::Fault;

/// The code of what was written; and its length, where something was.
pub(crate) fn told(written: Result<Option<usize>, Fault>, length: &mut usize) -> i32
    ensures { Tells written length.old result length.new }
{
    match written {
        Ok(Some(size)) => {
            *length = size;
            FRAME
        }
        Ok(None) => DONE,
        Err(fault) => fault.code(),
    }
}
