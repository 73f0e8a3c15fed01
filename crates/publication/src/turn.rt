//! The turn from a used up term to the next.

ghost use Rattle.std.specs.Prelude.{◌≡◌, suc, ◌+◌, ◌-◌, ◌^◌, ◌<◌, ◌≤◌, IsTrue, length};
ghost use Rattle.publication.specs.Claims.{IsTurn, PartOfCall, Takes, TurnsFrom, exactly};
ghost use Rattle.publication.specs.Looks.{BeginsNext, EndsTerm};

use crate::refusal::Refusal;
use crate::tail::{is_of, is_two_before};
use crate::words::WordCalls;

/// Turns from the term with this count, which the pass has seen used up and which isn't the last one, to the next:
/// exchanges the raw tail of the next partition and then the active count, each once at the most. Another pass's turn is
/// helped on.
#[inline(always)]
pub fn rotate<W: WordCalls>(words: &mut W, pass: &mut W::Pass, count: u32)
    requires fits { W.fits words.old pass.old }
    requires full { (W.pass_of words.old pass.old).seen.full ≡ suc count }
    requires last { count < 2 ^ 31 - 1 }
    ensures part { PartOfCall W.fits W.pass_of W.name W.id W.took words.old pass.old words.new pass.new (exactly 0) }
    ensures turns { Takes (IsTurn (W.pass_of words.old pass.old).identity.geometry count) (W.pass_of words.old pass.old) (W.pass_of words.new pass.new) }
{
    if begin_next(words, pass, count) {
        words.exchange_count(pass, count);
    }
}

/// Begins the next term, if nobody has. Whether it has begun.
#[inline(always)]
fn begin_next<W: WordCalls>(words: &mut W, pass: &mut W::Pass, count: u32) -> bool
    requires fits { W.fits words.old pass.old }
    requires full { (W.pass_of words.old pass.old).seen.full ≡ suc count }
    requires last { count < 2 ^ 31 - 1 }
    ensures part { PartOfCall W.fits W.pass_of W.name W.id W.took words.old pass.old words.new pass.new (exactly 0) }
    ensures begins { BeginsNext (W.pass_of words.old pass.old) count result (W.pass_of words.new pass.new) }
    ensures begun { IsTrue result → (W.pass_of words.new pass.new).seen.begun ≡ count + 1 }
{
    let geometry = words.identity(pass).geometry();
    let found = words.load_next(pass, count);
    if !is_two_before(&geometry, found, count) {
        return is_of(&geometry, found, count + 1);
    }
    let was = words.exchange_next(pass, count, found);
    was == found || is_of(&geometry, was, count + 1)
}

/// The refusal at the end of the term with this count; the log turns to the next one, if this isn't the last.
#[inline(always)]
pub fn turn_from<W: WordCalls>(words: &mut W, pass: &mut W::Pass, count: u32) -> Refusal
    requires fits { W.fits words.old pass.old }
    requires full { (W.pass_of words.old pass.old).seen.full ≡ suc count }
    requires last { count < 2 ^ 31 }
    ensures part { PartOfCall W.fits W.pass_of W.name W.id W.took words.old pass.old words.new pass.new (exactly 0) }
    ensures turns { Takes (TurnsFrom (W.pass_of words.old pass.old).identity.geometry count) (W.pass_of words.old pass.old) (W.pass_of words.new pass.new) }
    ensures why { EndsTerm count result }
{
    if count == i32::MAX as u32 {
        return Refusal::MaxPositionExceeded;
    }
    rotate(words, pass, count);
    Refusal::AdminAction
}
