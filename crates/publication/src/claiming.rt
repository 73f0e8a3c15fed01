//! Claims by one addition.

ghost use Rattle.std.specs.Prelude.{◌≡◌, ◌+◌, ◌<◌, ◌≤◌, IfOk, IfErr, length};
ghost use Rattle.theory.specs.Position.{cuts_of, max_message, max_payload};
ghost use Rattle.publication.specs.Claims.{Called, Claimed, Justified, PartOfCall, padding_stores};
ghost use Rattle.publication.specs.Looks.{Granted, Pads, ToPad, Tripping};

use crate::looking::{Look, look_at};
use crate::order::InOrder;
use crate::refusal::Refusal;
use crate::tail::{position_at, term_count, term_offset};
use crate::turn::turn_from;
use crate::words::WordCalls;

/// Claims a range for a message of `size` bytes at the tail, or says why there is none. The range's frames are open then,
/// and nothing of them is stored. Where the message didn't fit the rest of its term, and the addition began in it, a
/// committed padding up to the term's end is left.
#[inline(always)]
pub(crate) fn claim<W: WordCalls>(
    words: &mut W,
    pass: &mut W::Pass,
    size: u32,
) -> Result<u64, Refusal>
    requires fits { W.fits words.old pass.old }
    requires short { size ≤ max_message (W.pass_of words.old pass.old).identity.geometry }
    ensures called { Called W.fits W.pass_of W.name W.id W.took words.old pass.old words.new pass.new padding_stores }
    ensures accepted { IfOk result (λ start. Claimed (W.pass_of words.old pass.old) size start (W.pass_of words.new pass.new)) }
    ensures refused { IfErr result (λ why. Justified (W.pass_of words.old pass.old) size why (W.pass_of words.new pass.new)) }
{
    match look_at(words, pass) {
        Look::Refused(refusal) => Err(refusal),
        Look::UsedUp(count) => Err(turn_from(words, pass, count)),
        Look::Open(count) => add_frames(words, pass, count, size),
    }
}

/// Adds a message's range to the tail for which the pass is armed.
#[inline(always)]
fn add_frames<W: WordCalls>(
    words: &mut W,
    pass: &mut W::Pass,
    count: u32,
    size: u32,
) -> Result<u64, Refusal>
    requires fits { W.fits words.old pass.old }
    requires armed { (W.pass_of words.old pass.old).right.armed ≡ 1 }
    requires count { (W.pass_of words.old pass.old).seen.term ≡ count }
    requires short { size ≤ max_message (W.pass_of words.old pass.old).identity.geometry }
    ensures part { PartOfCall W.fits W.pass_of W.name W.id W.took words.old pass.old words.new pass.new padding_stores }
    ensures accepted { IfOk result (λ start. Granted (W.pass_of words.old pass.old) count size start (W.pass_of words.new pass.new)) }
    ensures refused { IfErr result (λ why. Tripping (W.pass_of words.old pass.old) count size why (W.pass_of words.new pass.new)) }
{
    let geometry = words.identity(pass).geometry();
    let covered = geometry.framed_length(size);
    let word = words.add(&InOrder::new(), pass, count, size);
    let found = term_count(&geometry, word);
    let offset = term_offset(word);
    if offset + covered <= geometry.term_length() {
        return Ok(position_at(&geometry, found, offset));
    }
    pad(words, pass, word);
    Err(turn_from(words, pass, found))
}

/// Adds the range of a message of one frame to the tail for which the pass is armed: what `try_claim` does once it has
/// looked. The claim has to be ended by `commit` or `abort`.
pub fn add_range<W: WordCalls>(
    words: &mut W,
    pass: &mut W::Pass,
    count: u32,
    size: u32,
) -> Result<u64, Refusal>
    requires fits { W.fits words.old pass.old }
    requires armed { (W.pass_of words.old pass.old).right.armed ≡ 1 }
    requires count { (W.pass_of words.old pass.old).seen.term ≡ count }
    requires short { size ≤ max_payload (W.pass_of words.old pass.old).identity.geometry }
    ensures part { PartOfCall W.fits W.pass_of W.name W.id W.took words.old pass.old words.new pass.new padding_stores }
    ensures accepted { IfOk result (λ start. Granted (W.pass_of words.old pass.old) count size start (W.pass_of words.new pass.new)) }
    ensures refused { IfErr result (λ why. Tripping (W.pass_of words.old pass.old) count size why (W.pass_of words.new pass.new)) }
{
    let _ = words.identity(pass).geometry();
    add_frames(words, pass, count, size)
}

/// Commits the padding that an addition left open, if there is one; its answer was this word.
#[inline(always)]
fn pad<W: WordCalls>(words: &mut W, pass: &mut W::Pass, word: u64)
    requires fits { W.fits words.old pass.old }
    requires draft { ToPad (W.pass_of words.old pass.old) word }
    ensures part { PartOfCall W.fits W.pass_of W.name W.id W.took words.old pass.old words.new pass.new padding_stores }
    ensures pads { Pads (W.pass_of words.old pass.old) word (W.pass_of words.new pass.new) }
{
    let geometry = words.identity(pass).geometry();
    let offset = term_offset(word);
    if offset < geometry.term_length() {
        let start = position_at(&geometry, term_count(&geometry, word), offset);
        words.fill_padding(
            &InOrder::new(),
            pass,
            start,
            geometry.term_length() - offset,
        );
    }
}
