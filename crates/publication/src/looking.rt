//! What a pass sees before it adds.

ghost use Rattle.std.specs.Prelude.{◌≡◌, ◌+◌, ◌*◌, ◌<◌};
ghost use Rattle.publication.specs.Claims.{Called, exactly};
ghost use Rattle.publication.specs.Looks.{Looked};

use crate::refusal::Refusal;
use crate::tail::{is_of, position_at, term_offset};
use crate::words::WordCalls;

/// What the limit word, the active count and its raw tail say.
#[derive(Drop)]
pub enum Look {
    /// Nothing may be claimed.
    Refused(Refusal),
    /// The active term, which has this count, is used up.
    UsedUp(u32),
    /// The active term, which has this count, has room below the limit, and the pass may add to its tail.
    Open(u32),
}

/// Loads the limit, the active count and the count's raw tail: what a claim does before it adds.
#[inline(always)]
pub fn look_at<W: WordCalls>(words: &mut W, pass: &mut W::Pass) -> Look
    requires { W.fits words.old pass.old }
    ensures called { Called W.fits W.pass_of W.name W.id W.took words.old pass.old words.new pass.new (exactly 0) }
    ensures looked { Looked (W.pass_of words.old pass.old) result (W.pass_of words.new pass.new) }
{
    let geometry = words.identity(pass).geometry();
    let limit = words.load_limit(pass);
    if limit / 2 % 2 == 1 {
        return Look::Refused(Refusal::Closed);
    }
    let count = words.load_count(pass);
    let tail = words.load_tail(pass, count);
    if !is_of(&geometry, tail, count) {
        return Look::Refused(Refusal::AdminAction);
    }
    let offset = term_offset(tail);
    if offset >= geometry.term_length() {
        return Look::UsedUp(count);
    }
    if position_at(&geometry, count, offset) < limit / 4 * 4 {
        return Look::Open(count);
    }
    if limit % 2 == 1 {
        return Look::Refused(Refusal::BackPressured);
    }
    Look::Refused(Refusal::NotConnected)
}
