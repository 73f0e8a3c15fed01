//! Offers, and claims that their publisher fills.

ghost use Rattle.std.specs.Prelude.{◌≡◌, ◌+◌, ◌≤◌, ◌∷◌, [], IfOk, IfErr, length, if◌then◌else◌};
ghost use Rattle.theory.specs.Position.{aligned, cuts_of, framed_length, max_message, max_payload, max_position};
ghost use Rattle.theory.specs.Placed.{Data, Pad};
ghost use Rattle.publication.specs.Refusals.{SightsJustify};
ghost use Rattle.publication.specs.Claims.{Called, Fills, HasBlank, Justified, PartOfCall, exactly, offer_stores, padding_stores};
ghost use Rattle.publication.specs.Offers.{Offered, Opened};

use crate::claiming::claim;
use crate::order::InOrder;
use crate::refusal::Refusal;
use crate::words::WordCalls;
use crate::writing::write_message;
use position::{UNFRAGMENTED, align32};

/// Publishes a message of up to the greatest length, as one frame or as several. It is accepted if the log isn't closed,
/// the active term isn't used up, the tail is below the limit and the frames fit the rest of the term; the answer is then
/// the position behind them. A message that doesn't fit leaves a padding up to the term's end, unless another publisher's
/// addition had passed it before, and the log turns to the next term.
#[inline(always)]
pub fn offer<W: WordCalls>(
    words: &mut W,
    pass: &mut W::Pass,
    message: &[u8],
) -> Result<u64, Refusal>
    requires fits { W.fits words.old pass.old }
    requires short { length message.now ≤ max_message (W.pass_of words.old pass.old).identity.geometry }
    ensures called { Called W.fits W.pass_of W.name W.id W.took words.old pass.old words.new pass.new (offer_stores (length message.now) result) }
    ensures accepted { IfOk result (λ end. Offered (W.pass_of words.old pass.old) message.now end (W.pass_of words.new pass.new)) }
    ensures refused { IfErr result (λ why. Justified (W.pass_of words.old pass.old) (length message.now) why (W.pass_of words.new pass.new)) }
    ensures justified { IfErr result (λ why. SightsJustify (W.pass_of words.old pass.old) (length message.now) why (W.pass_of words.new pass.new)) }
{
    let geometry = words.identity(pass).geometry();
    let size = message.len() as u32;
    let start = claim(words, pass, size)?;
    write_message(words, pass, start, message);
    Ok(start + u64::from(geometry.framed_length(size)))
}

/// Claims a range for a message of `size` bytes, up to the greatest payload of a frame; the answer is its start. It is
/// accepted where an offer of such a message would be, and refused as that is. The claim has to be ended by `commit` or
/// `abort`.
pub fn try_claim<W: WordCalls>(words: &mut W, pass: &mut W::Pass, size: u32) -> Result<u64, Refusal>
    requires fits { W.fits words.old pass.old }
    requires short { size ≤ max_payload (W.pass_of words.old pass.old).identity.geometry }
    ensures called { Called W.fits W.pass_of W.name W.id W.took words.old pass.old words.new pass.new padding_stores }
    ensures accepted { IfOk result (λ start. Opened (W.pass_of words.old pass.old) size start (W.pass_of words.new pass.new)) }
    ensures refused { IfErr result (λ why. Justified (W.pass_of words.old pass.old) size why (W.pass_of words.new pass.new)) }
    ensures justified { IfErr result (λ why. SightsJustify (W.pass_of words.old pass.old) size why (W.pass_of words.new pass.new)) }
{
    let _ = words.identity(pass).geometry();
    claim(words, pass, size)
}

/// Commits an open claim of one frame with its message. The answer is the position behind it.
pub fn commit<W: WordCalls>(words: &mut W, pass: &mut W::Pass, start: u64, message: &[u8]) -> u64
    requires fits { W.fits words.old pass.old }
    requires short { length message.now ≤ max_payload (W.pass_of words.old pass.old).identity.geometry }
    requires in_stream { start + aligned (32 + length message.now) ≤ max_position (W.pass_of words.old pass.old).identity.geometry }
    requires blank { HasBlank (W.pass_of words.old pass.old) start (32 + length message.now) }
    ensures part { PartOfCall W.fits W.pass_of W.name W.id W.took words.old pass.old words.new pass.new (exactly 1) }
    ensures committed { Fills (W.pass_of words.old pass.old) start (Data 192 message.now) (W.pass_of words.new pass.new) }
    ensures end { result ≡ start + aligned (32 + length message.now) }
{
    let _ = words.identity(pass).geometry();
    words.fill_data(&InOrder::new(), pass, start, UNFRAGMENTED, message);
    start + u64::from(align32(message.len() as u32 + 32))
}

/// Makes an open claim of one frame, for a message of `size` bytes, a padding of the same range. The answer is the
/// position behind it.
pub fn abort<W: WordCalls>(words: &mut W, pass: &mut W::Pass, start: u64, size: u32) -> u64
    requires fits { W.fits words.old pass.old }
    requires short { size ≤ max_payload (W.pass_of words.old pass.old).identity.geometry }
    requires in_stream { start + aligned (32 + size) ≤ max_position (W.pass_of words.old pass.old).identity.geometry }
    requires blank { HasBlank (W.pass_of words.old pass.old) start (32 + size) }
    ensures part { PartOfCall W.fits W.pass_of W.name W.id W.took words.old pass.old words.new pass.new (exactly 1) }
    ensures aborted { Fills (W.pass_of words.old pass.old) start (Pad (32 + size)) (W.pass_of words.new pass.new) }
    ensures end { result ≡ start + aligned (32 + size) }
{
    let _ = words.identity(pass).geometry();
    words.fill_padding(&InOrder::new(), pass, start, size + 32);
    start + u64::from(align32(size + 32))
}
