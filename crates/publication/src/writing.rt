//! Frames, stored into open claims.

ghost use Rattle.std.specs.Prelude.{◌≡◌, ◌+◌, ◌≤◌, ◌∷◌, [], length, true};
ghost use Rattle.theory.specs.Position.{aligned, cuts_of, framed_length, max_message, max_position};
ghost use Rattle.theory.specs.Wire.{IsDataFlags};
ghost use Rattle.publication.specs.Frames.{frame_flags};
ghost use Rattle.publication.specs.Claims.{PartOfCall, message_stores};
ghost use Rattle.publication.specs.Offers.{FillsAll, HasBlanks};

use crate::order::InOrder;
use crate::words::WordCalls;
use position::{BEGIN, END, UNFRAGMENTED};

/// The flags of a message's frame, by whether it is the first and the last.
fn flags_of(first: bool, last: bool) -> u8
    ensures value { result ≡ frame_flags first last }
    ensures legal { IsDataFlags result }
{
    match (first, last) {
        (true, true) => UNFRAGMENTED,
        (true, false) => BEGIN,
        (false, true) => END,
        (false, false) => 0,
    }
}

/// Writes and commits a message's frames, from the first to the last, into open frames of their lengths.
#[inline(always)]
pub(crate) fn write_message<W: WordCalls>(
    words: &mut W,
    pass: &mut W::Pass,
    start: u64,
    message: &[u8],
)
    requires fits { W.fits words.old pass.old }
    requires in_stream { start + framed_length (W.pass_of words.old pass.old).identity.geometry (length message.now) ≤ max_position (W.pass_of words.old pass.old).identity.geometry }
    requires short { length message.now ≤ max_message (W.pass_of words.old pass.old).identity.geometry }
    requires blanks { HasBlanks (W.pass_of words.old pass.old) start (cuts_of (W.pass_of words.old pass.old).identity.geometry (length message.now)) }
    ensures part { PartOfCall W.fits W.pass_of W.name W.id W.took words.old pass.old words.new pass.new (message_stores (length message.now)) }
    ensures fills { FillsAll (W.pass_of words.old pass.old) true start message.now (W.pass_of words.new pass.new) }
{
    let order = InOrder::new();
    let geometry = words.identity(pass).geometry();
    let most = geometry.max_payload() as usize;
    let mut first = true;
    let mut at = start;
    let mut rest = message;
    while rest.len() > most {
        let (part, behind) = rest.split_at(most);
        words.fill_data(&order, pass, at, flags_of(first, false), part);
        first = false;
        at += u64::from(geometry.mtu());
        rest = behind;
    }
    words.fill_data(&order, pass, at, flags_of(first, true), rest);
}
