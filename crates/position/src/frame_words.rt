//! The words of a frame: eight bytes of its spelling each, little-endian, as they stand in a log or in an image.

ghost use Rattle.std.specs.Prelude.{◌≡◌, ◌^◌, ◌<◌, ◌≤◌, [], ◌∷◌, ◌++◌, if◌then◌else◌};
ghost use Rattle.std.specs.Int.{w32, w64, from_le_bytes, to_le_bytes};
ghost use Rattle.theory.specs.Position.{max_position};
ghost use Rattle.theory.specs.Wire.{front};
ghost use Rattle.position.specs.Contents.{head_by};
ghost use Rattle.position.specs.Words as said;

use crate::head::{FrameHead, FrameKind};
use crate::identity::Identity;

/// The first word of a DATA frame or a padding: its length, version 0, the flags and the type.
pub fn first_word(padding: bool, flags: u8, frame_length: u32) -> u64
    requires { 0 < frame_length }
    ensures value { result ≡ from_le_bytes w64 (front frame_length flags (if padding then 0 else 1)) }
    ensures nonzero { 0 < result }
{
    let kind = if padding { 0 } else { 1 };
    u64::from(frame_length) + u64::from(flags) * 0x100_0000_0000 + kind * 0x1_0000_0000_0000
}

/// The word of two fields of four bytes.
fn pair_word(low: u32, high: u32) -> u64
    ensures { result ≡ from_le_bytes w64 (to_le_bytes w32 low ++ to_le_bytes w32 high) }
{
    u64::from(low) + u64::from(high) * 0x1_0000_0000
}

/// The second and the third word of a header at a position; the fourth one is zero.
#[inline(always)]
pub fn header_words(identity: &Identity, start: u64) -> (u64, u64)
    requires { start ≤ max_position identity.now.geometry }
    ensures words { said.header_words identity.now start ≡ result.0 ∷ result.1 ∷ 0 ∷ [] }
    ensures below { start < 2 ^ 56 }
{
    let place = identity.geometry().term_of(start);
    let session = identity.session().cast_unsigned();
    let stream = identity.stream().cast_unsigned();
    let second = pair_word(place.offset, session);
    let third = pair_word(stream, place.term_id.cast_unsigned());
    (second, third)
}

/// The head of the frame that begins at a position with this word.
pub fn head_in(word: u64, start: u64) -> FrameHead
    ensures { result ≡ head_by start (to_le_bytes w64 word) }
{
    let [a, b, c, d, _, flags, kind, _] = word.to_le_bytes();
    FrameHead {
        start,
        kind: if kind == 0 {
            FrameKind::Pad
        } else {
            FrameKind::Data
        },
        flags,
        frame_length: u32::from_le_bytes([a, b, c, d]),
    }
}
