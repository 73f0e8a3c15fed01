//! Frames of a stream: what is kept of one, and whether it lies in one term.
ghost use Rattle.std.specs.Prelude.{◌≡◌, ◌≤◌, ◌^◌, ◌&&◌, nat_eq};
ghost use Rattle.theory.specs.Insert.{same_kind};
ghost use Rattle.theory.specs.Placed.{frame_length, is_padding};
ghost use Rattle.theory.specs.Wire.{IsFrame};
ghost use Rattle.frames.specs.Frames.{wire};
ghost use Rattle.image.specs.Kinds.{is_pad};
ghost use Rattle.image.specs.Seen.{crosses};
ghost use Rattle.image.specs.Stored.{IsOfStream, stream_frame};

use frames::Frame;
use position::{FrameHead, FrameKind, Geometry, split_by};

/// The kind and the length of a frame of a stream.
pub(crate) fn measure(frame: &Frame<'_>) -> (FrameKind, u32)
    requires frame { IsFrame (wire frame.now) }
    requires stored { IsOfStream frame.now }
    ensures kind { is_pad result.0 ≡ is_padding (stream_frame frame.now) }
    ensures length { result.1 ≡ frame_length (stream_frame frame.now) }
    ensures least { 32 ≤ result.1 }
    ensures greatest { result.1 ≤ 2 ^ 24 }
{
    match *frame {
        Frame::Data { payload, .. } => (FrameKind::Data, payload.len() as u32 + 32),
        Frame::Pad { frame_length, .. } => (FrameKind::Pad, frame_length),
        _ => unreachable!(),
    }
}

/// Whether it is of this kind and length.
pub(crate) fn is_like(head: &FrameHead, kind: FrameKind, length: u32) -> bool
    ensures { result ≡ (same_kind (is_pad kind) (is_pad head.now.kind) && nat_eq length head.now.frame_length) }
{
    kind == head.kind && length == head.frame_length
}

/// Whether so many bytes from a position on would pass the end of their term, whose offsets are counted from 0 up.
pub(crate) fn crosses_term(geometry: &Geometry, position: i64, covered: u32) -> bool
    requires { covered ≤ 2 ^ 24 }
    ensures { result ≡ crosses geometry.now.term_length position covered }
{
    let length = geometry.term_length();
    if position < 0 {
        return position.rem_euclid(i64::from(length)) + i64::from(covered) > i64::from(length);
    }
    let (_, offset) = split_by(position as u64, length);
    offset + covered > length
}
