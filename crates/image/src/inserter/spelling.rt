//! A frame of a stream as it is on the wire, with the header that its place says.

ghost use Rattle.std.specs.Prelude.{◌≡◌, ◌+◌, ◌≤◌, take};
ghost use Rattle.std.specs.Int.{w64, to_le_bytes};
ghost use Rattle.theory.specs.Bytes.{header_at, wire_at};
ghost use Rattle.theory.specs.Placed as placed;
ghost use Rattle.theory.specs.Position.{aligned};
ghost use Rattle.theory.specs.Wire.{IsFrame, IsHeader, spelling};
ghost use Rattle.frames.specs.Frames.{header_of, wire};
ghost use Rattle.image.specs.Inserting.{IsComing};
ghost use Rattle.image.specs.Stored.{IsOfStream, stream_frame};

use crate::held::measure;
use frames::{Frame, Header};
use position::{Identity, UNFRAGMENTED, first_word};

/// The header of a frame of this length at a position, but for its kind, flags and length.
fn header(identity: &Identity, start: u64, frame_length: u32) -> Header
    requires { IsComing identity.now.geometry start frame_length }
    ensures header { header_of result ≡ header_at identity.now start }
    ensures legal { IsHeader (header_of result) }
    ensures offset { result.term_offset + aligned frame_length ≤ 16777216 }
{
    let _ = frame_length;
    let place = identity.geometry().term_of(start);
    Header {
        term_offset: place.offset,
        session: identity.session(),
        stream: identity.stream(),
        term_id: place.term_id,
        reserved: 0,
    }
}

/// A frame of a stream, with the header that it has at a position.
pub(crate) fn spell<'a>(identity: &Identity, start: u64, frame: &Frame<'a>) -> Frame<'a>
    requires frame { IsFrame (wire frame.now) }
    requires of_stream { IsOfStream frame.now }
    requires come { IsComing identity.now.geometry start (placed.frame_length (stream_frame
        frame.now)) }
    ensures wire { wire result ≡ wire_at identity.now start (stream_frame frame.now) }
    ensures legal { IsFrame (wire result) × IsOfStream result }
{
    let (_, frame_length) = measure(frame);
    let header = header(identity, start, frame_length);
    match *frame {
        Frame::Data { flags, payload, .. } => Frame::Data {
            header,
            flags,
            payload,
        },
        Frame::Pad { frame_length, .. } => Frame::Pad {
            header,
            frame_length,
        },
        _ => unreachable!(),
    }
}

/// The first eight bytes of a frame of a stream, as a word.
pub(crate) fn first_of(frame: &Frame<'_>) -> u64
    requires frame { IsFrame (wire frame.now) }
    requires of_stream { IsOfStream frame.now }
    ensures { to_le_bytes w64 result ≡ take 8 (spelling (wire frame.now)) }
{
    match *frame {
        Frame::Data { flags, payload, .. } => first_word(false, flags, payload.len() as u32 + 32),
        Frame::Pad { frame_length, .. } => first_word(true, UNFRAGMENTED, frame_length),
        _ => unreachable!(),
    }
}
