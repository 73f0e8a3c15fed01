//! The frames of a made-up stream.

ghost use Rattle.std.specs.Prelude.{◌≡◌, ◌+◌, ◌*◌, ◌%◌, ◌^◌, ◌≤◌, length};
ghost use Rattle.position.specs.declared.head.FrameKind.TheVariants.{Data};
ghost use Rattle.theory.specs.Wire.{IsFrame};
ghost use Rattle.frames.specs.Frames.{wire};
ghost use Rattle.image.specs.Stored.{IsOfStream};

use frames::{Frame, Header};
use position::{FrameHead, FrameKind, UNFRAGMENTED, align32};

/// The bytes of a term.
const TERM: u64 = 65_536;

/// The most bytes of a frame's payload.
pub const LONGEST: usize = 1_376;

/// The frame that begins at a position, and how many bytes of payload it has: these are written then. Each thirteenth or so
/// is a padding, and so is one that goes to the end of its term.
pub fn frame_at(start: u64, payload: &mut [u8; LONGEST]) -> (FrameHead, usize)
    requires unit { start % 32 ≡ 0 }
    ensures here { result.0.start ≡ start }
    ensures short { (32 ≤ result.0.frame_length) × (result.0.frame_length ≤ 1408) }
    ensures whole { result.0.kind ≡ Data → result.0.frame_length ≡ 32 + result.1 }
    ensures flags { result.0.flags ≡ 192 }
    ensures few { result.1 ≤ 1376 }
{
    let number = start / 32;
    for index in 0..LONGEST {
        payload[index] = (number.wrapping_add(7 * index as u64) % 251) as u8;
    }
    let size = (number % 1_377 * 37 % 1_377) as u32;
    let rest = TERM - start % TERM;
    let crosses = u64::from(align32(32 + size)) > rest;
    let kind = if crosses || number % 13 == 5 {
        FrameKind::Pad
    } else {
        FrameKind::Data
    };
    let length = if crosses { rest as u32 } else { 32 + size };
    let head = FrameHead {
        start,
        kind,
        flags: UNFRAGMENTED,
        frame_length: length,
    };
    match kind {
        FrameKind::Pad => (head, 0),
        FrameKind::Data => (head, size as usize),
    }
}

/// The same, as it comes in a datagram.
pub fn frame_of<'a>(head: &FrameHead, payload: &'a [u8]) -> Frame<'a>
    requires short { (32 ≤ head.now.frame_length) × (head.now.frame_length ≤ 1408) }
    requires flags { head.now.flags ≡ 192 }
    requires few { length payload.now ≤ 1376 }
    ensures frame { IsFrame (wire result) }
    ensures of_stream { IsOfStream result }
{
    let header = Header {
        term_offset: 0,
        session: 1,
        stream: 1001,
        term_id: 7,
        reserved: 0,
    };
    match head.kind {
        FrameKind::Data => Frame::Data {
            header,
            flags: head.flags,
            payload,
        },
        FrameKind::Pad => Frame::Pad {
            header,
            frame_length: head.frame_length,
        },
    }
}
