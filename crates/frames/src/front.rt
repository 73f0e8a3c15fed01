ghost use Rattle.std.specs.Prelude.{◌≡◌, ◌≤◌, ℕ, length, slice_index, slice_range};
ghost use Rattle.theory.specs.Position.{aligned};
ghost use Rattle.theory.specs.Wire.{DATA, Wire};
ghost use Rattle.frames.specs.Fields as field;
ghost use Rattle.frames.specs.Frames.{wire};
ghost use Rattle.frames.specs.Fronts.{FrontSpells};
ghost use Rattle.frames.specs.Reading as list;

use crate::fields::{u16_at, u32_at};
use crate::frame::Frame;
use crate::reading::{HEADER, align32, header_at, read_frame};

/// The frame that the bytes begin with, and how many of them it takes. They are known to begin with one, so nothing is
/// checked of a DATA frame.
pub fn known_frame(bytes: &[u8]) -> (Frame<'_>, usize)
    requires { (w : Wire) × (n : ℕ) × FrontSpells bytes.now w n }
    ensures found { FrontSpells bytes.now (wire result.0) result.1 }
    ensures only { (w : Wire) (n : ℕ) → FrontSpells bytes.now w n → (wire result.0 ≡ w) × (result.1 ≡ n) }
{
    if u16_at(bytes, 6) == 1 && u32_at(bytes, 0) > 0 {
        return data_at(bytes);
    }
    match read_frame(bytes) {
        Ok(found) => found,
        Err(_) => unreachable!(),
    }
}

/// The DATA frame that the bytes begin with.
fn data_at(bytes: &[u8]) -> (Frame<'_>, usize)
    requires least { 32 ≤ field.u32_at bytes.now 0 }
    requires greatest { field.u32_at bytes.now 0 ≤ 65504 }
    requires room { field.u32_at bytes.now 0 ≤ length bytes.now }
    ensures frame { wire result.0 ≡ DATA (list.header_at bytes.now) (slice_index bytes.now 5) (slice_range bytes.now 32 (field.u32_at bytes.now 0)) }
    ensures size { result.1 ≡ aligned (field.u32_at bytes.now 0) }
{
    let frame_length = u32_at(bytes, 0);
    let frame = Frame::Data {
        header: header_at(bytes),
        flags: bytes[5],
        payload: &bytes[HEADER..frame_length as usize],
    };
    (frame, align32(frame_length) as usize)
}
