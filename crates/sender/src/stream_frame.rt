//! The frames of a stream as they go out.

ghost use Rattle.std.specs.Prelude.{◌≡◌, ℕ, List, ◌+◌, ◌^◌, ◌≤◌, ◌<◌, length, not, take};
ghost use Rattle.std.specs.List.{AllByRecursion};
ghost use Rattle.theory.specs.Position.{aligned};
ghost use Rattle.theory.specs.Datagrams.{sent_end};
ghost use Rattle.theory.specs.Placed.{Frame as Framed, is_padding};
ghost use Rattle.theory.specs.Wire.{IsFrame, spelling};
ghost use Rattle.theory.specs.Bytes.{wire_at};
ghost use Rattle.position.specs.Heads.{IsStreamFrame, head_of};
ghost use Rattle.frames.specs.Frames.{wire};
ghost use Rattle.sender.specs.Packed.{placed_in, size_in};

use crate::identity::header;
use block::Block;
use frames::Frame;
use position::{FrameHead, FrameKind, Identity, align32};

/// Where a frame ends.
pub fn frame_end(identity: &Identity, head: &FrameHead) -> u64
    requires { IsStreamFrame identity.now.geometry head.now }
    ensures { result ≡ head.now.start + aligned head.now.frame_length }
{
    // What always holds of it, for the proof.
    let _geometry = identity.geometry();
    head.start + u64::from(align32(head.frame_length))
}

/// Where what goes out of a frame ends.
pub fn sent_to(identity: &Identity, head: &FrameHead) -> u64
    requires { IsStreamFrame identity.now.geometry head.now }
    ensures { (at : ℕ) → (frame : Framed) → head.now ≡ head_of at frame → result ≡ sent_end (record { at = at; frame = frame }) frame }
{
    // What always holds of it, for the proof.
    let _geometry = identity.geometry();
    match head.kind {
        FrameKind::Pad => head.start + 32,
        FrameKind::Data => frame_end(identity, head),
    }
}

/// The bytes that a frame takes in a datagram: of a padding its header.
pub fn wire_size(head: &FrameHead) -> u32
    requires { head.now.frame_length ≤ 2 ^ 31 }
    ensures { result ≡ size_in head.now.kind head.now.frame_length }
{
    match head.kind {
        FrameKind::Pad => 32,
        FrameKind::Data => align32(head.frame_length),
    }
}

/// Whether it is a message's frame, and no padding.
pub fn is_data(head: &FrameHead) -> bool
    ensures { (block : List ℕ) → result ≡ not (is_padding (placed_in head.now block).frame) }
{
    match head.kind {
        FrameKind::Pad => false,
        FrameKind::Data => true,
    }
}

/// The frame that was read, a message's payload in the block's front.
pub fn frame_of<'a>(identity: &Identity, head: &FrameHead, block: &'a Block) -> Frame<'a>
    requires room { identity.now.geometry.mtu ≤ length block.now }
    requires head { IsStreamFrame identity.now.geometry head.now }
    ensures frame { wire result ≡ wire_at identity.now head.now.start (placed_in head.now block.now).frame }
    ensures legal { IsFrame (wire result) }
    ensures short { length (spelling (wire result)) ≤ identity.now.geometry.mtu }
{
    match head.kind {
        FrameKind::Pad => Frame::Pad {
            header: header(identity, head),
            frame_length: head.frame_length,
        },
        FrameKind::Data => Frame::Data {
            header: header(identity, head),
            flags: head.flags,
            payload: front_of(block.bytes(), head.frame_length as usize - 32),
        },
    }
}

/// The first of these bytes.
fn front_of(bytes: &[u8], size: usize) -> &[u8]
    requires { size ≤ length bytes.now }
    ensures front { result.now ≡ take size bytes.now }
    ensures size { length result.now ≡ size }
    ensures bytes { AllByRecursion (λ b. b < 256) result.now }
{
    &bytes[..size]
}
