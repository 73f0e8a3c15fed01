//! Who takes the frames that a reader reads.

ghost use Rattle.std.specs.Prelude.{◌≡◌, ℕ, List, length};
ghost use Rattle.position.specs.declared.head.FrameHead.{FrameHead};
ghost use Rattle.image.specs.Reading.{LiesInFront};

use block::Block;
use position::FrameHead;

/// Who takes the frames that a reader reads, each where it lies in the image.
pub trait FrameHandler {
    /// What it is behind a frame: before, the frame's head, its payload, and behind it.
    ghost takes: { Self → FrameHead → List ℕ → Self → Type 0 };

    /// Takes a frame: its head, and its payload, which is empty for a padding.
    fn on_frame(&mut self, head: &FrameHead, payload: &[u8])
        ensures { takes self.old head.now payload.now self.new };
}

/// Copies a payload to the front of some bytes, where it fits.
fn copy_to_front(bytes: &mut [u8], payload: &[u8])
    ensures lies { LiesInFront bytes.old payload.now bytes.new }
    ensures same_length { length bytes.new ≡ length bytes.old }
{
    let count = payload.len();
    if count <= bytes.len() {
        bytes[..count].copy_from_slice(payload);
    }
}

/// The payload is copied to the block's front, where it fits.
impl FrameHandler for Block {
    ghost takes = { λ before _ payload after. LiesInFront before payload after };

    fn on_frame(&mut self, _head: &FrameHead, payload: &[u8]) {
        copy_to_front(self.bytes_mut(), payload);
    }
}
