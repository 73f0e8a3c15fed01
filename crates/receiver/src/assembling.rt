//! The frames that a consumer reads are joined to messages, each from where it lies in the image.

ghost use Rattle.std.specs.Prelude.{◌≡◌};

use assembler::{Assembler, AssemblyError, Message};
use image::FrameHandler;
use position::{FrameHead, FrameKind};
use std::alloc::Global;
use std::mem::replace;

/// What becomes of a frame: the message that it completes, or the fault of who joins it.
pub(crate) type Step = Result<Option<Message<Global>>, AssemblyError>;

/// Joins the frames that a consumer reads, and keeps what became of the last one.
#[derive(Drop)]
pub(crate) struct Joiner {
    pub(crate) assembler: Assembler<Global>,
    pub(crate) step: Step,
}

impl Joiner {
    /// Joins frames by this assembler.
    pub(crate) fn new(assembler: Assembler<Global>) -> Joiner
        ensures { result.assembler ≡ assembler }
    {
        Joiner {
            assembler,
            step: Ok(None),
        }
    }

    /// What became of the last frame.
    pub(crate) fn take_step(&mut self) -> Step
        ensures step { result ≡ self.old.step }
        ensures assembler { self.new.assembler ≡ self.old.assembler }
    {
        replace(&mut self.step, Ok(None))
    }
}

/// Each frame is joined from where it lies: the bytes are copied once, into the message. A padding is passed over. A frame is too
/// long exactly where the message would be longer than the greatest; any other error is that memory was refused. After an error
/// nothing is begun.
impl FrameHandler for Joiner {
    ghost use Rattle.receiver.specs.Joining.{Joins};

    ghost takes = { λ before head payload after. Joins before.assembler head payload after.step after.assembler };

    fn on_frame(&mut self, head: &FrameHead, payload: &[u8]) {
        self.step = match head.kind {
            FrameKind::Pad => Ok(None),
            FrameKind::Data => self.assembler.on_frame(head.flags, payload),
        };
    }
}
