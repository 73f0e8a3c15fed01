//! A frame straight into the bytes of whoever reads.

ghost use Rattle.std.specs.Prelude.{◌≡◌, ◌<◌, ◌↔◌, IfErr, IfOk, IsTrue, length};
ghost use Rattle.shared_log.specs.Readers.{IsAlone, IsReaderOf, ReadsFrame};
ghost use Rattle.shared_log.specs.Whole.{LeavesUnread};

use crate::reader::{LogReader, look};
use crate::steps::log::Log;
use position::{FrameHead, FrameKind};

/// Why no frame was read.
#[derive(Clone, Copy, Debug, Drop)]
pub enum Unread {
    /// Nothing is committed there yet.
    None,
    /// The payload is longer than the bytes. This is the frame's head.
    Longer(FrameHead),
}

impl LogReader {
    /// Whether it has read the frame where it stands.
    pub fn has_read(&self) -> bool
        ensures { IsTrue result ↔ self.now.position < self.now.read_to }
    {
        self.position < self.read_to
    }
}

/// Reads the frame that is committed where the reader stands: a message's part is copied to the
/// front of the bytes, and the reader stays. There is none where nothing is committed yet. A part
/// that is longer than the bytes stays unread: nothing is copied, and the reader has read what it
/// had read before.
#[inline(always)]
pub fn next_whole(log: &Log, reader: &mut LogReader, bytes: &mut [u8]) -> Result<FrameHead, Unread>
    requires fits { IsReaderOf log.now reader.old }
    ensures found { IfOk result (λ head. ReadsFrame log.now reader.old head bytes.old reader.new
        bytes.new) }
    ensures read { IfOk result (λ _. reader.new.position < reader.new.read_to) }
    ensures unread { IfErr result (λ why. LeavesUnread log.now reader.old why bytes.old reader.new
        bytes.new) }
    ensures fits { IsReaderOf log.now reader.new }
    ensures alone { IsAlone log.now reader.old → IsAlone log.now reader.new }
    ensures same_length { length bytes.new ≡ length bytes.old }
{
    let before = reader.read_to;
    let Some(head) = look(log, reader, bytes) else {
        return Err(Unread::None);
    };
    match head.kind {
        FrameKind::Data => {
            if head.frame_length as usize - 32 > bytes.len() {
                reader.read_to = before;
                return Err(Unread::Longer(head));
            }
        }
        FrameKind::Pad => {}
    }
    Ok(head)
}
