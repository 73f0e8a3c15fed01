//! The lines that a script prints.

ghost use Rattle.std.specs.Prelude.{◌≡◌, ◌++◌, ◌∷◌, [], OnOk};

use assembler::{AssemblyError, Message};
use position::GeometryError;
use publication::Refusal;
use receiver::Outcome;
use sender::SenderAnswer;
use shared_log::{Book, LogError};
use std::alloc::{AllocError, Global};

/// One line of output.
#[derive(Drop)]
pub enum Line {
    Open,
    /// The log can't be opened with this geometry; the script ends.
    BadGeometry(GeometryError),
    /// The log can't be opened at this start; the script ends.
    BadLog(LogError),
    Done,
    Limit(u64),
    /// An offer was accepted, or a claim ended: the position behind it.
    Position(u64),
    /// A range was claimed.
    Claimed {
        start: u64,
        end: u64,
    },
    /// A reader passed a message's frame.
    FrameData {
        start: u64,
        flags: u8,
        bytes: Vec<u8>,
    },
    /// A reader passed a padding.
    FramePad {
        start: u64,
        frame_length: u32,
    },
    /// A reader joined at this position.
    Joined(u64),
    /// A reader left.
    Left,
    Refused(Refusal),
    Packet {
        number: u64,
        bytes: Vec<u8>,
    },
    /// No packet went out.
    Nothing,
    Receiver(Outcome),
    Sender(SenderAnswer),
    Message(Message<Global>),
    /// There was no frame left to read.
    NoMessage,
    Assembly(AssemblyError),
    Image {
        least: u64,
        rebuilt: u64,
        high: u64,
    },
    /// The line names what isn't there.
    Bad,
    Book(Book),
}

/// Adds a line. The error is that memory was refused.
pub fn add_line(lines: &mut Vec<Line>, line: Line) -> Result<(), AllocError>
    ensures { OnOk result (lines.new.items ≡ lines.old.items ++ line ∷ []) }
{
    lines.push(line)?;
    Ok(())
}
