ghost use Rattle.std.specs.Prelude.{◌≡◌, Some};
ghost use Rattle.frames.specs.Fault.{code_of, text_of};

use std::fmt;
use thiserror::Error;

/// Why bytes are no frame, or no datagram.
#[derive(Clone, Copy, Debug, PartialEq, Eq, Error)]
pub enum FrameError {
    /// There are fewer bytes than the frame has.
    Short,
    /// The version isn't 0.
    Version,
    /// The type isn't one of the table.
    Kind,
    /// The frame length isn't one that the type may have.
    Length,
    /// The flags aren't some that the type may have.
    Flags,
    /// The term offset isn't a multiple of 32, or a byte between a payload and the next multiple of 32 isn't 0.
    Alignment,
    /// The term offset is negative, or the frame ends above 16,777,216.
    Range,
    /// The frame can't stand at its place in a datagram, or bytes stand after a frame that must be the last.
    Datagram,
}

impl fmt::Display for FrameError {
    ghost output = { λ fault. Some (text_of fault) };

    fn fmt<W: fmt::Write>(&self, f: &mut fmt::Formatter<W>) -> fmt::Result {
        f.write_str(self.text())
    }
}

impl FrameError {
    /// The code alone.
    pub fn code(self) -> &'static str
        ensures { result.now ≡ code_of self }
    {
        match self {
            FrameError::Short => "F1",
            FrameError::Version => "F2",
            FrameError::Kind => "F3",
            FrameError::Length => "F4",
            FrameError::Flags => "F5",
            FrameError::Alignment => "F6",
            FrameError::Range => "F7",
            FrameError::Datagram => "F8",
        }
    }

    /// The code and the name that a user sees.
    pub fn text(self) -> &'static str
        ensures { result.now ≡ text_of self }
    {
        match self {
            FrameError::Short => "F1 short",
            FrameError::Version => "F2 version",
            FrameError::Kind => "F3 type",
            FrameError::Length => "F4 length",
            FrameError::Flags => "F5 flags",
            FrameError::Alignment => "F6 alignment",
            FrameError::Range => "F7 range",
            FrameError::Datagram => "F8 datagram",
        }
    }
}
