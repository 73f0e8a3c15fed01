//! Why a poll gives no message.

use assembler::AssemblyError;

/// Why a poll gives no message.
#[derive(Clone, Copy, Debug, PartialEq, Eq)]
pub enum PollError {
    /// No SETUP has opened an image yet. Nothing has changed.
    NoImage,
    /// The assembler refused a frame, which the subscriber has passed. Nothing is begun then.
    Unassembled(AssemblyError),
}
