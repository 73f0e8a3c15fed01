//! The codes that C sees, beside those of refusals and faults.

/// Done; of a read, that no frame is committed yet; of an advance, that none was read; of a poll or a next message, that none
/// is whole yet; of a datagram to send, that none is left.
pub(crate) const DONE: i32 = 0;

/// A frame was read, or passed; a message was polled, or is the next one; a datagram is to be sent.
pub(crate) const FRAME: i32 = 1;

/// The room is shorter than the frame's payload, or than the message.
pub(crate) const ROOM_TOO_SMALL: i32 = -7;

/// A claim is open.
pub(crate) const CLAIM_OPEN: i32 = -8;

/// No claim is open.
pub(crate) const NO_CLAIM: i32 = -9;

/// The handle holds nothing.
pub(crate) const EMPTY_HANDLE: i32 = -16;

/// The handle holds a pass of another kind.
pub(crate) const WRONG_HANDLE: i32 = -17;

/// Memory was refused.
pub(crate) const NO_MEMORY: i32 = -19;
