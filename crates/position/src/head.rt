/// The flag of a frame that begins a message.
pub const BEGIN: u8 = 0x80;

/// The flag of a frame that ends a message.
pub const END: u8 = 0x40;

/// The flags of a frame that is a whole message, begin and end, and of a padding.
pub const UNFRAGMENTED: u8 = 0xc0;

/// What kind of frame stands in a stream.
#[derive(Clone, Copy, Debug, PartialEq, Eq)]
pub enum FrameKind {
    /// A frame with a payload.
    Data,
    /// A padding: it covers bytes that no message uses.
    Pad,
}

/// A frame of a stream, without its payload.
#[derive(Clone, Copy, Debug, PartialEq, Eq)]
pub struct FrameHead {
    /// The position at which it starts, a multiple of 32.
    pub start: u64,
    pub kind: FrameKind,
    /// 0, [`BEGIN`], [`END`] or [`UNFRAGMENTED`].
    pub flags: u8,
    /// The bytes of header and payload, without alignment.
    pub frame_length: u32,
}
