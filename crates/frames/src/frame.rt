ghost use Rattle.std.specs.Prelude.{◌≡◌, ◌+◌, length};
ghost use Rattle.theory.specs.Position.{aligned};
ghost use Rattle.theory.specs.Wire.{spelling};
ghost use Rattle.frames.specs.Frames.{wire};

/// The flag of a DATA frame that begins a message.
pub(crate) const BEGIN: u8 = 0x80;

/// The flag of a DATA frame that ends a message.
pub(crate) const END: u8 = 0x40;

/// The flags of a DATA frame that is a whole message, begin and end, and of a padding.
pub(crate) const UNFRAGMENTED: u8 = 0xc0;

/// The fields that a DATA frame, a padding and a heartbeat have in common.
#[derive(Clone, Copy, Debug, PartialEq, Eq)]
pub struct Header {
    /// A multiple of 32, in bytes, at most 16,777,216.
    pub term_offset: u32,
    pub session: i32,
    pub stream: i32,
    pub term_id: i32,
    /// Whatever the publisher says, 0 for this driver's publications.
    pub reserved: i64,
}

/// A negative acknowledgement: the range that is asked for again.
#[derive(Clone, Copy, Debug, PartialEq, Eq)]
pub struct Nak {
    pub session: i32,
    pub stream: i32,
    pub term_id: i32,
    pub term_offset: i32,
    /// In bytes. Any number is read; what it means is judged elsewhere.
    pub length: i32,
}

/// A status message: where a receiver's consumer stands, and its window in bytes.
#[derive(Clone, Copy, Debug, PartialEq, Eq)]
pub struct Status {
    pub session: i32,
    pub stream: i32,
    pub term_id: i32,
    pub term_offset: i32,
    pub window: i32,
    pub receiver: i64,
}

/// The geometry of a stream and a position of it, lengths in bytes.
#[derive(Clone, Copy, Debug, PartialEq, Eq)]
pub struct Setup {
    pub term_offset: i32,
    pub session: i32,
    pub stream: i32,
    pub initial_term_id: i32,
    pub active_term_id: i32,
    pub term_length: i32,
    pub mtu: i32,
    /// Written as 0 by a sender; a receiver doesn't use it.
    pub ttl: i32,
}

/// A frame, as it is read or written. A payload is borrowed.
#[derive(Clone, Copy, Debug, PartialEq, Eq)]
pub enum Frame<'a> {
    /// A message, or a part of one.
    Data {
        header: Header,
        /// 0x80 where a message begins, 0x40 where it ends, or both, or none.
        flags: u8,
        /// At most 65,472 bytes.
        payload: &'a [u8],
    },
    /// A padding. It covers `frame_length` bytes of the stream, rounded up to a multiple of 32, and is 32 bytes here.
    Pad {
        header: Header,
        /// From 32 to 16,777,216.
        frame_length: u32,
    },
    /// A sender's sign of life, which names its position.
    Heartbeat {
        header: Header,
    },
    Nak(Nak),
    Status {
        /// Whether a SETUP is asked for.
        asks: bool,
        status: Status,
    },
    Setup(Setup),
}

impl Frame<'_> {
    /// The bytes that the frame takes when it is written.
    pub fn size(&self) -> usize
        ensures { result ≡ length (spelling (wire self.now)) }
    {
        match *self {
            Frame::Data { payload, .. } => covered(payload),
            Frame::Pad { .. } | Frame::Heartbeat { .. } => 32,
            Frame::Nak(_) => 28,
            Frame::Status { .. } => 36,
            Frame::Setup(_) => 40,
        }
    }
}

/// The bytes of a DATA frame with this payload.
fn covered(payload: &[u8]) -> usize
    ensures { result ≡ aligned (32 + length payload.now) }
{
    (32 + payload.len()).next_multiple_of(32)
}
