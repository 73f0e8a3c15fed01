/// What stands in a range of the stream.
#[derive(Clone, Copy, Debug, PartialEq, Eq)]
pub enum Content {
    /// Nothing: its claim is open.
    Open,
    /// A padding.
    Padding,
    /// A message, whose bytes begin at this place of the row of bytes.
    Message(usize),
}

/// What one addition took of the stream.
#[derive(Clone, Copy, Debug, PartialEq, Eq)]
pub struct Addition {
    pub start: u64,
    /// The publisher's number.
    pub owner: usize,
    /// The bytes of its message, or the length of the padding's frame.
    pub size: u32,
    pub content: Content,
}

/// A claim that a publisher has open.
#[derive(Clone, Copy, Debug, PartialEq, Eq)]
pub struct PlacedClaim {
    /// The place of its addition among all.
    pub place: usize,
    pub start: u64,
    /// The bytes of its message.
    pub size: u32,
}
