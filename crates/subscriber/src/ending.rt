//! How a subscriber ends.

/// How a subscriber ends.
#[derive(Clone, Copy, Debug, PartialEq, Eq)]
pub enum Ending {
    /// As many messages were written as were wanted, or all up to the stream's told end; or it wasn't to end with that, and was quiet.
    Whole,
    /// It was to end with the stream, and was quiet before it heard of the end or had all up to it.
    Short,
    /// A stream that it had heard was cut off, or broken off by its publisher; it ended as it would have else.
    Lost,
}

/// What a subscriber has done.
#[derive(Clone, Copy, Debug, PartialEq, Eq)]
pub struct Subscribed {
    /// How many messages were written.
    pub messages: u64,
    pub ending: Ending,
}
