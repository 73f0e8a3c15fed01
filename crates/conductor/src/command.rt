/// What a client asks of the one who keeps the stream.
#[derive(Clone, Copy, Debug, PartialEq, Eq)]
pub enum Command {
    /// Somebody receives the stream.
    Connect,
    /// Nobody receives it any more.
    Disconnect,
    /// The stream ends, for good.
    Close,
}

/// A command, and the number of the client that submitted it.
#[derive(Clone, Copy, Debug, PartialEq, Eq)]
pub struct Submitted {
    pub client: usize,
    pub command: Command,
}
