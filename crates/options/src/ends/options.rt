/// What either end of a channel is told.
#[derive(Clone, Copy, Debug)]
pub struct EndOptions<'a> {
    /// The channel's text.
    pub channel: &'a str,
    /// The stream's id, 0 to 2,147,483,647.
    pub stream: u32,
    /// How many of a thousand datagrams are lost, 0 to 1,000.
    pub loss: u32,
    /// How many of a thousand are repeated, 0 to 1,000.
    pub repeat: u32,
    /// How many of a thousand are held back, 0 to 1,000.
    pub hold: u32,
    /// Where the random words begin.
    pub seed: u64,
    /// Whether a message stands behind its length, and not in a line.
    pub blocks: bool,
    /// Whether the counters are shown.
    pub counters: bool,
}

/// What a publisher is told.
#[derive(Debug, Drop)]
pub struct PublishOptions<'a> {
    pub end: EndOptions<'a>,
    /// To which endpoints it sends besides the channel's.
    pub to: Vec<&'a str>,
    /// After how many seconds without a status message of a receiver that was heard it gives up.
    pub linger: u32,
    /// After how many seconds in which nobody was ever heard it gives up; the greatest number stands for never.
    pub wait: u32,
}

/// What a subscriber is told.
#[derive(Clone, Copy, Debug)]
pub struct SubscribeOptions<'a> {
    pub end: EndOptions<'a>,
    /// After how many messages it ends; the greatest number stands for never.
    pub messages: u64,
    /// After how many seconds without a datagram it ends; the greatest number says that none was told: 30 with `once`, else
    /// never.
    pub quiet: u32,
    /// Whether it ends with the stream.
    pub once: bool,
    /// How many sessions it follows at a time at the most, 1 to 16.
    pub sessions: u32,
}
