ghost use Rattle.options.specs.Run.Ranges.{IsInRange};

/// What a run is told, each number in its range. Together they may still make no plan.
#[derive(Clone, Copy, Debug, PartialEq, Eq)]
pub struct RunOptions {
    /// How many publishers, 1 to 8.
    pub publishers: u32,
    /// How many receivers, 1 to 8.
    pub receivers: u32,
    /// How many messages each publisher sends, 1 to 1,000,000.
    pub messages: u32,
    /// The bytes of a message, 8 to 2,097,152.
    pub length: u32,
    /// How many of a thousand datagrams are lost, 0 to 1,000.
    pub loss: u32,
    /// How many of a thousand are repeated, 0 to 1,000.
    pub repeat: u32,
    /// How many of a thousand are held back, 0 to 1,000.
    pub hold: u32,
    /// Where the random words begin.
    pub seed: u64,
    /// The most turns that each thread takes, 1 to 1,000,000,000.
    pub turns: u32,
    /// The bytes of a term; a plan judges them.
    pub term: u32,
    /// The most bytes of a datagram; a plan judges them.
    pub mtu: u32,
    /// Whether the counters are shown.
    pub counters: bool,
    pub ghost in_range: { IsInRange publishers receivers messages length loss repeat hold turns },
}
