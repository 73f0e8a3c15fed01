ghost use Rattle.std.specs.Prelude.{◌<◌, ◌≤◌};

/// The number of a publisher, a reader or a receiver: 0 to 7.
#[derive(Clone, Copy)]
pub struct PartyNumber {
    pub number: usize,
    pub ghost in_range: { number < 8 },
}

/// How many receivers a group has: 1 to 8.
#[derive(Clone, Copy)]
pub struct GroupSize {
    pub receivers: usize,
    pub ghost in_range: { receivers ≤ 8 },
}

/// What the log is opened with.
#[derive(Clone, Copy)]
pub struct LogLine {
    /// The bytes of a term, as written: no geometry has been judged.
    pub term_length: u32,
    /// The most bytes of a datagram, as written.
    pub mtu: u32,
    pub initial_term_id: i32,
    /// The position at which the stream begins, as written.
    pub start: u64,
    pub session: i32,
    pub stream: i32,
    /// How many consumers the log has beside its sender: 0 to 7.
    pub readers: u32,
    pub ghost readers_in_range: { readers < 8 },
}

/// What one line of a script asks for. Packets are numbered from 0 in the order in which they were printed, and
/// moments are nanoseconds.
#[derive(Drop)]
pub enum Command {
    /// The sender serves a group of receivers, with the ids from 0 on. Only the first command names one.
    Group {
        size: GroupSize,
    },
    /// The keeper sets the connected flag.
    Connect,
    /// The keeper clears the connected flag.
    Disconnect,
    /// The keeper sets the closed flag.
    Close,
    /// The keeper cleans, and moves the limit.
    Limit,
    /// A publisher offers a message.
    Offer {
        publisher: PartyNumber,
        message: Vec<u8>,
    },
    /// A publisher offers a message of this many bytes 61.
    OfferSize {
        publisher: PartyNumber,
        size: u64,
    },
    /// A publisher claims a range for a message of this many bytes.
    Claim {
        publisher: PartyNumber,
        size: u64,
    },
    /// A publisher fills its open claim with bytes 61, and commits it.
    Commit {
        publisher: PartyNumber,
    },
    /// A publisher makes its open claim a padding.
    Abort {
        publisher: PartyNumber,
    },
    /// A reader beside the sender reads the frame where it stands, and moves past it.
    Read {
        reader: PartyNumber,
    },
    /// A reader beside the sender joins.
    Join {
        reader: PartyNumber,
    },
    /// A reader beside the sender leaves.
    Leave {
        reader: PartyNumber,
    },
    /// The sender does one cycle.
    Send {
        now: u64,
    },
    /// A receiver is handed a packet.
    Deliver {
        packet: u64,
        receiver: PartyNumber,
        now: u64,
    },
    /// A receiver is handed any bytes.
    Raw {
        receiver: PartyNumber,
        now: u64,
        bytes: Vec<u8>,
    },
    /// A receiver does one cycle.
    Tick {
        receiver: PartyNumber,
        now: u64,
    },
    /// The sender is handed a packet.
    Reply {
        packet: u64,
        now: u64,
    },
    /// The sender is handed any bytes.
    RawBack {
        now: u64,
        bytes: Vec<u8>,
    },
    /// A receiver's consumer reads on to the end of a message.
    Poll {
        receiver: PartyNumber,
    },
    /// A receiver's image tells its positions.
    Image {
        receiver: PartyNumber,
    },
}

/// A script: how the log is opened, and the commands after that in their order.
#[derive(Drop)]
pub struct Script {
    pub log: LogLine,
    pub commands: Vec<Command>,
}
