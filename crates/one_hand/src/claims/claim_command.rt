use publication::Refusal;

/// What one of the publishers is to do; they have the numbers from 0 to 7.
#[derive(Debug, PartialEq, Eq, Drop)]
pub enum ClaimCommand {
    /// Publishes a message.
    Offer { publisher: u32, message: Vec<u8> },
    /// Claims a range for a message of this many bytes.
    Claim { publisher: u32, size: u32 },
    /// Commits the open claim with this payload.
    Commit { publisher: u32, payload: Vec<u8> },
    /// Makes the open claim a padding.
    Abort { publisher: u32 },
}

/// What became of a command.
#[derive(Clone, Copy, Debug, PartialEq, Eq)]
pub enum ClaimAnswer {
    /// The position behind the message, or behind the claim that ended.
    Ends(u64),
    /// The range that was claimed.
    Begins { start: u64, end: u64 },
    /// Why the log didn't accept the message or the claim.
    Refused(Refusal),
    /// There is no such publisher, it has a claim open or none, or the size isn't fit. Nothing happened.
    Unfit,
}
