//! What is timed, and what a measurement is told.

ghost use Rattle.std.specs.Prelude.{◌≤◌};

/// What is timed.
#[derive(Clone, Copy)]
pub enum Subject {
    /// A log that threads share.
    Log,
    /// The whole driver.
    Driver,
}

/// What a measurement is told, each number in its range.
#[derive(Clone, Copy)]
pub struct TimingOptions {
    /// How many publishers, 1 to 8.
    pub publishers: u32,
    /// The bytes of a message, 16 to 2,097,152.
    pub length: u32,
    /// The bytes of a term; a plan judges them.
    pub term: u32,
    /// The most bytes of a datagram; a plan judges them.
    pub mtu: u32,
    /// How many messages all publishers offer.
    pub messages: u32,
    /// How many of them in a second; 0 for as many as are accepted.
    pub rate: u64,
    /// How many of a thousand datagrams are lost, 0 to 1,000.
    pub loss: u32,
    /// Where the random words begin.
    pub seed: u64,
    pub ghost some: { 1 ≤ publishers },
    pub ghost eight: { publishers ≤ 8 },
    pub ghost whole: { 16 ≤ length },
    pub ghost thousand: { loss ≤ 1000 },
}
