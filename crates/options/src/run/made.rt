ghost use Rattle.options.specs.Run.Ranges.{IsRunnable};

use loss_injector::Rates;
use position::Geometry;

/// What a run is made of.
#[derive(Clone, Copy, Debug, PartialEq, Eq)]
pub struct Plan {
    /// The stream's shape.
    pub geometry: Geometry,
    /// What becomes of the datagrams.
    pub rates: Rates,
    /// How many publishers, 1 to 8.
    pub publishers: usize,
    /// How many receivers, 1 to 8; two and more are a group.
    pub receivers: usize,
    /// How many messages each publisher sends, 1 to 1,000,000.
    pub messages: u32,
    /// The bytes of a message, 8 to the most that the geometry lets one have.
    pub length: usize,
    /// Where the random words begin.
    pub seed: u64,
    /// The most turns that each thread takes, 1 to 1,000,000,000.
    pub turns: u32,
    /// Whether the counters are shown.
    pub counters: bool,
    pub ghost runnable: { IsRunnable geometry publishers receivers messages length turns },
}
