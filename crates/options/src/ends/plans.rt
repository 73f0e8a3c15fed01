ghost use Rattle.position.specs.Openings.{IsStart};

use channel::Transport;
use loss_injector::Rates;
use messages::Form;
use position::Geometry;

/// What both ends are made of.
#[derive(Clone, Copy, Debug)]
pub struct EndPlan {
    /// Where the datagrams go, and how.
    pub transport: Transport,
    /// The stream's id.
    pub stream: i32,
    /// What becomes of the datagrams that it sends.
    pub rates: Rates,
    /// Where the random words begin.
    pub seed: u64,
    /// How messages stand in its input or output.
    pub form: Form,
    /// Whether the counters are shown.
    pub counters: bool,
}

/// What a publisher is made of.
#[derive(Clone, Copy, Debug)]
pub struct PublishPlan {
    pub end: EndPlan,
    /// The stream's shape.
    pub geometry: Geometry,
    pub session: i32,
    /// Where the stream starts.
    pub start: u64,
    /// After how many nanoseconds without a status message of a receiver that was heard it gives up.
    pub linger: u64,
    /// After how many nanoseconds in which nobody was ever heard it gives up.
    pub wait: u64,
    pub ghost legal: { IsStart geometry start },
}

/// What a subscriber is made of.
#[derive(Clone, Copy, Debug)]
pub struct SubscribePlan {
    pub end: EndPlan,
    /// The one session that it takes; any where it names none.
    pub session: Option<i32>,
    /// The longest term of a stream that it takes, in bytes.
    pub greatest_term: u32,
    /// Its own id.
    pub receiver: i64,
    /// After how many messages it ends.
    pub messages: u64,
    /// After how many nanoseconds without a datagram it ends.
    pub quiet: u64,
    /// Whether it ends with the stream.
    pub once: bool,
    /// How many sessions it follows at a time at the most: 0 counts as 1, and what is above 16 as 16.
    pub sessions: u32,
}
