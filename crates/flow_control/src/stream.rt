ghost use Rattle.std.specs.Prelude.{◌≡◌, ◌≤◌, ◌<◌, ◌^◌, [], IfSome};
ghost use Rattle.flow_control.specs.Stream.{group_of};

use crate::flow::FlowControl;
use crate::least::LeastFlow;
use crate::unicast::UnicastFlow;

/// The group that a stream to so many destinations has: from two on their receivers are one, by their ids. There is none where there
/// is one destination: whoever is heard there, whatever its id, is its receiver.
pub fn group_of(destinations: usize) -> Option<usize>
    requires { destinations ≤ 8 }
    ensures group { result ≡ group_of destinations }
    ensures few { IfSome result (λ size. size ≤ 8) }
{
    if destinations > 1 {
        Some(destinations)
    } else {
        None
    }
}

/// The flow control of a stream: of one receiver, or of a group.
#[derive(Drop)]
pub enum StreamFlow {
    One(UnicastFlow),
    Group(LeastFlow),
}

impl StreamFlow {
    ghost use Rattle.flow_control.specs.Stream.{allowed_of, flow_after, reached_of};

    /// A flow control that has heard nobody; its limit is the stream's start. It is of a group of so many receivers, 1 to 8,
    /// or of one receiver.
    pub fn new(start: u64, group: Option<usize>) -> StreamFlow
        requires start { start < 2 ^ 63 }
        requires group { IfSome group (λ size. size ≤ 8) }
        ensures made { result ≡ flow_after group start [] }
        ensures limit { reached_of result ≡ start }
        ensures allowed { allowed_of result ≡ start }
    {
        match group {
            None => StreamFlow::One(UnicastFlow::new(start)),
            Some(size) => StreamFlow::Group(LeastFlow::new(start, size)),
        }
    }
}

impl FlowControl for StreamFlow {
    ghost use Rattle.flow_control.specs.Stream.{allowed_of, has_heard_of, reached_of, status_after, tick_after};

    ghost reached = { λ f. reached_of f };

    ghost allowed = { λ f. allowed_of f };

    ghost has_heard = { λ f. has_heard_of f };

    ghost after_status = { λ f position window receiver now. status_after f position window receiver now };

    ghost after_tick = { λ f now. tick_after f now };

    fn on_status(&mut self, position: i64, window: i32, receiver: i64, now: u64) {
        match self {
            StreamFlow::One(flow) => flow.on_status(position, window, receiver, now),
            StreamFlow::Group(flow) => flow.on_status(position, window, receiver, now),
        }
    }

    fn limit(&self) -> i64 {
        match self {
            StreamFlow::One(flow) => flow.limit(),
            StreamFlow::Group(flow) => flow.limit(),
        }
    }

    fn heard(&self) -> bool {
        match self {
            StreamFlow::One(flow) => flow.heard(),
            StreamFlow::Group(flow) => flow.heard(),
        }
    }

    fn tick(&mut self, now: u64) {
        match self {
            StreamFlow::One(flow) => flow.tick(now),
            StreamFlow::Group(flow) => flow.tick(now),
        }
    }
}
