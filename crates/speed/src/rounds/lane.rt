//! What the threads of a round have, one each.

ghost use Rattle.std.specs.Prelude.{◌≡◌, ◌^◌, ◌<◌, ◌≤◌, length, map};
ghost use Rattle.std.specs.List.{AllByRecursion};
ghost use Rattle.log_rule.specs.Claims.Sums.{total};
ghost use Rattle.speed.specs.Laps.{IsWhole, span_of};
ghost use Rattle.speed.specs.Rounds.{IsLane, accepted_in, lane_span, parts_of, publisher_in};

use crate::rounds::gate::{Gate, Lap, joined, lap};
use crate::rounds::offering::{Aim, offer_all};
use shared_log::{Log, Publisher};
use std::thread;
use std::thread::Threads;
use std::time::{Clock, Instant};

/// A publisher, how many of its offers were accepted, and when.
#[derive(Drop)]
pub(crate) struct Lane {
    pub(crate) publisher: Publisher,
    pub(crate) accepted: u32,
    pub(crate) lap: Lap,
}

/// A lane of a publisher, of which no offer was accepted yet.
pub(crate) fn lane_of(publisher: Publisher) -> Lane
    ensures publisher { result.publisher ≡ publisher }
    ensures none { result.accepted ≡ 0 }
{
    Lane {
        publisher,
        accepted: 0,
        lap: None,
    }
}

/// The lanes of a log's publishers, which have claimed nothing.
pub(crate) fn lanes_of(publishers: [Publisher; 8]) -> [Lane; 8]
    ensures publishers { map publisher_in result ≡ publishers }
    ensures none { AllByRecursion (λ lane. lane.accepted ≡ 0) result }
{
    let [zero, one, two, three, four, five, six, seven] = publishers;
    [
        lane_of(zero),
        lane_of(one),
        lane_of(two),
        lane_of(three),
        lane_of(four),
        lane_of(five),
        lane_of(six),
        lane_of(seven),
    ]
}

fn count(lane: &Lane) -> u64
    ensures value { result ≡ lane.now.accepted }
    ensures low { result < 2 ^ 32 }
{
    u64::from(lane.accepted)
}

/// Their publishers, and how many offers of all of them were accepted.
pub(crate) fn taken_apart(lanes: [Lane; 8]) -> ([Publisher; 8], u64)
    ensures publishers { result.0 ≡ map publisher_in lanes }
    ensures accepted { result.1 ≡ total accepted_in lanes }
{
    let [zero, one, two, three, four, five, six, seven] = lanes;
    let low = count(&zero) + count(&one) + count(&two) + count(&three);
    let high = count(&four) + count(&five) + count(&six) + count(&seven);
    let publishers = [
        zero.publisher,
        one.publisher,
        two.publisher,
        three.publisher,
        four.publisher,
        five.publisher,
        six.publisher,
        seven.publisher,
    ];
    (publishers, low + high)
}

/// From the first begin to the last end.
pub(crate) fn lap_of(lanes: &[Lane]) -> Lap
    ensures { IsWhole (map lane_span lanes.now) (span_of result) }
{
    let Some(first) = lanes.first() else {
        return None;
    };
    let mut whole = first.lap;
    for lane in lanes {
        whole = joined(whole, lane.lap);
    }
    whole
}

/// Publishes from one lane, from the common start on.
fn run<R: Clock>(rt: &R, log: &Log, gate: &Gate, aim: Aim, lane: &mut Lane)
    requires lane { IsLane log.now lane.old }
    requires none { lane.old.accepted ≡ 0 }
    ensures lane { IsLane log.now lane.new }
    ensures parts { parts_of lane.new ≡ parts_of lane.old }
{
    gate.pass();
    let began = Instant::now(rt);
    lane.accepted = offer_all(log, &mut lane.publisher, aim);
    lane.lap = lap(began, Instant::now(rt));
}

/// Publishes from all lanes together, each in a thread of its own.
fn run_all<R: Threads + Clock + Sync>(rt: &R, log: &Log, gate: &Gate, aim: Aim, lanes: &mut [Lane])
    requires some { 0 < length lanes.old }
    requires lanes { AllByRecursion (IsLane log.now) lanes.old }
    requires none { AllByRecursion (λ lane. lane.accepted ≡ 0) lanes.old }
    ensures lanes { AllByRecursion (IsLane log.now) lanes.new }
    ensures parts { total parts_of lanes.new ≡ total parts_of lanes.old }
{
    let count = lanes.len();
    thread::for_each_mut(
        rt,
        lanes,
        count,
        &|_, lane|
            requires { IsLane log.now lane.old × (lane.old.accepted ≡ 0) }
            ensures { IsLane log.entry.now lane.new × (parts_of lane.new ≡ parts_of lane.old) }
        { run(rt, log, gate, aim, lane) },
    );
}

/// Publishes from the first lanes, so many, together.
pub(crate) fn run_first<R: Threads + Clock + Sync>(
    rt: &R,
    log: &Log,
    gate: &Gate,
    aim: Aim,
    count: usize,
    mut lanes: [Lane; 8],
) -> [Lane; 8]
    requires some { 0 < count }
    requires eight { count ≤ 8 }
    requires lanes { AllByRecursion (IsLane log.now) lanes }
    requires none { AllByRecursion (λ lane. lane.accepted ≡ 0) lanes }
    ensures lanes { AllByRecursion (IsLane log.now) result }
    ensures parts { total parts_of result ≡ total parts_of lanes }
{
    run_all(rt, log, gate, aim, &mut lanes[..count]);
    lanes
}
