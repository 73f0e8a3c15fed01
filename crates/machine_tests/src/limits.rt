use flow_control::{FlowControl, LeastFlow, StreamFlow, UnicastFlow};
use std::test::*;

/// Status messages (position, window) in order, and the limit behind each, from start 0.
const HEARD: [(i64, i32, i64); 6] = [
    (0, 32_768, 32_768),
    (0, 1_408, 32_768),
    (4_096, 32_768, 36_864),
    (0, i32::MIN, 36_864),
    (140_739_635_773_439, i32::MAX, 140_741_783_257_086),
    (i64::MAX, 1, i64::MAX),
];

#[test]
fn limits(rt: HostRuntime) {
    let mut flow = UnicastFlow::new(0);
    assert!(rt; flow.limit() == 0 && !flow.heard());
    for (position, window, limit) in HEARD {
        flow.on_status(position, window, 42, 0);
        flow.tick(0);
        assert!(rt; flow.limit() == limit && flow.heard());
    }
}

/// A status message (receiver, position, window) or a tick, its moment, and the limit behind it.
type Row = (Option<(i64, i64, i32)>, u64, i64);

/// Of a group of two, from start 0: the least counts, and who is silent for more than 5 s doesn't.
const SILENT: [Row; 8] = [
    (Some((0, 0, 32_768)), 0, 0),
    (Some((1, 0, 1_408)), 1_000_000, 1_408),
    (Some((1, 1_024, 1_408)), 2_000_000, 2_432),
    (Some((0, 4_096, 32_768)), 3_000_000, 2_432),
    (None, 5_002_000_000, 2_432),
    (None, 5_002_000_001, 36_864),
    (None, 5_003_000_001, 36_864),
    (Some((1, 1_024, 1_408)), 5_003_000_002, 36_864),
];

/// A receiver that was silent comes back, and is the least again.
const BACK: [Row; 6] = [
    (Some((0, 0, 1_000)), 0, 0),
    (Some((1, 0, 500)), 0, 500),
    (Some((0, 1_000, 1_000)), 5_000_000_001, 2_000),
    (Some((1, 2_000, 500)), 5_000_000_002, 2_000),
    (Some((0, 9_000, 1_000)), 5_000_000_003, 2_500),
    (Some((1, 9_000, 500)), 5_000_000_004, 9_500),
];

/// Other ids allow nothing, and aren't heard; nor is one that was never heard.
const FOREIGN: [Row; 7] = [
    (Some((0, 0, 64)), 0, 0),
    (Some((2, 0, 64)), 0, 0),
    (Some((-1, 0, 64)), 0, 0),
    (Some((i64::MIN, 0, 64)), 0, 0),
    (Some((i64::MAX, 0, 64)), 0, 0),
    (None, 9_000_000_000, 0),
    (Some((0, 0, 64)), u64::MAX, 0),
];

/// A moment smaller than one that was seen counts as the one seen, of a foreign id's message too.
const BACKWARDS: [Row; 9] = [
    (Some((0, 0, 1_000)), 0, 0),
    (Some((1, 0, 2_000)), 0, 1_000),
    (None, 6_000_000_000, 1_000),
    (Some((1, 0, 5_000)), 1_000_000_000, 5_000),
    (None, 11_000_000_000, 5_000),
    (Some((0, 0, 9_000)), 6_000_000_000, 5_000),
    (Some((7, 0, 0)), 16_000_000_001, 5_000),
    (Some((0, 0, 9_000)), 0, 9_000),
    (None, u64::MAX, 9_000),
];

/// Sums are cut at the greatest number, and none falls below 0.
const CUT: [Row; 4] = [
    (Some((0, i64::MAX, i32::MAX)), u64::MAX, 0),
    (Some((1, i64::MIN, i32::MIN)), u64::MAX, 0),
    (Some((1, i64::MAX, 1)), u64::MAX, i64::MAX),
    (Some((1, 0, 0)), 0, i64::MAX),
];

/// Whether each event of a row leaves that limit.
fn leaves<F: FlowControl>(flow: &mut F, rows: &[Row]) -> bool {
    let mut all = true;
    for (event, now, limit) in rows {
        match event {
            None => flow.tick(*now),
            Some((receiver, position, window)) => {
                flow.on_status(*position, *window, *receiver, *now)
            }
        }
        all = flow.limit() == *limit && all;
    }
    all
}

#[test]
fn group_limits(rt: HostRuntime) {
    assert!(rt; leaves(&mut LeastFlow::new(0, 2), &SILENT));
    assert!(rt; leaves(&mut LeastFlow::new(0, 2), &BACK));
    assert!(rt; leaves(&mut LeastFlow::new(0, 2), &FOREIGN));
    assert!(rt; leaves(&mut LeastFlow::new(0, 2), &BACKWARDS));
    assert!(rt; leaves(&mut LeastFlow::new(0, 2), &CUT));
    assert!(rt; leaves(&mut StreamFlow::new(0, Some(2)), &SILENT));
}

#[test]
fn group_heard(rt: HostRuntime) {
    let mut flow = LeastFlow::new(0, 3);
    for (receiver, all) in [
        (2, false),
        (3, false),
        (0, false),
        (0, false),
        (1, true),
        (3, true),
    ] {
        assert!(rt; flow.limit() == 0);
        flow.on_status(0, 0, receiver, 0);
        assert!(rt; flow.heard() == all);
    }
}

#[test]
fn one_receiver(rt: HostRuntime) {
    let mut flow = StreamFlow::new(64, None);
    assert!(rt; flow.limit() == 64 && !flow.heard());
    flow.tick(5);
    flow.on_status(0, 96, -7, 6);
    assert!(rt; flow.limit() == 96 && flow.heard());
}
