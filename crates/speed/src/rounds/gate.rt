//! A common start of several threads, and the time from the first one's begin to the last one's end.

ghost use Rattle.std.specs.Prelude.{◌≡◌, max, min};
ghost use Rattle.std.specs.Duration.{as_nanos};
ghost use Rattle.std.specs.Option.{option_map};
ghost use Rattle.std.specs.Time.{instant_nanos};
ghost use Rattle.speed.specs.Laps.{joined_span, nanos_in, span_of, span_read};

use std::sync::atomic::{AtomicU64, Ordering};
use std::time::{Duration, Instant};
use std::{io, thread};

/// How often a thread looks whether the others have come, before it goes on alone.
const TRIES: u32 = 1_000_000_000;

/// How often a thread yields between the two meetings: some milliseconds, in which the system gives each a core of its own.
const SETTLING: u32 = 20_000;

/// A gate that opens once so many threads have come and had time to settle.
#[derive(Drop)]
pub(crate) struct Gate {
    wanted: u64,
    arrived: AtomicU64,
    settled: AtomicU64,
}

/// Waits until so many have met here.
fn meet(count: &AtomicU64, wanted: u64) {
    count.fetch_add(1, Ordering::SeqCst);
    for _ in 0..TRIES {
        if count.load(Ordering::SeqCst) >= wanted {
            return;
        }
        thread::yield_now();
    }
}

impl Gate {
    pub(crate) fn new(wanted: usize) -> Gate {
        Gate {
            wanted: wanted as u64,
            arrived: AtomicU64::new(0),
            settled: AtomicU64::new(0),
        }
    }

    /// Comes to the gate, and goes through with the others.
    pub(crate) fn pass(&self) {
        meet(&self.arrived, self.wanted);
        for _ in 0..SETTLING {
            thread::yield_now();
        }
        meet(&self.settled, self.wanted);
    }
}

/// When a thread began its work and when it ended it, if the clock could be read.
pub(crate) type Lap = Option<(Instant, Instant)>;

pub(crate) fn lap(began: io::Result<Instant>, ended: io::Result<Instant>) -> Lap
    ensures { span_of result ≡ span_read began ended }
{
    match (began, ended) {
        (Ok(began), Ok(ended)) => Some((began, ended)),
        _ => None,
    }
}

fn earlier(one: Instant, other: Instant) -> Instant
    ensures { instant_nanos result ≡ min (instant_nanos one) (instant_nanos other) }
{
    if one.checked_duration_since(other).is_some() {
        other
    } else {
        one
    }
}

fn later(one: Instant, other: Instant) -> Instant
    ensures { instant_nanos result ≡ max (instant_nanos one) (instant_nanos other) }
{
    if one.checked_duration_since(other).is_some() {
        one
    } else {
        other
    }
}

/// The lap from the earlier begin of two to the later end.
pub(crate) fn joined(one: Lap, other: Lap) -> Lap
    ensures { span_of result ≡ joined_span (span_of one) (span_of other) }
{
    match (one, other) {
        (Some((began, ended)), Some((first, last))) => {
            Some((earlier(began, first), later(ended, last)))
        }
        _ => None,
    }
}

/// How long a lap took.
pub(crate) fn duration(lap: Lap) -> Option<Duration>
    ensures { option_map as_nanos result ≡ option_map nanos_in (span_of lap) }
{
    match lap {
        Some((began, ended)) => Some(ended.duration_since(began)),
        None => None,
    }
}
