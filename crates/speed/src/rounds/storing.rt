//! Plain stores, to compare with.

ghost use Rattle.std.specs.Prelude.{◌≡◌, ◌<◌, IfOk, map, replicate, vec_len};
ghost use Rattle.speed.specs.Laps.{IsWhole, span_of};
ghost use Rattle.speed.specs.Rows.{row_length, row_span};

use crate::rounds::gate::{Gate, Lap, duration, joined, lap};
use std::alloc::{AllocError, Global};
use std::sync::atomic::{AtomicU64, Ordering};
use std::thread;
use std::thread::Threads;
use std::time::{Clock, Duration, Instant};

/// The words of one thread, and when it stored them.
#[derive(Drop)]
struct Row {
    words: Vec<AtomicU64>,
    lap: Lap,
}

fn zeros(alloc: Global, length: usize) -> Result<Row, AllocError>
    ensures { IfOk result (λ row. row_length row ≡ length) }
{
    let mut words = Vec::with_capacity(alloc, length)?;
    for _ in 0..length {
        words.push(AtomicU64::new(0))?;
    }
    Ok(Row { words, lap: None })
}

fn rows(alloc: Global, threads: usize, length: usize) -> Result<Vec<Row>, AllocError>
    ensures { IfOk result (λ rows. map row_length rows.items ≡ replicate threads length) }
{
    let mut rows = Vec::with_capacity(alloc, threads)?;
    for _ in 0..threads {
        rows.push(zeros(alloc, length)?)?;
    }
    Ok(rows)
}

/// Stores each word once, from the common start on.
fn store_all<R: Clock>(rt: &R, gate: &Gate, row: &mut Row) {
    gate.pass();
    let began = Instant::now(rt);
    for word in &row.words {
        word.store(1, Ordering::SeqCst);
    }
    row.lap = lap(began, Instant::now(rt));
}

/// From the first one's begin to the last one's end.
fn whole_lap(rows: &[Row]) -> Lap
    ensures { IsWhole (map row_span rows.now) (span_of result) }
{
    let Some(first) = rows.first() else {
        return None;
    };
    let mut whole = first.lap;
    for row in rows {
        whole = joined(whole, row.lap);
    }
    whole
}

/// The time in which so many threads make so many sequentially consistent stores each, from their common start to the last
/// one's end, if the clock could be read. Each has words of its own.
pub fn stores<R: Threads + Clock + Sync>(
    rt: &R,
    alloc: Global,
    threads: usize,
    each: usize,
) -> Result<Option<Duration>, AllocError>
    requires { 0 < threads }
{
    let mut rows = rows(alloc, threads, each)?;
    let gate = Gate::new(threads);
    thread::for_each_mut(
        rt,
        rows.as_mut_slice(),
        threads,
        &|_, row| store_all(rt, &gate, row),
    );
    Ok(duration(whole_lap(rows.as_slice())))
}
