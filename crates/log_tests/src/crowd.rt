//! Eight publishers on one log, each in a thread of its own.

ghost use Rattle.shared_log.specs.Handles.{AreNew};
ghost use Rattle.shared_log.specs.Steps.Handles.{IsOf};
ghost use Rattle.shared_log.specs.Readers.{IsReaderOf};

use crate::claimed::Claimed;
use crate::opening::open_ready;
use crate::publishing::{below, publish_all};
use crate::walk::{Terms, shown};
use position::Geometry;
use rand_pcg::Pcg32;
use shared_log::{Log, LogReader, Publisher};
use std::alloc::{AllocError, Global};
use std::process::Abort;
use std::sync::atomic::{AtomicU64, Ordering};
use std::test::*;
use std::thread;
use std::thread::Threads;

/// How many runs there are.
const SEEDS: u64 = 1000;

/// How often a thread yields for the others to come.
const PATIENCE: usize = 1000;

/// A start: 0, or in the second half of the last term, or in that of any term.
fn draw_start(draws: &mut Pcg32, geometry: &Geometry) -> u64 {
    let term = u64::from(geometry.term_length());
    let back = 32 * (1 + u64::from(below(draws, 1024)));
    match below(draws, 10) {
        0 => 0,
        1 => geometry.max_position() - back,
        _ => (1 + u64::from(below(draws, 1 << 31))) * term - back,
    }
}

/// Waits for all eight, for a while.
fn meet(arrived: &AtomicU64) {
    arrived.fetch_add(1, Ordering::SeqCst);
    for _ in 0..PATIENCE {
        if arrived.load(Ordering::SeqCst) >= 8 {
            break;
        }
        thread::yield_now();
    }
}

/// Lets each publisher publish in a thread of its own. The answer is what they claimed.
fn publish_each<R: Threads + Abort + Sync>(
    rt: &R,
    alloc: Global,
    log: &Log,
    publishers: Vec<Publisher>,
    seed: u64,
) -> Result<Vec<Vec<Claimed>>, AllocError>
    requires { AreNew log.now 0 publishers.items }
{
    let arrived = AtomicU64::new(0);
    let all = &arrived;
    thread::map_vec(
        rt,
        publishers,
        &|publisher: Publisher|
            requires { IsOf log.now publisher }
        {
            meet(all);
            publish_all(rt, alloc, log, publisher, seed)
        },
    )
}

/// All that was claimed, in the order of the stream.
fn in_order(alloc: Global, claimed: &[Vec<Claimed>]) -> Result<Vec<Claimed>, AllocError> {
    let mut claims: Vec<Claimed> = Vec::new(alloc);
    for some in claimed {
        claims.extend_from_slice(some.as_slice())?;
    }
    claims.sort_by_key(|claimed| claimed.start)?;
    Ok(claims)
}

/// The bytes that ranges cover.
fn covered(claims: &[Claimed]) -> u64 {
    let lengths = claims
        .iter()
        .map(|claimed| claimed.end.wrapping_sub(claimed.start));
    lengths.fold(0, |sum: u64, length| sum.wrapping_add(length))
}

/// Lets eight publishers fill a log. The answer is what they claimed, in the order of the stream.
fn fill<R: Threads + Abort + Sync>(
    rt: &R,
    alloc: Global,
    log: &Log,
    publishers: [Publisher; 8],
    seed: u64,
) -> Result<Vec<Claimed>, AllocError>
    requires { AreNew log.now 0 publishers }
{
    let publishers = Vec::from_array(alloc, publishers)?;
    let claimed = publish_each(rt, alloc, log, publishers, seed)?;
    in_order(alloc, claimed.as_slice())
}

/// Walks a log over what was claimed from its start on. The answer is where it ends.
fn walk<R: Abort>(
    rt: &R,
    alloc: Global,
    log: &mut Log,
    reader: LogReader,
    claims: &[Claimed],
    seed: u64,
) -> Result<u64, AllocError>
    requires { IsReaderOf log.old reader }
{
    let start = log.start();
    let terms = Terms::of(alloc, log, reader)?;
    let tail = shown(log);
    match terms.walk(start, tail, claims) {
        Ok(padded) => {
            let shares = covered(claims).wrapping_add(padded);
            assert!(rt; start.wrapping_add(shares) == tail);
        }
        Err(position) => panic!(rt; "seed {seed} is wrong at {position}"),
    }
    Ok(tail)
}

/// Lets eight publishers fill a log, and walks it. The answer is whether the stream turned to another term.
fn run<R: Threads + Abort + Sync>(rt: &R, alloc: Global, seed: u64) -> Result<bool, Fail> {
    let mut draws = Pcg32::new(seed, 8);
    let mtu = if below(&mut draws, 2) == 0 { 256 } else { 1408 };
    let geometry = Geometry::new(65_536, mtu, 7)?;
    let start = draw_start(&mut draws, &geometry);
    let (mut log, publishers, reader) = open_ready(alloc, geometry, start)?;
    let claims = fill(rt, alloc, &log, publishers, seed)?;
    let tail = walk(rt, alloc, &mut log, reader, claims.as_slice(), seed)?;
    let limit = start.wrapping_add(32_768).min(geometry.max_position());
    assert!(rt; tail >= limit);
    Ok(start / 65_536 != tail / 65_536)
}

/// In whatever order the threads run, what they were answered is what stands in the log.
#[test]
fn eight_publishers(rt: HostRuntime) -> Result<(), Fail> {
    let mut turns = 0;
    for seed in 0..SEEDS {
        if run(&rt, rt.alloc(), seed)? {
            turns += 1;
        }
    }
    assert!(rt; turns > SEEDS / 2);
    Ok(())
}
