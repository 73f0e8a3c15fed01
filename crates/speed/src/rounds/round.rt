//! One round.

ghost use Rattle.std.specs.Prelude.{◌≡◌, ◌<◌, ◌≤◌, IfErr, IfOk};
ghost use Rattle.speed.specs.Rounds.{IsFilled};

use crate::rounds::claiming::{claim_eight, jobs_of};
use crate::rounds::closing::close_all;
use crate::rounds::gate::{Gate, duration};
use crate::rounds::lane::{lap_of, run_first};
use crate::rounds::offering::Aim;
use crate::rounds::opening::{Ready, open_ready};
use position::Geometry;
use shared_log::{Book, LogError};
use std::alloc::Global;
use std::thread::Threads;
use std::time::{Clock, Duration};

/// What a round leaves: the log's book, how many offers were accepted, and the time from the threads' common start to the
/// last one's end, if the clock could be read.
#[derive(Drop)]
pub struct Round {
    pub book: Book,
    pub accepted: u64,
    pub taken: Option<Duration>,
}

/// Fills a fresh log up to its limit, by so many threads, of which each has one of the eight publishers and offers
/// messages of 200 bytes until one is refused. Then all publishers are given back, and the log is closed: its entries tile
/// the stream from 0 to the book's tail, as many of them are messages as offers were accepted, each of 256 bytes, and the
/// shares are what each publisher's entries cover. It fails only where memory is refused.
pub fn play_round<R: Threads + Clock + Sync>(
    rt: &R,
    alloc: Global,
    geometry: Geometry,
    threads: usize,
) -> Result<Round, LogError>
    requires some { 0 < threads }
    requires eight { threads ≤ 8 }
    ensures filled { IfOk result (λ r. IsFilled geometry r.book r.accepted) }
    ensures memory { IfErr result (λ e. e ≡ LogError.Memory) }
{
    let Ready {
        log,
        lanes,
        readers,
        keeper,
    } = open_ready(alloc, geometry)?;
    let gate = Gate::new(threads);
    let lanes = run_first(rt, &log, &gate, Aim::Fill, threads, lanes);
    let taken = duration(lap_of(&lanes[..threads]));
    let (book, accepted) = close_all(alloc, log, lanes, readers, keeper)?;
    Ok(Round {
        book,
        accepted,
        taken,
    })
}

/// The same, but that each thread claims a range for each message, writes it there, and commits it. A claim's bytes are zeros
/// before, so each is stored twice in the publisher's own block, and then once in the log.
pub fn play_claims<R: Threads + Clock + Sync>(
    rt: &R,
    alloc: Global,
    geometry: Geometry,
    threads: usize,
) -> Result<Round, LogError>
    requires some { 0 < threads }
    requires eight { threads ≤ 8 }
    ensures filled { IfOk result (λ r. IsFilled geometry r.book r.accepted) }
    ensures memory { IfErr result (λ e. e ≡ LogError.Memory) }
{
    let Ready {
        log,
        lanes,
        readers,
        keeper,
    } = open_ready(alloc, geometry)?;
    let jobs = jobs_of(alloc, &log, lanes, threads)?;
    let gate = Gate::new(threads);
    let lanes = claim_eight(rt, &log, &gate, jobs);
    let taken = duration(lap_of(&lanes[..threads]));
    let (book, accepted) = close_all(alloc, log, lanes, readers, keeper)?;
    Ok(Round {
        book,
        accepted,
        taken,
    })
}
