//! Many rounds.

ghost use Rattle.std.specs.Prelude.{◌≡◌, ◌+◌, ◌*◌, ◌/◌, ◌-◌, ◌^◌, ◌<◌, ◌≤◌, max, min, IfOk, IfSome};
ghost use Rattle.std.specs.Duration.{as_nanos};
ghost use Rattle.speed.specs.Figures.{AreByTurns, AreFigures, ByTurns, IsMedian};

use crate::fault::SpeedError;
use crate::rounds::round::{play_claims, play_round};
use crate::rounds::storing::stores;
use crate::rounds::streaming::play_stream;
use crate::samples::{All, Samples, no_samples};
use crate::sorting::median;
use position::Geometry;
use std::alloc::{AllocError, Global};
use std::thread::Threads;
use std::time::{Clock, Duration};

/// The words of one accepted offer's frame: four of the header and 25 of the payload.
const STORES: usize = 29;

/// How many words the frames of so many accepted offers have, of 2^32 at the most.
fn words_of(offers: u64) -> usize
    ensures { result ≡ min offers (2 ^ 32) * ((32 + 200) / 8) }
{
    offers.min(1 << 32) as usize * STORES
}

/// The medians for so many threads, in picoseconds.
#[derive(Clone, Copy, Debug, PartialEq, Eq)]
pub struct Figures {
    pub threads: usize,
    /// For each claim with its commit.
    pub claim: u64,
    /// For as many plain stores as one of them makes.
    pub stores: u64,
}

/// A duration's picoseconds for each of so many, rounded down. None at all are taken for one.
fn each(taken: Duration, count: u64) -> u64
    ensures { result ≡ min (as_nanos taken * 1000 / max count 1) (2 ^ 64 - 1) }
{
    let each = taken.as_nanos() * 1000 / u128::from(count.max(1));
    each.min(u128::from(u64::MAX)) as u64
}

/// What each claim of a round took, and how many offers were accepted.
fn claim_figure<R: Threads + Clock + Sync>(
    rt: &R,
    alloc: Global,
    geometry: Geometry,
    threads: usize,
) -> Result<(u64, u64), SpeedError>
    requires some { 0 < threads }
    requires eight { threads ≤ 8 }
{
    let filled = play_round(rt, alloc, geometry, threads)?;
    let taken = filled.taken.ok_or(SpeedError::Clock)?;
    Ok((each(taken, filled.accepted), filled.accepted))
}

/// What as many stores took as the frames of so many claims have words, shared out among the threads.
fn store_figure<R: Threads + Clock + Sync>(
    rt: &R,
    alloc: Global,
    threads: usize,
    accepted: u64,
) -> Result<u64, SpeedError>
    requires some { 0 < threads }
{
    let shared = accepted / threads as u64;
    let length = words_of(shared);
    let taken = stores(rt, alloc, threads, length)?.ok_or(SpeedError::Clock)?;
    Ok(each(taken, shared.saturating_mul(threads as u64)))
}

/// Takes a sample of both.
fn sample<R: Threads + Clock + Sync>(
    rt: &R,
    alloc: Global,
    geometry: Geometry,
    samples: &mut Samples,
) -> Result<(), SpeedError>
    ensures { samples.new.threads ≡ samples.old.threads }
{
    let (claim, accepted) = claim_figure(rt, alloc, geometry, samples.threads)?;
    samples.claims.push(claim)?;
    let stored = store_figure(rt, alloc, samples.threads, accepted)?;
    samples.stores.push(stored)?;
    Ok(())
}

/// Takes a sample for each number of threads.
fn sample_all<R: Threads + Clock + Sync>(
    rt: &R,
    alloc: Global,
    geometry: Geometry,
    all: &mut All,
) -> Result<(), SpeedError>
    requires { ByTurns all.old }
    ensures { ByTurns all.new }
{
    sample(rt, alloc, geometry, &mut all.one)?;
    sample(rt, alloc, geometry, &mut all.two)?;
    sample(rt, alloc, geometry, &mut all.four)?;
    sample(rt, alloc, geometry, &mut all.eight)
}

/// The medians of what was measured.
fn medians_of(samples: &mut Samples) -> Option<Figures>
    ensures { IfSome result (λ figures. AreFigures samples.old figures) }
{
    if samples.claims.is_empty() || samples.stores.is_empty() {
        return None;
    }
    Some(Figures {
        threads: samples.threads,
        claim: median(samples.claims.as_mut_slice()),
        stores: median(samples.stores.as_mut_slice()),
    })
}

/// What each message of a stream took that was read.
fn stream_figure<R: Threads + Clock + Sync>(
    rt: &R,
    alloc: Global,
    geometry: Geometry,
    publishers: usize,
    messages: u32,
) -> Result<u64, SpeedError>
    requires some { 0 < publishers }
    requires eight { publishers ≤ 8 }
{
    let stream = play_stream(rt, alloc, geometry, publishers, messages)?;
    let taken = stream.taken.ok_or(SpeedError::Clock)?;
    Ok(each(taken, stream.read))
}

/// The median of some figures, if there are any.
fn median_of(figures: &mut [u64]) -> Option<u64>
    ensures { IfSome result (λ median. IsMedian figures.old median) }
{
    if figures.is_empty() {
        return None;
    }
    Some(median(figures))
}

/// Measures streams of so many messages from each of so many publishers, in so many rounds. The answer is the median, in
/// picoseconds for each message that was read.
pub fn measure_stream<R: Threads + Clock + Sync>(
    rt: &R,
    alloc: Global,
    geometry: Geometry,
    publishers: usize,
    messages: u32,
    rounds: usize,
) -> Result<Option<u64>, SpeedError>
    requires some { 0 < publishers }
    requires eight { publishers ≤ 8 }
{
    let mut figures = Vec::new(alloc);
    for _ in 0..rounds {
        let figure = stream_figure(rt, alloc, geometry, publishers, messages)?;
        figures.push(figure)?;
    }
    Ok(median_of(figures.as_mut_slice()))
}

/// What each claim of a round took that was written and committed.
fn written_figure<R: Threads + Clock + Sync>(
    rt: &R,
    alloc: Global,
    geometry: Geometry,
    threads: usize,
) -> Result<u64, SpeedError>
    requires some { 0 < threads }
    requires eight { threads ≤ 8 }
{
    let filled = play_claims(rt, alloc, geometry, threads)?;
    let taken = filled.taken.ok_or(SpeedError::Clock)?;
    Ok(each(taken, filled.accepted))
}

/// Measures claims by so many threads that are written and committed, in so many rounds. The answer is the median, in
/// picoseconds for each of them.
pub fn measure_claims<R: Threads + Clock + Sync>(
    rt: &R,
    alloc: Global,
    geometry: Geometry,
    threads: usize,
    rounds: usize,
) -> Result<Option<u64>, SpeedError>
    requires some { 0 < threads }
    requires eight { threads ≤ 8 }
{
    let mut figures = Vec::new(alloc);
    for _ in 0..rounds {
        let figure = written_figure(rt, alloc, geometry, threads)?;
        figures.push(figure)?;
    }
    Ok(median_of(figures.as_mut_slice()))
}

/// Measures with 1, 2, 4 and 8 threads by turns, in so many rounds. The answer is the figures of each in this order.
pub fn measure<R: Threads + Clock + Sync>(
    rt: &R,
    alloc: Global,
    geometry: Geometry,
    rounds: usize,
) -> Result<[Option<Figures>; 4], SpeedError>
    ensures { IfOk result (λ all. AreByTurns all) }
{
    let mut all = All {
        one: no_samples(alloc, 1),
        two: no_samples(alloc, 2),
        four: no_samples(alloc, 4),
        eight: no_samples(alloc, 8),
    };
    for _ in 0..rounds {
        sample_all(rt, alloc, geometry, &mut all)?;
    }
    Ok([
        medians_of(&mut all.one),
        medians_of(&mut all.two),
        medians_of(&mut all.four),
        medians_of(&mut all.eight),
    ])
}
