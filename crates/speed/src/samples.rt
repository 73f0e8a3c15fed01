//! What was measured.

ghost use Rattle.std.specs.Prelude.{◌≡◌, ◌<◌, ◌≤◌};

use std::alloc::Global;

/// What was measured with so many threads, a figure for each round, in picoseconds: for each claim, and for as many plain
/// stores as one makes.
#[derive(Drop)]
pub(crate) struct Samples {
    pub(crate) threads: usize,
    pub(crate) claims: Vec<u64>,
    pub(crate) stores: Vec<u64>,
    pub(crate) ghost some: { 0 < threads },
    pub(crate) ghost eight: { threads ≤ 8 },
}

/// The samples with 1, 2, 4 and 8 threads.
#[derive(Drop)]
pub(crate) struct All {
    pub(crate) one: Samples,
    pub(crate) two: Samples,
    pub(crate) four: Samples,
    pub(crate) eight: Samples,
}

pub(crate) fn no_samples(alloc: Global, threads: usize) -> Samples
    requires some { 0 < threads }
    requires eight { threads ≤ 8 }
    ensures { result.threads ≡ threads }
{
    Samples {
        threads,
        claims: Vec::new(alloc),
        stores: Vec::new(alloc),
    }
}
