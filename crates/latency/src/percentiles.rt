//! Percentiles of samples.

ghost use Rattle.std.specs.Prelude.{◌≡◌, ◌*◌, ◌^◌, ◌<◌, ◌≤◌, IsPermutation, IsSorted, length};
ghost use Rattle.std.specs.Ordering.{nat_cmp};
ghost use Rattle.latency.specs.Percentiles.{ArePercentiles, percentile_of};

/// Samples in order: those at the indices that are 500, 900, 990 and 999 thousandths of the last one's, rounded down; and the
/// greatest of all.
#[derive(Clone, Copy)]
pub struct Percentiles {
    pub p50: u64,
    pub p90: u64,
    pub p99: u64,
    pub p999: u64,
    pub greatest: u64,
}

/// The sample at the index that is so many thousandths of the last one's, rounded down.
#[tactic(auto, using(crate::proofs::Shares::index_fits, crate::proofs::Shares::index_inside))]
pub fn percentile(sorted: &[u64], thousandths: usize) -> u64
    requires some { 0 < length sorted.now }
    requires few { 1000 * length sorted.now < 2 ^ 64 }
    requires share { thousandths ≤ 1000 }
    ensures { result ≡ percentile_of sorted.now thousandths }
{
    sorted[thousandths * (sorted.len() - 1) / 1000]
}

/// The percentiles of some samples, which are sorted for it.
pub fn percentiles_of(samples: &mut [u64]) -> Percentiles
    requires some { 0 < length samples.old }
    requires few { 1000 * length samples.old < 2 ^ 64 }
    ensures permutation { IsPermutation samples.old samples.new }
    ensures sorted { IsSorted nat_cmp samples.new }
    ensures are { ArePercentiles samples.new result }
{
    samples.sort_unstable();
    Percentiles {
        p50: percentile(samples, 500),
        p90: percentile(samples, 900),
        p99: percentile(samples, 990),
        p999: percentile(samples, 999),
        greatest: percentile(samples, 1000),
    }
}
