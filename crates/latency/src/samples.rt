//! The samples of a measurement, and what they tell.

ghost use Rattle.std.specs.Prelude.{◌≡◌, ◌-◌, ◌^◌, ◌<◌, ◌++◌, ◌∷◌, [], IfOk, OnOk, vec_len};
ghost use Rattle.latency.specs.Percentiles.{ArePercentilesOf};

use crate::fault::LatencyError;
use crate::percentiles::{Percentiles, percentiles_of};
use std::alloc::{AllocError, Global};

/// The times that messages took, in the order in which they were read, and the moment at which the last one was, all in
/// nanoseconds.
#[derive(Drop)]
pub struct Samples {
    pub taken: Vec<u64>,
    pub last: u64,
}

/// What was measured: how many messages were read, the nanoseconds from the begin to the last of them, and the percentiles
/// of the nanoseconds that they took.
#[derive(Clone, Copy)]
pub struct Timed {
    pub messages: u64,
    pub nanoseconds: u64,
    pub percentiles: Percentiles,
}

impl Samples {
    /// No samples, with room for so many. All of the room was written once, so that no sample waits for the system.
    pub fn new(alloc: Global, wanted: u64) -> Result<Samples, AllocError>
        ensures { IfOk result (λ s. vec_len s.taken ≡ 0) }
    {
        let mut taken = vec![in alloc; 0u64; wanted as usize]?;
        taken.clear();
        Ok(Samples { taken, last: 0 })
    }

    /// Takes the sample of a message that was stamped and read at these moments.
    pub fn take(&mut self, stamp: u64, now: u64) -> Result<(), AllocError>
        ensures taken { OnOk result (self.new.taken.items ≡ self.old.taken.items ++ (now - stamp) ∷ []) }
        ensures last { OnOk result (self.new.last ≡ now) }
    {
        self.taken.push(now.saturating_sub(stamp))?;
        self.last = now;
        Ok(())
    }
}

/// What the samples tell, if there are any.
pub fn timed_by(mut samples: Samples) -> Result<Timed, LatencyError>
    requires { vec_len samples.taken < 2 ^ 36 }
    ensures messages { IfOk result (λ t. t.messages ≡ vec_len samples.taken) }
    ensures nanoseconds { IfOk result (λ t. t.nanoseconds ≡ samples.last) }
    ensures percentiles { IfOk result (λ t. ArePercentilesOf samples.taken.items t.percentiles) }
{
    if samples.taken.is_empty() {
        return Err(LatencyError::Nothing);
    }
    Ok(Timed {
        messages: samples.taken.len() as u64,
        nanoseconds: samples.last,
        percentiles: percentiles_of(samples.taken.as_mut_slice()),
    })
}
