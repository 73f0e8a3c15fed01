//! Why there is no claim.

ghost use Rattle.std.specs.Prelude.{◌≡◌, vec_capacity};
ghost use Rattle.claims.specs.Holdings.{IsClaimant};

use crate::claimant::Claimant;
use crate::equipped::Equipped;
use publication::Refusal;
use std::alloc::Global;

/// Why there is no claim, and the claimant, of which nothing is open.
#[derive(Drop)]
pub struct Denied {
    pub refusal: Refusal,
    pub claimant: Claimant,
}

impl Denied {
    pub(crate) fn new(refusal: Refusal, equipped: Box<Equipped, Global>) -> Denied
        requires { IsClaimant equipped.value.publisher (vec_capacity equipped.value.bytes) }
        ensures refusal { result.refusal ≡ refusal }
        ensures claimant { result.claimant ≡ equipped.value.publisher }
    {
        Denied {
            refusal,
            claimant: Claimant { equipped },
        }
    }
}
