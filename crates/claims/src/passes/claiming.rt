//! A publisher with its log and an open claim.

ghost use Rattle.std.specs.Prelude.{◌≡◌, ◌+◌, ◌≤◌, ◌∷◌, [], IfErr, IfOk, OnOk, length};
ghost use Rattle.std.specs.Arc.{arc_value};
ghost use Rattle.theory.specs.Placed.{Data, Pad};
ghost use Rattle.shared_log.specs.Steps.Handles.{IsOf};
ghost use Rattle.claims.specs.Holdings.{end_of, size_of};
ghost use Rattle.claims.specs.Passes.Parts.{with_part};

use crate::armed::try_claim;
use crate::claim::Claim;
use crate::passes::fault::Fault;
use crate::passes::publishing::PublisherPass;
use shared_log::Log;
use std::alloc::Global;
use std::sync::Arc;

/// A publisher with an open claim, and its share of the log. It is spent by `commit` or by `abort`: readers wait before
/// the claim. One that is dropped is aborted.
pub struct ClaimPass {
    pub log: Arc<Log, Global>,
    pub claim: Claim,
    ghost fits: { IsOf (arc_value log) claim.publisher },
}

impl PublisherPass {
    ghost use Rattle.claims.specs.Passes.Claiming.{DeclinesClaim, Opens, Writes};

    /// Claims a range for a message of `size` bytes, zeros at first. Where it is denied, the publisher comes back with the cause:
    /// `Long` or `Refused`.
    pub fn claim(self, size: usize) -> Result<ClaimPass, (Fault, PublisherPass)>
        ensures opened { IfOk result (λ c. Opens self size c) }
        ensures declined { IfErr result (λ d. DeclinesClaim self size d.0 d.1) }
    {
        let PublisherPass { log, claimant } = self;
        if size > log.identity().geometry().max_payload() as usize {
            return Err((Fault::Long, PublisherPass { log, claimant }));
        }
        match try_claim(&log, claimant, size as u32) {
            Ok(claim) => Ok(ClaimPass { log, claim }),
            Err(denied) => {
                let claimant = denied.claimant;
                Err((
                    Fault::Refused(denied.refusal),
                    PublisherPass { log, claimant },
                ))
            }
        }
    }
}

/// Writes bytes into others, from an offset on.
fn write_at(bytes: &mut [u8], offset: usize, part: &[u8])
    requires { offset + length part.now ≤ length bytes.old }
    ensures { bytes.new ≡ with_part bytes.old offset part.now }
{
    bytes[offset..offset + part.len()].copy_from_slice(part);
}

impl ClaimPass {
    ghost use Rattle.claims.specs.Passes.Claiming.{DeclinesPart, Ends, Writes};

    /// Writes bytes into the message, from an offset on. The fault is `Outside`, where they aren't inside it: nothing is written.
    pub fn write(&mut self, offset: usize, part: &[u8]) -> Result<(), Fault>
        ensures written { OnOk result (Writes self.old offset part.now self.new) }
        ensures declined { IfErr result (λ fault. DeclinesPart self.old offset (length part.now) fault self.new) }
    {
        let size = self.claim.bytes().len();
        if offset > size || part.len() > size - offset {
            return Err(Fault::Outside);
        }
        write_at(self.claim.bytes_mut(), offset, part);
        Ok(())
    }

    /// The position at which the claim begins.
    pub fn start(&self) -> u64
        ensures { result ≡ self.now.claim.start }
    {
        self.claim.start()
    }

    /// Commits the message. The answer is the publisher and the position behind the claim.
    pub fn commit(self) -> (PublisherPass, u64)
        ensures committed { Ends self (Data 192 self.claim.bytes) result.0 }
        ensures end { result.1 ≡ end_of self.claim }
    {
        let ClaimPass { log, claim } = self;
        let (claimant, end) = claim.commit(&log);
        (PublisherPass { log, claimant }, end)
    }

    /// Makes the claim a padding of the same range. The answer is the publisher and the position behind the claim.
    pub fn abort(self) -> (PublisherPass, u64)
        ensures aborted { Ends self (Pad (32 + size_of self.claim)) result.0 }
        ensures end { result.1 ≡ end_of self.claim }
    {
        let ClaimPass { log, claim } = self;
        let (claimant, end) = claim.abort(&log);
        (PublisherPass { log, claimant }, end)
    }
}

impl Drop for ClaimPass {
    fn drop(self) {
        self.abort();
    }
}
