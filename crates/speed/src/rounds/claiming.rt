//! Claims of one thread, and of several together.

ghost use Rattle.std.specs.Prelude.{◌≡◌, ◌≤◌, ◌∷◌, [], IfErr, IfOk, map};
ghost use Rattle.std.specs.List.{AllByRecursion};
ghost use Rattle.theory.specs.Position.{IsGeometry};
ghost use Rattle.log_rule.specs.Claims.Sums.{total};
ghost use Rattle.speed.specs.Rounds.{Claims, IsJob, IsLane, IsSender, claimant_in, job_parts, parts_of};

use crate::rounds::gate::{Gate, lap};
use crate::rounds::lane::{Lane, lane_of, taken_apart};
use crate::rounds::offering::SIZE;
use claims::{Claimant, Denied, try_claim, with_blocks};
use publication::Refusal;
use shared_log::Log;
use std::alloc::{AllocError, Global};
use std::thread::{Threads, join};
use std::time::{Clock, Instant};

/// Claims a range for a message, writes the message there, and commits it.
#[inline(always)]
fn claim_once(log: &Log, claimant: Claimant) -> Result<Claimant, Denied>
    requires sender { IsSender log.now claimant }
    requires legal { IsGeometry log.now.identity.geometry }
    ensures accepted { IfOk result (λ c. Claims log.now claimant 1 c) }
    ensures refused { IfErr result (λ d. Claims log.now claimant 0 d.claimant) }
{
    match try_claim(log, claimant, SIZE as u32) {
        Ok(mut claim) => {
            claim.bytes_mut().fill(97);
            Ok(claim.commit(log).0)
        }
        Err(denied) => Err(denied),
    }
}

/// Claims, writes and commits messages until a claim is refused, but for an administrative action, or 2^32 - 1 were tried. It
/// counts those that are accepted.
fn claim_all(log: &Log, claimant: Claimant) -> (Claimant, u32)
    requires { IsSender log.now claimant }
    ensures { Claims log.now claimant result.1 result.0 }
{
    // What always holds of it, for the proof.
    let _ = log.identity().geometry();
    let mut claimant = claimant;
    let mut accepted: u32 = 0;
    for _ in 0..u32::MAX {
        match claim_once(log, claimant) {
            Ok(rested) => {
                claimant = rested;
                accepted += 1;
            }
            Err(denied) => {
                let refusal = denied.refusal;
                claimant = denied.claimant;
                if refusal != Refusal::AdminAction {
                    break;
                }
            }
        }
    }
    (claimant, accepted)
}

/// A publisher with a block for the bytes of its claims, and whether it takes part in the round.
#[derive(Drop)]
pub(crate) struct Job {
    pub(crate) claimant: Claimant,
    pub(crate) takes_part: bool,
}

fn job_of(claimant: Claimant, takes_part: bool) -> Job
    ensures { result.claimant ≡ claimant }
{
    Job {
        claimant,
        takes_part,
    }
}

/// All of them; the first take part, so many.
fn with_parts(claimants: [Claimant; 8], threads: usize) -> [Job; 8]
    ensures { map claimant_in result ≡ claimants }
{
    let [zero, one, two, three, four, five, six, seven] = claimants;
    [
        job_of(zero, 0 < threads),
        job_of(one, 1 < threads),
        job_of(two, 2 < threads),
        job_of(three, 3 < threads),
        job_of(four, 4 < threads),
        job_of(five, 5 < threads),
        job_of(six, 6 < threads),
        job_of(seven, 7 < threads),
    ]
}

/// The publishers of all lanes, each with a block for a datagram of its log; the first take part, so many.
pub(crate) fn jobs_of(
    alloc: Global,
    log: &Log,
    lanes: [Lane; 8],
    threads: usize,
) -> Result<[Job; 8], AllocError>
    requires lanes { AllByRecursion (IsLane log.now) lanes }
    requires none { AllByRecursion (λ lane. lane.accepted ≡ 0) lanes }
    ensures jobs { IfOk result (λ jobs. AllByRecursion (IsJob log.now) jobs) }
    ensures parts { IfOk result (λ jobs. total job_parts jobs ≡ total parts_of lanes) }
{
    let (publishers, _) = taken_apart(lanes);
    let claimants = with_blocks(alloc, log, publishers)?;
    Ok(with_parts(claimants, threads))
}

/// Claims in one lane, from the common start on, if it takes part.
fn claim_from<R: Clock>(rt: &R, log: &Log, gate: &Gate, job: Job) -> Lane
    requires { IsJob log.now job }
    ensures lane { IsLane log.now result }
    ensures parts { parts_of result ≡ job_parts job }
{
    let Job {
        claimant,
        takes_part,
    } = job;
    if !takes_part {
        return lane_of(claimant.into_parts().0);
    }
    gate.pass();
    let began = Instant::now(rt);
    let (claimant, accepted) = claim_all(log, claimant);
    let lap = lap(began, Instant::now(rt));
    let (publisher, _) = claimant.into_parts();
    Lane {
        publisher,
        accepted,
        lap,
    }
}

/// Claims from two lanes, each in a thread of its own.
fn claim_two<R: Threads + Clock + Sync>(
    rt: &R,
    log: &Log,
    gate: &Gate,
    one: Job,
    other: Job,
) -> [Lane; 2]
    requires one { IsJob log.now one }
    requires other { IsJob log.now other }
    ensures lanes { AllByRecursion (IsLane log.now) result }
    ensures parts { total parts_of result ≡ total job_parts (one ∷ other ∷ []) }
{
    let (one, other) = join(
        rt,
        || -> Lane
            requires { IsJob log.now one }
            ensures { IsLane log.entry.now result × (parts_of result ≡ job_parts one) }
        { claim_from(rt, log, gate, one) },
        || -> Lane
            requires { IsJob log.now other }
            ensures { IsLane log.entry.now result × (parts_of result ≡ job_parts other) }
        { claim_from(rt, log, gate, other) },
    );
    [one, other]
}

/// Claims from four lanes, each in a thread of its own.
fn claim_four<R: Threads + Clock + Sync>(
    rt: &R,
    log: &Log,
    gate: &Gate,
    jobs: [Job; 4],
) -> [Lane; 4]
    requires { AllByRecursion (IsJob log.now) jobs }
    ensures lanes { AllByRecursion (IsLane log.now) result }
    ensures parts { total parts_of result ≡ total job_parts jobs }
{
    let [zero, one, two, three] = jobs;
    let (low, high) = join(
        rt,
        || -> [Lane; 2]
            requires { IsJob log.now zero × IsJob log.now one }
            ensures { AllByRecursion (IsLane log.entry.now) result × (total parts_of result ≡ total job_parts (zero ∷ one ∷ [])) }
        { claim_two(rt, log, gate, zero, one) },
        || -> [Lane; 2]
            requires { IsJob log.now two × IsJob log.now three }
            ensures { AllByRecursion (IsLane log.entry.now) result × (total parts_of result ≡ total job_parts (two ∷ three ∷ [])) }
        { claim_two(rt, log, gate, two, three) },
    );
    let [zero, one] = low;
    let [two, three] = high;
    [zero, one, two, three]
}

/// Claims from those of eight lanes that take part, each in a thread of its own.
pub(crate) fn claim_eight<R: Threads + Clock + Sync>(
    rt: &R,
    log: &Log,
    gate: &Gate,
    jobs: [Job; 8],
) -> [Lane; 8]
    requires { AllByRecursion (IsJob log.now) jobs }
    ensures lanes { AllByRecursion (IsLane log.now) result }
    ensures parts { total parts_of result ≡ total job_parts jobs }
{
    let [zero, one, two, three, four, five, six, seven] = jobs;
    let (low, high) = ([zero, one, two, three], [four, five, six, seven]);
    let (low, high) = join(
        rt,
        || -> [Lane; 4]
            requires { AllByRecursion (IsJob log.now) low }
            ensures { AllByRecursion (IsLane log.entry.now) result × (total parts_of result ≡ total job_parts low) }
        { claim_four(rt, log, gate, low) },
        || -> [Lane; 4]
            requires { AllByRecursion (IsJob log.now) high }
            ensures { AllByRecursion (IsLane log.entry.now) result × (total parts_of result ≡ total job_parts high) }
        { claim_four(rt, log, gate, high) },
    );
    let [zero, one, two, three] = low;
    let [four, five, six, seven] = high;
    [zero, one, two, three, four, five, six, seven]
}
