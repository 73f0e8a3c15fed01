//! A log that opens, with publishers that claim.

ghost use Rattle.std.specs.Prelude.{◌≡◌, ◌↔◌, ◌∷◌, [], IfErr, IfOk, IsErrOf};
ghost use Rattle.std.specs.List.{AllByRecursion};
ghost use Rattle.publication.specs.Steps.{geometry_of};
ghost use Rattle.position.specs.Openings.{IsConsumerCount, IsStart};
ghost use Rattle.shared_log.specs.Faults.{OfOpening};
ghost use Rattle.shared_log.specs.Steps.Handles.{IsLogOf, IsOf};
ghost use Rattle.shared_log.specs.Parts.{AreDealt};
ghost use Rattle.claims.specs.Holdings.{IsResting};

use crate::claimant::Claimant;
use position::Geometry;
use shared_log::{Keeper, Log, LogError, LogReader, Publisher};
use std::alloc::{AllocError, Global};

/// All passes of a log that was just opened.
#[derive(Drop)]
pub struct Parts {
    /// By their numbers, 0 to 7.
    pub claimants: [Claimant; 8],
    /// As many as were asked for, by their numbers, all at the start.
    pub readers: Vec<LogReader>,
    pub keeper: Keeper,
}

/// A publisher with a block of its own, of this MTU.
fn equip(alloc: Global, publisher: Publisher, mtu: usize) -> Result<Claimant, AllocError>
    requires rests { IsResting publisher }
    requires short { (geometry_of publisher.pass).mtu ≡ mtu }
    ensures { IfOk result (λ c. c ≡ publisher) }
{
    let block = Vec::with_capacity(alloc, mtu)?;
    Claimant::new(alloc, publisher, block)
}

/// The same of each of four.
fn equip_four(
    alloc: Global,
    zero: Publisher,
    one: Publisher,
    two: Publisher,
    three: Publisher,
    mtu: usize,
) -> Result<[Claimant; 4], AllocError>
    requires rest { AllByRecursion IsResting (zero ∷ one ∷ two ∷ three ∷ []) }
    requires short { AllByRecursion (λ p. (geometry_of p.pass).mtu ≡ mtu) (zero ∷ one ∷ two ∷ three ∷ []) }
    ensures { IfOk result (λ cs. cs ≡ zero ∷ one ∷ two ∷ three ∷ []) }
{
    let zero = equip(alloc, zero, mtu)?;
    let one = equip(alloc, one, mtu)?;
    let two = equip(alloc, two, mtu)?;
    let three = equip(alloc, three, mtu)?;
    Ok([zero, one, two, three])
}

/// Publishers of a log, each with a block of its own. The error comes only where memory is refused.
pub fn with_blocks(
    alloc: Global,
    log: &Log,
    publishers: [Publisher; 8],
) -> Result<[Claimant; 8], AllocError>
    requires of { AllByRecursion (IsOf log.now) publishers }
    requires rest { AllByRecursion IsResting publishers }
    ensures { IfOk result (λ cs. cs ≡ publishers) }
{
    let mtu = log.identity().geometry().mtu() as usize;
    let [zero, one, two, three, four, five, six, seven] = publishers;
    let front = equip_four(alloc, zero, one, two, three, mtu);
    let back = equip_four(alloc, four, five, six, seven, mtu);
    let (front, back) = (front?, back?);
    let [zero, one, two, three] = front;
    let [four, five, six, seven] = back;
    Ok([zero, one, two, three, four, five, six, seven])
}

/// A log that opens at a position, unconnected, with its limit and so many consumers at the start, and all its passes; each
/// publisher has a block. The start is judged first, then the number of consumers; then memory is asked for.
pub fn open(
    alloc: Global,
    geometry: Geometry,
    session: i32,
    stream: i32,
    start: u64,
    consumers: usize,
) -> Result<(Log, Parts), LogError>
    ensures log { IfOk result (λ r. IsLogOf (record { geometry = geometry; session = session; stream = stream }) start consumers r.0) }
    ensures parts { IfOk result (λ r. AreDealt r.0 r.1.claimants r.1.readers.items r.1.keeper) }
    ensures start { IsErrOf result LogError.Start ↔ (¬ IsStart geometry start) }
    ensures consumers { IsErrOf result LogError.Consumers ↔ (IsStart geometry start × (¬ IsConsumerCount consumers)) }
    ensures in_range { IfOk result (λ _. IsStart geometry start × IsConsumerCount consumers) }
    ensures memory { IsErrOf result LogError.Memory → IsStart geometry start × IsConsumerCount consumers }
    ensures opens { IfErr result OfOpening }
{
    let (log, parts) = shared_log::open(alloc, geometry, session, stream, start, consumers)?;
    let shared_log::Parts {
        publishers,
        readers,
        keeper,
    } = parts;
    let claimants = with_blocks(alloc, &log, publishers)?;
    let parts = Parts {
        claimants,
        readers,
        keeper,
    };
    Ok((log, parts))
}
