//! The threads, joined.

ghost use Rattle.std.specs.Prelude.{◌≡◌, ◌⊎◌, ◌++◌, [], ◌∷◌, Err, IfErr, IfOk, IsOk, Ok, OnOk};
ghost use Rattle.endpoint.specs.declared.device_error.DeviceError.TheVariants.{Memory};
ghost use Rattle.run_parties.specs.Passes.{IsKept};
ghost use Rattle.run_parties.specs.Receivers.{HasReceived};

use crate::passes::{Agents, Parties, Returned};
use crate::thread_starts::{Agent, Receiving, Steering};
use endpoint::{Datagrams, DeviceError};
use run_parties::Received;
use shared_log::Keeper;
use std::thread::Threads;

/// The keeper that comes back.
fn keeper_of<R: Threads, G>(
    agents: &Agents<'_, R, G>,
    started: Result<Steering, DeviceError>,
) -> Result<Keeper, DeviceError>
    requires { IfOk started (λ h. h.promise.log.value ≡ agents.now.context.now.state.now.log) }
    ensures kept { IfOk result (λ k. IsKept agents.now.context.now.state.now.log k) }
    ensures fault { IfErr started (λ f. result ≡ Err f) }
{
    match started {
        Ok(handle) => Ok(handle.join(agents.context.rt)),
        Err(fault) => Err(fault),
    }
}

/// What a receiver has left.
pub(crate) fn received_of<R: Threads, D: Datagrams + Drop, G>(
    agents: &Agents<'_, R, G>,
    started: Result<Receiving<D>, DeviceError>,
) -> Result<Received<D>, DeviceError>
    ensures lived { IfOk started (λ s. IfOk result (HasReceived D.device D.tells s.handle.promise.log.value.identity.geometry s.handle.promise.size.receivers s.handle.promise.size.wanted s.handle.promise.number s.handle.promise.device.value)) }
    ensures started { OnOk result (IsOk started) }
    ensures fault { IfErr started (λ f. result ≡ Err f) }
{
    match started {
        Ok(receiving) => receiving.handle.join(agents.context.rt),
        Err(fault) => Err(fault),
    }
}

/// How the sender ended.
fn end_of<R: Threads, G>(
    agents: &Agents<'_, R, G>,
    started: Result<Agent, DeviceError>,
) -> Result<(), DeviceError>
    ensures { IfErr started (λ f. result ≡ Err f) }
{
    match started {
        Ok(handle) => handle.join(agents.context.rt),
        Err(fault) => Err(fault),
    }
}

/// What came back, and one receiver more; or the first fault.
pub(crate) fn with_received<D: Drop>(
    parties: Result<Parties<D>, DeviceError>,
    one: Result<Received<D>, DeviceError>,
) -> Result<Parties<D>, DeviceError>
    ensures published { IfOk parties (λ p. IfOk result (λ r. r.published ≡ p.published)) }
    ensures received { IfOk parties (λ p. IfOk one (λ t. IfOk result (λ r. r.received.items ≡ p.received.items ++ t ∷ []))) }
    ensures both { OnOk result (IsOk parties × IsOk one) }
    ensures fault { IfErr result (λ f. (parties ≡ Err f) ⊎ (one ≡ Err f) ⊎ (f ≡ Memory)) }
    ensures first { IfErr parties (λ f. result ≡ Err f) }
{
    let Parties {
        published,
        mut received,
    } = parties?;
    if received.push(one?).is_err() {
        return Err(DeviceError::Memory);
    }
    Ok(Parties {
        published,
        received,
    })
}

/// What all gave back, or the first fault.
fn returned<D: Drop>(
    parties: Result<Parties<D>, DeviceError>,
    keeper: Result<Keeper, DeviceError>,
    sent: Result<(), DeviceError>,
) -> Result<Returned<D>, DeviceError>
    ensures backs { IfOk result (λ p. (parties ≡ Ok p.parties) × (keeper ≡ Ok p.keeper)) }
    ensures ends { OnOk result (IsOk sent) }
    ensures fault { IfErr result (λ f. (parties ≡ Err f) ⊎ (keeper ≡ Err f) ⊎ (sent ≡ Err f)) }
    ensures first { IfErr parties (λ f. result ≡ Err f) }
{
    let returned = Returned {
        parties: parties?,
        keeper: keeper?,
    };
    sent?;
    Ok(returned)
}

/// Joins the threads of the conductor and of the sender; of publishers and receivers this came back.
pub(crate) fn gather<R: Threads, D: Drop, G>(
    agents: &Agents<'_, R, G>,
    parties: Result<Parties<D>, DeviceError>,
    conductor: Result<Steering, DeviceError>,
    sender: Result<Agent, DeviceError>,
) -> Result<Returned<D>, DeviceError>
    requires keeper { IfOk conductor (λ h. h.promise.log.value ≡ agents.now.context.now.state.now.log) }
    ensures parties { IfOk result (λ p. parties ≡ Ok p.parties) }
    ensures keeper { IfOk result (λ p. IsKept agents.now.context.now.state.now.log p.keeper) }
    ensures started { OnOk result (IsOk conductor × IsOk sender) }
    ensures first { IfErr parties (λ f. result ≡ Err f) }
{
    let keeper = keeper_of(agents, conductor);
    let sent = end_of(agents, sender);
    returned(parties, keeper, sent)
}
