//! What a publisher begins with.

ghost use Rattle.std.specs.Prelude.{◌≡◌, IfErr, IfOk, None};
ghost use Rattle.publisher.specs.Beginnings.{ArePublisherParts, device_of, reach_of, seed_of};
ghost use Rattle.publisher.specs.Openings.{identity_of};

use crate::destination::ChannelDevice;
use crate::fault::PublishFault;
use crate::offering::OfferingState;
use crate::sender_thread::SenderPasses;
use agents::{Began, Duty, LogPasses, open_log};
use conductor::Conductor;
use endpoint::{Datagrams, DeviceError};
use loss_injector::Lossy;
use options::PublishPlan;
use peer::{Attended, PatientDevice};
use position::Identity;
use shared_log::{LogReader, Publisher};
use std::alloc::Global;
use std::net::SocketAddr;

/// What a publisher begins with over a device, but for its sender's agent.
#[derive(Drop)]
pub struct PublisherParts<D> {
    pub began: Began,
    /// Whom its lines name.
    pub peer: SocketAddr,
    pub state: OfferingState,
    pub conductor: Conductor,
    pub publisher: Publisher,
    /// The log's other publishers, which publish nothing.
    pub others: Vec<Publisher>,
    pub reader: LogReader,
    pub passes: SenderPasses<D>,
}

/// Which stream a plan sends, and its shape.
pub(crate) fn planned_stream(plan: &PublishPlan) -> Identity
    ensures { result ≡ identity_of plan.now }
{
    Identity::new(plan.geometry, plan.session, plan.end.stream)
}

/// Where the random words of a destination begin: the plan's seed, or that and its number among several.
fn seed_of(plan: &PublishPlan, place: Option<u8>) -> u64
    ensures { result ≡ seed_of plan.now place }
{
    let number = place.unwrap_or(0);
    plan.end.seed.wrapping_add(u64::from(number))
}

/// How many bytes behind the sender's position a frame can be sent again, where there are several destinations.
fn reach_of(plan: &PublishPlan, place: Option<u8>) -> Option<u64>
    ensures { result ≡ reach_of plan.now place }
{
    match place {
        None => None,
        Some(_) => Some(3 * u64::from(plan.geometry.term_length()) / 4),
    }
}

/// What a publisher sends with over a device: what fails is lost, losses are made on purpose, and what comes is screened and
/// noted. `place` is the number of its destination among several, and none where it is the only one.
pub(crate) fn channel_device<D: Datagrams>(
    alloc: Global,
    plan: &PublishPlan,
    place: Option<u8>,
    device: D,
) -> ChannelDevice<D>
    ensures { result ≡ device_of plan.now place device }
{
    let patient = PatientDevice::new(device);
    let lossy = Lossy::new(alloc, patient, plan.end.rates, seed_of(plan, place));
    Attended::new(
        lossy,
        planned_stream(plan),
        plan.start,
        reach_of(plan, place),
    )
}

/// The device with its room.
fn duty_over<D: Drop>(alloc: Global, plan: &PublishPlan, device: D) -> Result<Duty<D>, DeviceError>
    ensures made { IfOk result (λ d. d ≡ record { device = device; mtu = plan.now.geometry.mtu }) }
    ensures refused { IfErr result (λ error. error ≡ DeviceError.Memory) }
{
    Ok(Duty::new(alloc, device, plan.geometry.mtu())?)
}

/// All that a publisher to this peer begins with, over what it sends with. It fails only where memory is refused.
pub fn parts_over<D: Drop>(
    alloc: Global,
    plan: &PublishPlan,
    began: Began,
    peer: SocketAddr,
    device: D,
) -> Result<PublisherParts<D>, PublishFault>
    ensures parts { IfOk result (λ p. ArePublisherParts plan.now p) }
    ensures device { IfOk result (λ p. p.passes.duty.device ≡ device) }
    ensures peer { IfOk result (λ p. p.peer ≡ peer) }
    ensures refused { IfErr result (λ fault. fault ≡ PublishFault.Failed DeviceError.Memory) }
{
    let duty = duty_over(alloc, plan, device)?;
    let (conductor, client, taker) = Conductor::with_client(alloc)?;
    let identity = planned_stream(plan);
    let LogPasses {
        log,
        mut publishers,
        reader,
        keeper,
    } = open_log(alloc, identity, plan.start)?;
    let publisher = publishers.remove(0);
    Ok(PublisherParts {
        began,
        peer,
        state: OfferingState::new(log),
        conductor,
        publisher,
        others: publishers,
        reader,
        passes: SenderPasses {
            client,
            duty,
            keeper,
            taker,
        },
    })
}
