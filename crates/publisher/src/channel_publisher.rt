//! A publisher from its begin to its end.

ghost use Rattle.std.specs.Prelude.{◌≡◌, ◌⊎◌, ◌≤◌, ◌<◌, Err, IfErr, IfOk, IfSome, Ok, Some, length, slice_index_or, true};
ghost use Rattle.std.specs.Arc.{arc_value};
ghost use Rattle.std.specs.Io.Buffered.{reader_remaining};
ghost use Rattle.position.specs.Openings.{IsStart};
ghost use Rattle.messages.specs.Fused.{fused_remaining};
ghost use Rattle.shared_log.specs.Parts.{IsNewReader};
ghost use Rattle.agents.specs.LogSenders.{SendsLog};
ghost use Rattle.endpoint.specs.declared.open_error.OpenError.{OpenError};
ghost use Rattle.endpoint.specs.declared.udp.Route.{Route};
ghost use Rattle.peer.specs.declared.attendance.Ending.TheVariants.{Short, Whole};
ghost use Rattle.publisher.specs.Beginnings.{ArePublisherParts};
ghost use Rattle.publisher.specs.Destinations.{AreDestinationsAlong, IsDestinationOf, id_of, peer_of, place_of, socket_along};
ghost use Rattle.publisher.specs.Ended.{ArrivesAt, IsBegun, LeavesLog, PublishesAll, reading_left};
ghost use Rattle.publisher.specs.Farewells.{are_told_alone, are_told_no_other};
ghost use Rattle.publisher.specs.Faults.{of_opening};
ghost use Rattle.publisher.specs.InputEnds.{EndsInput};
ghost use Rattle.publisher.specs.Judging.{fault_in, stream_end_in};
ghost use Rattle.publisher.specs.Shorts.{EndsShort, SaysItsShortfall};

use crate::beginning::{PublisherParts, channel_device, parts_over, planned_stream};
use crate::destination::{Calls, ChannelDevice, Destination};
use crate::fault::PublishFault;
use crate::log_end::{LogEnd, ending_closed, log_of};
use crate::offering::{OfferingState, start_reader};
use crate::progress::Progress;
use crate::sender_thread::{ChannelSender, Destinations, PublisherContext, SenderPasses};
use crate::telling::tell_if_unclosed;
use crate::two_threads::{Published, run};
use agents::{Began, open_stream_sender};
use endpoint::{Datagrams, DeviceError, Fan, OpenError, Route};
use messages::FusedReader;
use options::PublishPlan;
use peer::{Awaited, Ending, TiedDevice};
use sender_meaning::stream_keeps_its_reader;
use shared_log::{Keeper, LogFrames, LogReader, Publisher};
use std::alloc::Global;
use std::io::{BufRead, BufReader, Read, Write};
use std::net::{Net, SocketAddr};
use std::sync::{Arc, Wait};
use std::thread::Threads;
use std::time::Clock;

/// The place of a destination among so many; none where it is the only one.
fn place_of(many: usize, number: usize) -> Option<u8>
    requires { number < 8 }
    ensures { result ≡ place_of many number }
{
    if many > 1 { Some(number as u8) } else { None }
}

/// The id of a destination at this place.
fn id_of(place: Option<u8>) -> Option<i64>
    ensures { result ≡ id_of place }
{
    match place {
        None => None,
        Some(number) => Some(i64::from(number)),
    }
}

/// A destination at this place over a device, where nothing has gone yet.
fn destination_over<D: Datagrams>(
    alloc: Global,
    plan: &PublishPlan,
    place: Option<u8>,
    peer: SocketAddr,
    device: D,
) -> Destination<ChannelDevice<D>>
    ensures { IsDestinationOf plan.now place peer device result }
{
    Destination {
        device: channel_device(alloc, plan, place, device),
        id: id_of(place),
        peer,
        before: Calls { nones: 0, lost: 0 },
        progress: Progress::new(),
        silence: None,
        unheard: 0,
        quiet: false,
        behind: None,
        broken: false,
    }
}

/// Why there is no device along this route: the system refuses a socket, or memory was refused.
fn fault_along(route: &Route, error: OpenError) -> PublishFault
    ensures { result ≡ of_opening route.now error }
{
    match error {
        OpenError::Refused(number) => PublishFault::NoSocket(*route, number),
        OpenError::Memory => PublishFault::Failed(DeviceError::Memory),
    }
}

/// The device along a route, which waits for the plan's stream's start.
fn connected<R: Net>(
    rt: &R,
    alloc: Global,
    plan: &PublishPlan,
    route: &Route,
) -> Result<TiedDevice, PublishFault>
    ensures waits { IfOk result (λ t. t ≡ socket_along plan.now route.now) }
    ensures refused { IfErr result (λ fault. (error : OpenError) × (fault ≡ of_opening route.now error)) }
{
    let awaited = Awaited {
        sent: planned_stream(plan),
        start: plan.start,
    };
    match TiedDevice::along(rt, alloc, route, awaited) {
        Ok(device) => Ok(device),
        Err(error) => Err(fault_along(route, error)),
    }
}

/// A destination along each route, in order.
fn destinations_along<R: Net>(
    rt: &R,
    alloc: Global,
    plan: &PublishPlan,
    routes: &[Route],
) -> Result<Vec<Destination<ChannelDevice<TiedDevice>>>, PublishFault>
    requires { length routes.now ≤ 8 }
    ensures { IfOk result (λ destinations. AreDestinationsAlong plan.now routes.now destinations.items) }
{
    let mut destinations = Vec::new(alloc);
    for route in routes {
        let number = destinations.as_slice().len();
        let place = place_of(routes.len(), number);
        let device = connected(rt, alloc, plan, route)?;
        let destination = destination_over(alloc, plan, place, route.peer, device);
        if destinations.push(destination).is_err() {
            return Err(PublishFault::Failed(DeviceError::Memory));
        }
    }
    Ok(destinations)
}

/// What the threads share, once for each. The fault is that memory was refused.
fn shared(
    alloc: Global,
    state: OfferingState,
) -> Result<(Arc<OfferingState>, Arc<OfferingState>), PublishFault>
    ensures { IfOk result (λ s. (arc_value s.0 ≡ state) × (arc_value s.1 ≡ state)) }
{
    let Ok(ours) = Arc::new(alloc, state) else {
        return Err(PublishFault::Failed(DeviceError::Memory));
    };
    let theirs = Arc::try_clone(&ours)?;
    Ok((ours, theirs))
}

/// What sends and keeps, from the log's start. How many destinations there are chooses its flow control, and nothing else.
fn opened<'a, D: Datagrams + Drop>(
    alloc: Global,
    state: &'a OfferingState,
    reader: LogReader,
    passes: SenderPasses<Destinations<D>>,
    peer: SocketAddr,
) -> Result<ChannelSender<'a, D>, PublishFault>
    requires reader { IsNewReader state.now.log 0 reader }
    requires start { IsStart state.now.log.identity.geometry state.now.log.start }
    requires consumers { 0 < state.now.log.consumers }
    requires few { length passes.duty.device.ways ≤ 8 }
    ensures new { IfOk result (IsBegun state.now.log passes peer) }
    ensures sends { IfOk result (λ s. SendsLog state.now.log s.agent × (s.passes ≡ passes)) }
{
    let destinations = passes.duty.device().each().len();
    let agent = open_stream_sender(alloc, &state.log, reader, destinations)?;
    Ok(ChannelSender {
        agent,
        passes,
        peer,
    })
}

/// The keeper that a sender has, and its reader.
fn passes_of<D: Drop>(sender: ChannelSender<'_, D>) -> (Keeper, LogReader)
    ensures { result ≡ (sender.entry.passes.keeper, sender.entry.agent.core.reads.reader) }
{
    let ChannelSender {
        agent,
        passes,
        peer: _,
    } = sender;
    let LogFrames { log: _, reader } = agent.into_core().into_reads();
    (passes.keeper, reader)
}

/// Runs with all that a publisher to at most 8 destinations begins with, over any devices to them. What is left of its log comes
/// back. The faults are those of `publish`, but for `NoSocket`.
pub fn publish_over<
    R: Threads + Wait + Clock + Send + Copy + 'static,
    I: BufRead + Send + Drop + 'static,
    D: Datagrams + Drop,
    E: Write,
>(
    rt: &R,
    alloc: Global,
    plan: &PublishPlan,
    parts: PublisherParts<Destinations<D>>,
    input: I,
    errors: &mut E,
) -> Result<(Published<I>, LogEnd), PublishFault>
    requires parts { ArePublisherParts plan.now parts }
    requires few { length parts.passes.duty.device.ways ≤ 8 }
    ensures leaves { IfOk result (λ e. LeavesLog parts.state.log (length parts.passes.duty.device.ways) e.1) }
    ensures input { IfOk result (λ e. IfSome e.0.input (λ left. EndsInput plan.now.end.form parts.state.log (I.remaining input) (I.remaining left.input) parts.publisher.pass left.publisher left.reading)) }
    // Where it ends whole, each destination's own device has noted that all has arrived there.
    ensures whole { IfOk result (λ e. e.0.ending ≡ Ok Whole → ArrivesAt parts.state.log parts.passes parts.peer plan.now (reading_left e.0.input) e.0.attendances.items e.0.ends.items) }
    // A message that couldn't be read is a fault, however the sending went.
    ensures faulted { IfOk result (λ e. IfSome (fault_in (reading_left e.0.input)) (λ fault. e.0.ending ≡ Err fault)) }
    // Where it ends whole no device was given an end to tell but the reading's.
    ensures told { IfOk result (λ e. e.0.ending ≡ Ok Whole → are_told_alone plan.now.geometry (stream_end_in (reading_left e.0.input)) e.0.ends.items ≡ true) }
    // Where it ends without a fault no device was given another end to tell.
    ensures no_other { IfOk result (λ e. IfOk e.0.ending (λ _. are_told_no_other plan.now.geometry (stream_end_in (reading_left e.0.input)) e.0.ends.items ≡ true)) }
    // Where it ends short a line has said why.
    ensures short { IfOk result (λ e. e.0.ending ≡ Ok Short → EndsShort parts.state.log parts.passes plan.now parts.peer e.0.told) }
{
    let PublisherParts {
        began,
        peer,
        state,
        conductor,
        publisher,
        others,
        reader,
        passes,
    } = parts;
    // A law that the proof cites.
    stream_keeps_its_reader();
    let (ours, theirs) = shared(alloc, state)?;
    let context = PublisherContext {
        rt,
        plan,
        state: &ours,
        conductor: &conductor,
        began,
    };
    let mut sender = opened(alloc, context.state, reader, passes, peer)?;
    let form = plan.end.form;
    let Some(reading) = start_reader(rt, alloc, form, theirs, input, publisher) else {
        return Err(PublishFault::NoThread);
    };
    let published = run(alloc, &context, &mut sender, reading, errors)?;
    let (keeper, reader) = passes_of(sender);
    let end = LogEnd {
        log: log_of(ours),
        others,
        keeper,
        reader,
    };
    Ok((published, end))
}

/// All that a publisher begins with, over a destination along each route.
fn prepared<R: Net + Clock>(
    rt: &R,
    alloc: Global,
    plan: &PublishPlan,
    routes: &[Route],
) -> Result<PublisherParts<Destinations<TiedDevice>>, PublishFault>
    requires some { 0 < length routes.now }
    requires few { length routes.now ≤ 8 }
    ensures parts { IfOk result (λ p. ArePublisherParts plan.now p) }
    ensures destinations { IfOk result (λ p. AreDestinationsAlong plan.now routes.now p.passes.duty.device.ways) }
    ensures peer { IfOk result (λ p. (first : Route) × (first ≡ slice_index_or routes.now 0 first) × (p.peer ≡ peer_of first)) }
{
    let began = Began::now(rt)?;
    let destinations = destinations_along(rt, alloc, plan, routes)?;
    let first = routes[0].peer;
    parts_over(alloc, plan, began, first, Fan::new(destinations))
}

/// The input with a buffer, its end read once.
#[tactic(auto, using(crate::proofs::Beginnings::unbuffered))]
pub fn buffered<I: Read + Drop>(
    alloc: Global,
    input: I,
) -> Result<BufReader<FusedReader<I>>, PublishFault>
    ensures { IfOk result (λ r. reader_remaining (fused_remaining I.remaining) r ≡ I.remaining input) }
{
    match BufReader::new(alloc, FusedReader::new(input)) {
        Ok(input) => Ok(input),
        Err(_) => Err(PublishFault::Failed(DeviceError::Memory)),
    }
}

/// Publishes the messages of the input as planned, along each of 1 to 8 routes to a destination, and answers how it ended: whole
/// where each of them has written all. Another receiver that comes, that nobody does, a fault of the input, why it gave up, an empty
/// input and the counters are lines of `errors`: where it ends short a line says why. What is about one of several destinations names
/// its address.
///
/// Every datagram goes to each. One destination's limit is what its receiver allows, whoever that is. Of several it is the least of
/// what those that are heard allow, once each was heard; one that is silent for five seconds holds the others up no longer.
///
/// Where its input has ended, by its end or a fault, and all was sent, it tells where the stream ends: each 100 ms until all is
/// acknowledged, and five times at its own end. Behind a fault it tells that the stream is broken off there. Where it ends whole it
/// has told no other end than the input's, and none at which the stream is broken off.
///
/// It waits for nobody but receivers: where it ends the input may still be read, by a thread of its own that ends with the
/// process, or at its next message. It ends whole only where all of the input was read, and its log is closed then.
///
/// The fault is `Input` where a message couldn't be read, and what came before it was delivered or given up on, `Full` at
/// the stream's last position, `NoSocket` where the system refused one along a route, `NoThread` where it refused a thread,
/// `Device` where the clock couldn't be read or each call of each socket failed for the plan's linger, and `Memory` where memory
/// was refused.
pub fn publish<
    R: Threads + Wait + Clock + Net + Sync + Send + Copy + 'static,
    I: Read + Send + Drop + 'static,
    E: Write,
>(
    rt: &R,
    alloc: Global,
    plan: &PublishPlan,
    routes: &[Route],
    input: I,
    errors: &mut E,
) -> Result<Ending, PublishFault>
    requires some { 0 < length routes.now }
    requires few { length routes.now ≤ 8 }
    ensures whole { result ≡ Ok Whole → PublishesAll plan.now routes.now (I.remaining input) }
    ensures short { result ≡ Ok Short → SaysItsShortfall plan.now routes.now }
{
    let input = buffered(alloc, input)?;
    let parts = prepared(rt, alloc, plan, routes)?;
    let first = parts.peer;
    let (published, end) = publish_over(rt, alloc, plan, parts, input, errors)?;
    let Published {
        ending: sent,
        told,
        attendances: _,
        ends: _,
        input,
    } = published;
    let ending = ending_closed(sent, input, end);
    let _why = tell_if_unclosed(errors, first, told, &sent, &ending);
    ending
}
