//! The thread that sends to all destinations, keeps the log, and decides the end.

ghost use Rattle.std.specs.Prelude.{◌≡◌, ◌≤◌, ◌||◌, nat_le, not, Err, IfErr, IfOk, IfSome, IsTrue, length, map};
ghost use Rattle.std.specs.List.{list_all};
ghost use Rattle.agents.specs.Conducting.{Conducts};
ghost use Rattle.agents.specs.LogSenders.{SendsLog};
ghost use Rattle.sender_meaning.specs.Moments.{CyclesAt};
ghost use Rattle.sender_meaning.specs.StreamLives.{StreamLived};
ghost use Rattle.endpoint.specs.declared.device_error.DeviceError.TheVariants.{Device};
ghost use Rattle.publisher.specs.Keeping.{KeepsLog};
ghost use Rattle.publisher.specs.Openings.{ArePasses, IsKept};
ghost use Rattle.publisher.specs.Progress.{end_to_tell, with_end_told};
ghost use Rattle.publisher.specs.declared.fault.PublishFault.TheVariants.{Failed};
ghost use Rattle.publisher.specs.Destinations.{begins_now, heard_count, is_heard_along, next_number, numbered_from, unnumbered, with_flow, with_number};
ghost use Rattle.publisher.specs.Endings.{is_broken_along};
ghost use Rattle.publisher.specs.Farewells.{TellsWhereDue};
ghost use Rattle.publisher.specs.Judges.{HasToldWhy, Judges};
ghost use Rattle.publisher.specs.Judging.{FailsBy, StaysEnded};
ghost use Rattle.publisher.specs.Seeing.{begun, seen_along};
ghost use Rattle.publisher.specs.Turns.{Begins, Cycles, EndsBehind, LivedAt, LivedToLast};

use crate::destination::{ChannelDevice, Destination, are_broken, begin_all, ending_along};
use crate::destination_lines::{tell_all_done, tell_counts, tell_ending, tell_news};
use crate::fault::PublishFault;
use crate::judging::{Judged, check_reading, end_in, messages_in, stream_end_in, tail_in};
use crate::offering::{OfferingState, Reading};
use crate::progress::Progress;
use crate::telling::{Line, tell};
use crate::two_threads::tell_all;
use agents::{Began, Duty, IdleStrategy, StreamSender, conduct};
use conductor::{Client, Conductor, Taker};
use endpoint::{Datagrams, DeviceError, Fan};
use flow_control::StreamFlow;
use options::{PublishPlan, SECOND};
use peer::StreamEnd;
use shared_log::Keeper;
use std::io::Write;
use std::net::SocketAddr;
use std::sync::Wait;
use std::time::Clock;

/// The id of a destination that is of no group.
const OUTSIDE: i64 = -1;

/// How many destinations there are at the most.
const MOST_DESTINATIONS: usize = 8;

/// Below this lies each position of a stream.
const MOST_POSITIONS: u64 = 1 << 63;

/// What a publisher sends with: all its destinations.
pub type Destinations<D> = Fan<Destination<ChannelDevice<D>>>;

/// The device of a sender with its room, its client of the queue, and the conductor's passes.
#[derive(Drop)]
pub struct SenderPasses<D> {
    pub client: Client,
    pub duty: Duty<D>,
    pub keeper: Keeper,
    pub taker: Taker,
}

/// What the thread that sends is lent: its plan, what it shares with the one that reads, the command queue, and the moment of
/// the begin.
#[derive(Drop)]
pub struct PublisherContext<'a, R> {
    pub rt: &'a R,
    pub plan: &'a PublishPlan,
    pub state: &'a OfferingState,
    pub conductor: &'a Conductor,
    pub began: Began,
}

/// What sends and keeps, and whom a line names that is about none of its destinations alone: the first of them.
#[derive(Drop)]
pub struct ChannelSender<'a, D> {
    pub agent: StreamSender<'a>,
    pub passes: SenderPasses<Destinations<D>>,
    pub peer: SocketAddr,
}

/// Sees what a cycle has shown of each destination of a stream that ends at `end`, if that is known, and tells what is new.
fn see_all<D: Datagrams, E: Write>(
    destinations: &mut [Destination<ChannelDevice<D>>],
    errors: &mut E,
    end: Option<u64>,
    linger: u64,
    now: u64,
)
    ensures { destinations.new ≡ map (seen_along end linger now) destinations.old }
{
    for destination in destinations.iter_mut() {
        let news = destination.see(end, linger, now);
        let _ = tell_news(errors, destination, news);
    }
}

/// Up to where the stream was sent, how many datagrams were sent again, to each destination the same, and how many were passed over,
/// of all, modulo 2^64. What else comes and goes is no work.
fn work_of<D: Datagrams>(sender: &ChannelSender<'_, D>) -> (u64, u64, u64) {
    let destinations = sender.passes.duty.device().each();
    let first = destinations.first();
    let resends = first.map_or(0, |destination| destination.device.tally().resends);
    let passed = destinations.iter().fold(0u64, |sum, destination| {
        sum.wrapping_add(destination.device.tally().passed)
    });
    (sender.agent.position(), resends, passed)
}

/// A cycle of the conductor, with what a sender keeps the log by. Whether there was work.
pub fn keep<R: Wait, D>(context: &PublisherContext<'_, R>, passes: &mut SenderPasses<D>) -> bool
    requires { ArePasses context.now.state.now.log context.now.conductor.now passes.old }
    ensures passes { ArePasses context.now.state.now.log context.now.conductor.now passes.new }
    ensures conducts { Conducts context.now.state.now.log passes.old.keeper passes.old.taker result passes.new.keeper passes.new.taker }
    ensures others { passes.new ≡ record passes.old { keeper = passes.new.keeper; taker = passes.new.taker } }
{
    conduct(
        context.rt,
        &context.state.log,
        &mut passes.keeper,
        context.conductor,
        &mut passes.taker,
    )
}

/// A cycle of the sender, with each destination told up to where the stream was sent, and one of the conductor; the stream ends at
/// `end`, if that is known. Whether there was work.
fn cycle<R: Wait + Clock, D: Datagrams, E: Write>(
    context: &PublisherContext<'_, R>,
    sender: &mut ChannelSender<'_, D>,
    errors: &mut E,
    end: Option<u64>,
    now: u64,
) -> Result<bool, PublishFault>
    requires agent { SendsLog context.now.state.now.log sender.old.agent }
    requires passes { ArePasses context.now.state.now.log context.now.conductor.now sender.old.passes }
    ensures agent { SendsLog context.now.state.now.log sender.new.agent }
    ensures lives { StreamLived 0 sender.old.agent.core sender.new.agent.core }
    ensures peer { sender.new.peer ≡ sender.old.peer }
    ensures passes { ArePasses context.now.state.now.log context.now.conductor.now sender.new.passes }
    ensures told { IfOk result (λ _. CyclesAt now sender.old.agent.core sender.new.agent.core) }
    ensures lived { IfOk result (λ _. LivedAt now sender.old sender.new) }
    ensures keeps { IfOk result (λ busy. KeepsLog context.now.state.now.log sender.old.passes busy sender.new.passes) }
    ensures cycles { IfOk result (λ _. Cycles end context.now.plan.now.linger now sender.old sender.new) }
{
    let position = sender.agent.position();
    begin_all(sender.passes.duty.device_mut().each_mut(), position);
    let before = work_of(sender);
    let passes = &mut sender.passes;
    let (client, duty) = (&mut passes.client, &mut passes.duty);
    sender
        .agent
        .cycle(context.rt, context.conductor, client, duty, now)?;
    let kept = keep(context, &mut sender.passes);
    let moved = work_of(sender) != before;
    let destinations = sender.passes.duty.device_mut().each_mut();
    see_all(destinations, errors, end, context.plan.linger, now);
    Ok(kept | moved)
}

/// Tells the receivers at all destinations where the stream ends, where the input has ended, all was sent, and it wasn't told for
/// 100 ms.
fn tell_end_where_due<D: Datagrams>(
    sender: &mut ChannelSender<'_, D>,
    progress: &mut Progress,
    end: Option<StreamEnd>,
    now: u64,
)
    ensures told { TellsWhereDue (end_to_tell progress.old end sender.old.agent.core.handler.at now) sender.old.passes.duty.device.ways sender.new.passes.duty.device.ways }
    ensures progress { progress.new ≡ with_end_told progress.old (end_to_tell progress.old end sender.old.agent.core.handler.at now) now }
    ensures agent { sender.new.agent ≡ sender.old.agent }
    ensures peer { sender.new.peer ≡ sender.old.peer }
    ensures passes { sender.new.passes ≡ record sender.old.passes { duty = record sender.old.passes.duty { device = sender.new.passes.duty.device } } }
{
    if let Some(end) = progress.end_to_tell(end, sender.agent.position(), now) {
        tell_all(&mut sender.passes.duty, end);
    }
}

/// How the reading has ended, if it has. Once it has, it stays so.
fn reading_after(state: &OfferingState, before: Option<Reading>) -> Option<Reading>
    ensures { StaysEnded before result }
{
    match before {
        None => state.reading(),
        Some(reading) => Some(reading),
    }
}

/// Tells what is due, where the reading has ended so, if it has. The answer is how the publisher ends, if it does.
///
/// The fault is `Device` where each call of each destination's device failed for the plan's linger, and the input's where no message
/// was accepted before it: no other.
#[tactic(auto, using(crate::proofs::Stopping::stopped, crate::proofs::Stopping::told))]
fn judge<R, D: Datagrams, E: Write>(
    context: &PublisherContext<'_, R>,
    destinations: &[Destination<ChannelDevice<D>>],
    reading: &Option<Reading>,
    progress: &mut Progress,
    errors: &mut E,
    now: u64,
) -> Result<Option<Judged>, PublishFault>
    ensures judges { IfOk result (λ answer. Judges progress.new reading.now destinations.now context.now.plan.now.linger context.now.plan.now.wait answer) }
    ensures told { IfOk result (λ answer. IfSome answer (HasToldWhy destinations.now)) }
    ensures broken { IsTrue (list_all is_broken_along destinations.now) → result ≡ Err (Failed Device) }
    ensures fails { IfErr result (FailsBy (list_all is_broken_along destinations.now) reading.now) }
    ensures ended { IfOk result (λ _. progress.new.ended ≡ progress.old.ended) }
{
    let (plan, state) = (context.plan, context.state);
    let messages = messages_in(reading, state.messages());
    let tail = tail_in(reading, state.tail());
    if are_broken(destinations) {
        return Err(PublishFault::Failed(DeviceError::Device));
    }
    check_reading(progress, reading, messages, errors)?;
    let end = end_in(reading);
    let ending = ending_along(destinations, end, plan.linger, plan.wait);
    tell_counts(
        context,
        progress,
        destinations,
        errors,
        now,
        ending.is_some(),
    );
    let Some(ending) = ending else {
        return Ok(None);
    };
    let told = tell_ending(errors, destinations, ending, end, plan.start, tail);
    tell_all_done(
        errors,
        destinations,
        messages,
        tail.saturating_sub(plan.start),
        now,
    );
    Ok(Some(Judged {
        ending,
        reading: *reading,
        told,
    }))
}

/// Whether somebody was heard there.
fn is_heard<D>(destination: &Destination<ChannelDevice<D>>) -> bool
    ensures { result ≡ is_heard_along destination.now }
{
    destination.device.attendance().present.is_some()
}

/// At how many destinations somebody was heard.
fn count_heard<D>(destinations: &[Destination<ChannelDevice<D>>]) -> usize
    ensures few { result ≤ length destinations.now }
    ensures heard { result ≡ heard_count destinations.now }
{
    let mut count = 0;
    for destination in destinations {
        if is_heard(destination) {
            count += 1;
        }
    }
    count
}

/// Gives a destination this number for its id, if somebody was heard there; else one that is of no group, and that is told.
fn number<D, E: Write>(
    destination: &mut Destination<ChannelDevice<D>>,
    errors: &mut E,
    number: u64,
    wait: u64,
)
    ensures kept { destination.new ≡ record destination.old { id = destination.new.id } }
    ensures numbered { destination.new ≡ with_number number destination.old }
{
    if is_heard(destination) {
        destination.id = Some(number.cast_signed());
        return;
    }
    destination.id = Some(OUTSIDE);
    let seconds = wait / SECOND;
    let _ = tell(errors, None, Line::LeftOut(destination.peer, seconds));
}

/// The number that comes behind this destination's.
fn next_number<D>(destination: &Destination<ChannelDevice<D>>, next: u64) -> u64
    ensures { result ≡ next_number next destination.now }
{
    if is_heard(destination) {
        next.wrapping_add(1)
    } else {
        next
    }
}

/// Numbers the destinations where somebody was heard from 0 on; the others are told.
fn number_heard<D, E: Write>(
    destinations: &mut [Destination<ChannelDevice<D>>],
    errors: &mut E,
    wait: u64,
)
    ensures kept { map unnumbered destinations.new ≡ map unnumbered destinations.old }
    ensures numbered { destinations.new ≡ numbered_from 0 destinations.old }
{
    let mut next: u64 = 0;
    for destination in destinations.iter_mut() {
        let behind = next_number(destination, next);
        number(destination, errors, next, wait);
        next = behind;
    }
}

/// Whether it begins now with those that were heard, at this position: it hasn't yet, the others weren't heard for as long as it
/// waits, and these can be a group.
fn begins_now(begun: bool, wait: u64, now: u64, heard: usize, position: u64) -> bool
    ensures { result ≡ begins_now begun wait now heard position }
{
    !begun && wait <= now && 0 < heard && heard <= MOST_DESTINATIONS && position < MOST_POSITIONS
}

/// Whether it goes on with all: it doesn't begin now, or all were heard.
fn keeps_all(begins: bool, heard: usize, all: usize) -> bool
    ensures { result ≡ (not begins || nat_le all heard) }
{
    !begins || all <= heard
}

/// Whether it has begun by then.
fn has_begun(begun: bool, begins: bool) -> bool
    ensures { result ≡ (begun || begins) }
{
    begun || begins
}

/// Numbers the destinations of what it sends with where somebody was heard.
fn number_all<D: Datagrams, E: Write>(duty: &mut Duty<Destinations<D>>, errors: &mut E, wait: u64)
    ensures same { duty.new ≡ record duty.old { device = duty.new.device } }
    ensures kept { map unnumbered duty.new.device.ways ≡ map unnumbered duty.old.device.ways }
    ensures numbered { duty.new.device.ways ≡ numbered_from 0 duty.old.device.ways }
{
    number_heard(duty.device_mut().each_mut(), errors, wait);
}

/// Begins with those that were heard, once the others weren't for as long as the plan waits: these are told, and hold nobody up
/// when they come. Nothing but SETUPs was sent before. Whether it has begun.
fn begin_with_heard<D: Datagrams, E: Write>(
    sender: &mut ChannelSender<'_, D>,
    errors: &mut E,
    begun: bool,
    wait: u64,
    now: u64,
) -> bool
    ensures agent { sender.new.agent ≡ with_flow sender.old.agent sender.new.agent.core.flow }
    ensures peer { sender.new.peer ≡ sender.old.peer }
    ensures passes { sender.new.passes ≡ record sender.old.passes { duty = record sender.old.passes.duty { device = sender.new.passes.duty.device } } }
    ensures kept { map unnumbered sender.new.passes.duty.device.ways ≡ map unnumbered sender.old.passes.duty.device.ways }
    ensures begins { Begins wait now begun sender.old result sender.new }
{
    let destinations = sender.passes.duty.device().each();
    let (heard, all) = (count_heard(destinations), destinations.len());
    let position = sender.agent.position();
    let begins = begins_now(begun, wait, now, heard, position);
    if keeps_all(begins, heard, all) {
        return has_begun(begun, begins);
    }
    number_all(&mut sender.passes.duty, errors, wait);
    sender
        .agent
        .set_flow(StreamFlow::new(position, Some(heard)));
    true
}

/// Sends and keeps until the publisher ends. The answer is how, by the receivers that its destinations have heard, and by how the
/// reading had ended then. However it ends, its core has lived on, and its log is kept.
#[tactic(auto, using(crate::proofs::Begun::sends_still))]
pub(crate) fn send_all<R: Wait + Clock, D: Datagrams, E: Write>(
    context: &PublisherContext<'_, R>,
    sender: &mut ChannelSender<'_, D>,
    errors: &mut E,
) -> Result<Judged, PublishFault>
    requires agent { SendsLog context.now.state.now.log sender.old.agent }
    requires passes { ArePasses context.now.state.now.log context.now.conductor.now sender.old.passes }
    ensures agent { SendsLog context.now.state.now.log sender.new.agent }
    ensures lives { StreamLived (length sender.old.passes.duty.device.ways) sender.old.agent.core sender.new.agent.core }
    ensures peer { sender.new.peer ≡ sender.old.peer }
    ensures told { IfOk result (λ _. LivedToLast sender.old sender.new) }
    ensures keeper { IsKept context.now.state.now.log sender.new.passes.keeper }
    ensures ends { IfOk result (EndsBehind context.now.plan.now sender.old sender.new) }
{
    let mut progress = Progress::new();
    let mut begun = false;
    let mut reading = None;
    let mut idle = IdleStrategy::new();
    for _ in context.rt.forever() {
        let now = context.began.moment(context.rt)?;
        reading = reading_after(context.state, reading);
        let busy = cycle(context, sender, errors, end_in(&reading), now)?;
        let destinations = sender.passes.duty.device().each();
        let judged = judge(context, destinations, &reading, &mut progress, errors, now)?;
        if let Some(judged) = judged {
            return Ok(judged);
        }
        begun = begin_with_heard(sender, errors, begun, context.plan.wait, now);
        let end = stream_end_in(&reading);
        tell_end_where_due(sender, &mut progress, end, now);
        idle.after(context.rt, busy);
    }
    unreachable!()
}
