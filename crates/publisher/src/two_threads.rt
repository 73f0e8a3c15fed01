//! The two threads of a publisher: one reads messages and offers them, the other sends, keeps the log and decides the end.

ghost use Rattle.std.specs.Prelude.{◌≡◌, Err, IfOk, IfSome, Ok, length, map, true};
ghost use Rattle.agents.specs.LogSenders.{SendsLog};
ghost use Rattle.sender_meaning.specs.StreamLives.{StreamLived};
ghost use Rattle.peer.specs.declared.attendance.Ending.TheVariants.{Short, Whole};
ghost use Rattle.publisher.specs.Ended.{AllHaveArrived, reading_left};
ghost use Rattle.publisher.specs.Endings.{heard_along};
ghost use Rattle.publisher.specs.Farewells.{AreTold, TellsFarewell, are_told_alone, are_told_no_other, ending_told, ending_unless_another, ends_along, farewell_in, has_told_alone, has_told_no_other, noted, told_times};
ghost use Rattle.publisher.specs.InputEnds.{EndsInput};
ghost use Rattle.publisher.specs.Judging.{ended_by, fault_in, is_read, stream_end_in};
ghost use Rattle.publisher.specs.Openings.{ArePasses, IsKept};
ghost use Rattle.publisher.specs.Turns.{SaysWhy};
ghost use Rattle.publisher.specs.Whys.{told_by};

use crate::destination::{ChannelDevice, Destination};
use crate::destination_lines::tell_each_refused;
use crate::fault::PublishFault;
use crate::judging::{Judged, fault_in, stream_end_in};
use crate::offering::{InputEnd, Reader, Reading, ReadingEnd};
use crate::sender_thread::{ChannelSender, Destinations, PublisherContext, send_all};
use crate::telling::{ToldShortfall, tell_if_elsewhere};
use agents::Duty;
use endpoint::{Datagrams, DeviceError};
use peer::{Attendance, Ending, StreamEnd, ToldEnds};
use position::Geometry;
use std::alloc::{AllocError, Global};
use std::io::{BufRead, Write};
use std::sync::Wait;
use std::thread;
use std::thread::Threads;
use std::time::{Clock, Duration};

/// How many times the stream's end is told.
const FAREWELLS: u32 = 5;

/// Milliseconds from one time to the next.
const FAREWELL_PAUSE: u64 = 20;

/// How a publisher ended: whom it had heard then at each destination, and where its reading had ended too, what is left of that.
#[derive(Drop)]
pub struct Published<I> {
    pub ending: Result<Ending, PublishFault>,
    /// The line that said why it ended short, where it did: the last one, where several destinations have one.
    pub told: Option<ToldShortfall>,
    pub attendances: Vec<Attendance>,
    /// The ends of its stream that the device of each destination was given to tell.
    pub ends: Vec<Option<ToldEnds>>,
    pub input: Option<InputEnd<I>>,
}

/// Whether all of the input was read, and what was accepted of it is what the end was judged by.
fn is_read(reading: &Option<Reading>, judged: &Option<Reading>) -> bool
    ensures { result ≡ is_read reading.now judged.now }
{
    match (reading, judged) {
        (Some(reading), Some(judged)) => {
            matches!(reading.ended, Ok(ReadingEnd::All))
                && reading.offered.messages == judged.offered.messages
                && reading.offered.tail == judged.offered.tail
        }
        _ => false,
    }
}

/// How a publisher ended, by how its reading did, if it has, and by what was sent. The reading goes first: a message that
/// couldn't be read is a fault however the sending went.
fn ended(
    reading: &Option<Reading>,
    sent: Result<Judged, PublishFault>,
) -> Result<Ending, PublishFault>
    ensures { result ≡ ended_by reading.now sent }
{
    if let Some(fault) = fault_in(reading) {
        return Err(fault);
    }
    match sent {
        Ok(judged) => {
            if is_read(reading, &judged.reading) {
                return Ok(judged.ending);
            }
            Ok(Ending::Short)
        }
        Err(fault) => Err(fault),
    }
}

/// What is left of the input, where its reading has ended. Its thread has nothing more to do then, and is joined.
fn input_end<R: Threads, I: BufRead + Drop, C>(
    rt: &R,
    context: &PublisherContext<'_, C>,
    reader: Reader<I>,
) -> Option<InputEnd<I>>
    ensures { IfSome result (λ e. EndsInput reader.handle.promise.form reader.handle.promise.log.value (I.remaining reader.handle.promise.input.value) (I.remaining e.input) reader.handle.promise.publisher.value.pass e.publisher e.reading) }
{
    if context.state.reading().is_none() {
        return None;
    }
    Some(reader.join(rt))
}

/// The stream's end that is told, if one is: the reading's, unless it was stopped. One whose device, thread or clock failed tells
/// none.
fn farewell_in(
    reading: &Option<Reading>,
    ending: &Result<Ending, PublishFault>,
) -> Option<StreamEnd>
    ensures { result ≡ farewell_in reading.now ending.now }
{
    match *ending {
        Err(PublishFault::Failed(_) | PublishFault::NoSocket(_, _) | PublishFault::NoThread) =>
            None,
        _ => stream_end_in(reading),
    }
}

/// Whether a device that told ends told this one alone. The stream's shape bounds it.
fn has_told_alone(ends: Option<ToldEnds>, geometry: &Geometry, end: Option<StreamEnd>) -> bool
    ensures { result ≡ has_told_alone ends geometry.now end }
{
    match (ends, end) {
        (Some(ends), Some(end)) => {
            let last = end.position.min(geometry.max_position());
            ends.least == last && ends.greatest == last && ends.broken == end.broken
        }
        _ => false,
    }
}

/// Whether a device told no end but this one, if any. The stream's shape bounds it.
fn has_told_no_other(ends: Option<ToldEnds>, geometry: &Geometry, end: Option<StreamEnd>) -> bool
    ensures { result ≡ has_told_no_other ends geometry.now end }
{
    ends.is_none() || has_told_alone(ends, geometry, end)
}

/// How it ended, by whether its device told no other end than the reading's: else that is a fault, whoever was told.
fn ending_unless_another(
    ending: Result<Ending, PublishFault>,
    no_other: bool,
) -> Result<Ending, PublishFault>
    ensures { result ≡ ending_unless_another ending no_other }
{
    match ending {
        Ok(_) if !no_other => Err(PublishFault::Failed(DeviceError::Device)),
        _ => ending,
    }
}

/// How it ended, by whether its device told the reading's end alone: whole only then.
fn ending_told(
    ending: Result<Ending, PublishFault>,
    told_alone: bool,
) -> Result<Ending, PublishFault>
    ensures { result ≡ ending_told ending told_alone }
{
    match ending {
        Ok(ending) if told_alone => Ok(ending),
        Ok(_) => Ok(Ending::Short),
        Err(fault) => Err(fault),
    }
}

/// How the reading ended that is left.
fn reading_left<I>(input: &Option<InputEnd<I>>) -> Option<Reading>
    ensures { result ≡ reading_left input.now }
{
    match *input {
        None => None,
        Some(ref left) => Some(left.reading),
    }
}

/// The line that was given as the sending was judged.
fn told_of(sent: &Result<Judged, PublishFault>) -> Option<ToldShortfall>
    ensures { result ≡ told_by sent.now }
{
    match *sent {
        Ok(ref judged) => judged.told,
        Err(_) => None,
    }
}

/// Whom each destination has heard.
fn attendances_of<D: Datagrams>(
    alloc: Global,
    destinations: &[Destination<ChannelDevice<D>>],
) -> Result<Vec<Attendance>, AllocError>
    ensures { IfOk result (λ all. all.items ≡ map heard_along destinations.now) }
{
    destinations
        .iter()
        .map(|destination| destination.device.attendance())
        .collect(alloc)
}

/// The ends of the stream that the device of each destination was given to tell.
fn ends_of<D: Datagrams>(
    alloc: Global,
    destinations: &[Destination<ChannelDevice<D>>],
) -> Result<Vec<Option<ToldEnds>>, AllocError>
    ensures { IfOk result (λ all. all.items ≡ map ends_along destinations.now) }
{
    destinations
        .iter()
        .map(|destination| destination.device.ends())
        .collect(alloc)
}

/// Whether each device told this end alone.
fn are_told_alone(ends: &[Option<ToldEnds>], geometry: &Geometry, end: Option<StreamEnd>) -> bool
    ensures { result ≡ are_told_alone geometry.now end ends.now }
{
    ends.iter().all(|told| has_told_alone(*told, geometry, end))
}

/// Whether no device told an end but this one.
fn are_told_no_other(ends: &[Option<ToldEnds>], geometry: &Geometry, end: Option<StreamEnd>) -> bool
    ensures { result ≡ are_told_no_other geometry.now end ends.now }
{
    ends.iter()
        .all(|told| has_told_no_other(*told, geometry, end))
}

/// Tells the receiver along a destination where the stream ends.
fn tell<D: Datagrams>(destination: &mut Destination<ChannelDevice<D>>, end: StreamEnd)
    ensures { noted destination.new ≡ told_times 1 end (noted destination.old) }
{
    destination.device.tell_end(end);
}

/// Tells the receivers along all destinations where the stream ends, whatever becomes of it along the others.
pub(crate) fn tell_each<D: Datagrams>(
    destinations: &mut [Destination<ChannelDevice<D>>],
    end: StreamEnd,
)
    ensures { AreTold 1 end destinations.old destinations.new }
{
    for destination in destinations.iter_mut() {
        tell(destination, end);
    }
}

/// The same over what it sends with.
pub(crate) fn tell_all<D: Datagrams>(duty: &mut Duty<Destinations<D>>, end: StreamEnd)
    ensures same { duty.new ≡ record duty.old { device = duty.new.device } }
    ensures told { AreTold 1 end duty.old.device.ways duty.new.device.ways }
{
    tell_each(duty.device_mut().each_mut(), end);
}

/// Tells the receivers along all destinations where the stream ends: five times, 20 ms apart.
fn bid_farewell<R: Clock, D: Datagrams>(
    rt: &R,
    duty: &mut Duty<Destinations<D>>,
    end: Option<StreamEnd>,
)
    ensures { TellsFarewell end duty.old.device.ways duty.new.device.ways }
{
    let Some(end) = end else {
        return;
    };
    tell_all(duty, end);
    for _count in 1..FAREWELLS {
        let _ = thread::sleep(rt, Duration::from_millis(FAREWELL_PAUSE));
        tell_all(duty, end);
    }
}

/// Sends until the publisher ends, and tells the stream's end unless that is by a fault. Where the reading has ended by then, its
/// thread is joined.
pub(crate) fn run<R: Threads + Wait + Clock, I: BufRead + Drop, D: Datagrams, E: Write>(
    alloc: Global,
    context: &PublisherContext<'_, R>,
    sender: &mut ChannelSender<'_, D>,
    reader: Reader<I>,
    errors: &mut E,
) -> Result<Published<I>, PublishFault>
    requires agent { SendsLog context.now.state.now.log sender.old.agent }
    requires passes { ArePasses context.now.state.now.log context.now.conductor.now sender.old.passes }
    ensures agent { SendsLog context.now.state.now.log sender.new.agent }
    ensures lives { StreamLived (length sender.old.passes.duty.device.ways) sender.old.agent.core sender.new.agent.core }
    ensures keeper { IsKept context.now.state.now.log sender.new.passes.keeper }
    ensures input { IfOk result (λ p. IfSome p.input (λ e. EndsInput reader.handle.promise.form reader.handle.promise.log.value (I.remaining reader.handle.promise.input.value) (I.remaining e.input) reader.handle.promise.publisher.value.pass e.publisher e.reading)) }
    // Whom its devices have heard, and which ends they were given to tell.
    ensures noted { IfOk result (λ p. (p.attendances.items ≡ map heard_along sender.new.passes.duty.device.ways) × (p.ends.items ≡ map ends_along sender.new.passes.duty.device.ways)) }
    ensures whole { IfOk result (λ p. p.ending ≡ Ok Whole → AllHaveArrived context.now.plan.now sender.old (reading_left p.input) p.attendances.items p.ends.items) }
    // A message that couldn't be read is a fault, however the sending went.
    ensures faulted { IfOk result (λ p. IfSome (fault_in (reading_left p.input)) (λ fault. p.ending ≡ Err fault)) }
    ensures told { IfOk result (λ p. p.ending ≡ Ok Whole → are_told_alone context.now.plan.now.geometry (stream_end_in (reading_left p.input)) p.ends.items ≡ true) }
    // Where it ends without a fault no device has told an end but the reading's.
    ensures no_other { IfOk result (λ p. IfOk p.ending (λ _. are_told_no_other context.now.plan.now.geometry (stream_end_in (reading_left p.input)) p.ends.items ≡ true)) }
    // Where it ends short a line has said why.
    ensures short { IfOk result (λ p. p.ending ≡ Ok Short → SaysWhy context.now.plan.now sender.old p.told) }
{
    let sent = send_all(context, sender, errors);
    let line = told_of(&sent);
    context.state.stop();
    tell_each_refused(errors, sender.passes.duty.device().each());
    let input = input_end(context.rt, context, reader);
    let reading = reading_left(&input);
    let ending = ended(&reading, sent);
    let end = farewell_in(&reading, &ending);
    bid_farewell(context.rt, &mut sender.passes.duty, end);
    let destinations = sender.passes.duty.device().each();
    let attendances = attendances_of(alloc, destinations)?;
    let ends = ends_of(alloc, destinations)?;
    let geometry = &context.plan.geometry;
    let announced = stream_end_in(&reading);
    let told_alone = are_told_alone(ends.as_slice(), geometry, announced);
    let no_other = are_told_no_other(ends.as_slice(), geometry, announced);
    let ending = ending_unless_another(ending_told(ending, told_alone), no_other);
    Ok(Published {
        told: tell_if_elsewhere(errors, sender.peer, line, &ending),
        ending,
        attendances,
        ends,
        input,
    })
}
