//! A sender and a receiver between which one call fails: each of the first hundred in turn.

ghost use Rattle.std.specs.Prelude.{◌≡◌, IfOk};
ghost use Rattle.shared_log.specs.Steps.Handles.{IsOf};
ghost use Rattle.shared_log.specs.Parts.{IsNewReader};
ghost use Rattle.agent_tests.specs.Senders.{IsFirstLog, IsSender};

use crate::{
    Agent, along, carry, device_with, duty_over, listening, open_agent, open_log, publish,
};
use agents::{CYCLE_DATAGRAMS, REPLY};
use conductor::{Client, Conductor};
use endpoint::{Datagrams, DeviceError, FailingDatagrams, MemoryDevice};
use receiver::Subscriber;
use shared_log::{Log, LogReader, Publisher};
use std::alloc::Global;
use std::sync::Wait;
use std::test::*;

/// How many messages are published, each of 1,376 bytes, which fill a datagram.
const MESSAGES: u8 = 20;

/// How many cycles each party has at the most.
const ROUNDS: u64 = 40;

/// How many datagrams come to each party in each of its cycles: if fewer were sent, others that can't be read.
const COME: usize = 12;

/// Nanoseconds from one cycle to the next.
const STEP: u64 = 50_000_000;

/// What waits for a party, and which call of its device fails, counted from the next one; none at 0.
#[derive(Drop)]
struct Wire {
    came: Vec<Vec<u8>>,
    fails: u64,
}

impl Wire {
    fn new(alloc: Global, fails: u64) -> Wire {
        Wire {
            came: Vec::new(alloc),
            fails,
        }
    }
}

/// The wires of both, how many messages were polled, and whether each was the next of those published and each cycle
/// answered as its device did.
#[derive(Drop)]
struct Between {
    alloc: Global,
    sender: Wire,
    receiver: Wire,
    polled: u8,
    told: bool,
}

impl Between {
    /// Nothing was sent yet.
    fn new(alloc: Global, sends: u64, receives: u64) -> Between {
        Between {
            alloc,
            sender: Wire::new(alloc, sends),
            receiver: Wire::new(alloc, receives),
            polled: 0,
            told: true,
        }
    }

    /// The calls that fail were come to, and all messages were polled.
    fn is_done(&self) -> bool {
        self.sender.fails == 0 && self.receiver.fails == 0 && self.polled == MESSAGES
    }
}

type Broken = FailingDatagrams<MemoryDevice>;

/// A device with what waits on a wire.
fn device_of(alloc: Global, wire: &mut Wire) -> Result<Broken, Fail> {
    for _ in wire.came.len()..COME {
        wire.came.push(Vec::from_slice(alloc, &[0])?)?;
    }
    let device = device_with(alloc, &wire.came)?;
    Ok(FailingDatagrams::new(device, wire.fails))
}

/// Behind a cycle what was received waits no more, and its calls are counted.
fn count(own: &mut Wire, device: &Broken) {
    let inner = device.inner();
    let others = (inner.sent().len() as u64).saturating_add(inner.nones());
    let waiting = own.came.len().min(CYCLE_DATAGRAMS) as u64;
    let (received, fails) = if device.failures() > 0 {
        (own.fails.saturating_sub(others).saturating_sub(1), 0)
    } else {
        (
            waiting,
            own.fails.saturating_sub(others).saturating_sub(waiting),
        )
    };
    for _ in 0..received {
        if !own.came.is_empty() {
            own.came.remove(0);
        }
    }
    own.fails = fails;
}

/// What was sent waits for the peer.
fn pass_on(alloc: Global, device: &Broken, peer: &mut Wire) -> Result<(), Fail> {
    Ok(carry(alloc, device.inner().sent(), &mut peer.came)?)
}

/// Whether a cycle's answer is its device's.
fn is_told(answer: Result<bool, DeviceError>, device: &Broken) -> bool {
    if device.failures() > 0 {
        answer == Err(DeviceError::Device)
    } else {
        answer.is_ok()
    }
}

/// The sender's cycle.
fn sender_turn<R: Wait>(
    rt: &R,
    agent: &mut Agent<'_>,
    conductor: &Conductor,
    client: &mut Client,
    between: &mut Between,
    now: u64,
) -> Result<(), Fail>
    requires sender { IsSender agent.old.core }
    requires client { client.old.queue ≡ conductor.now }
    ensures sender { IsSender agent.new.core }
    ensures client { client.new.queue ≡ client.old.queue }
{
    let device = along(
        between.alloc,
        device_of(between.alloc, &mut between.sender)?,
    )?;
    let mut duty = duty_over(between.alloc, device, 1408)?;
    let answer = agent.cycle(rt, conductor, client, &mut duty, now);
    for device in duty.device().each() {
        between.told = between.told && is_told(answer, device);
        count(&mut between.sender, device);
        pass_on(between.alloc, device, &mut between.receiver)?;
    }
    Ok(())
}

/// The receiver's cycle.
fn receiver_turn(subscriber: &mut Subscriber, between: &mut Between, now: u64) -> Result<(), Fail> {
    let device = device_of(between.alloc, &mut between.receiver)?;
    let mut duty = duty_over(between.alloc, device, REPLY)?;
    let answer = duty.cycle(subscriber, now);
    let device = duty.device();
    between.told = between.told && is_told(answer, device);
    count(&mut between.receiver, device);
    pass_on(between.alloc, device, &mut between.sender)
}

/// All cycles, in turn, until all is done.
fn turns<R: Wait>(
    rt: &R,
    agent: &mut Agent<'_>,
    conductor: &Conductor,
    client: &mut Client,
    subscriber: &mut Subscriber,
    between: &mut Between,
) -> Result<(), Fail>
    requires sender { IsSender agent.old.core }
    requires client { client.old.queue ≡ conductor.now }
    ensures sender { IsSender agent.new.core }
    ensures client { client.new.queue ≡ client.old.queue }
{
    for round in 0..ROUNDS {
        let now = round * STEP;
        sender_turn(rt, agent, conductor, client, between, now)?;
        receiver_turn(subscriber, between, now)?;
        poll_all(subscriber, between);
        if between.is_done() {
            return Ok(());
        }
    }
    Ok(())
}

/// Polls what is there.
fn poll_all(subscriber: &mut Subscriber, between: &mut Between) {
    for _ in 0..MESSAGES {
        let Ok(Some(message)) = subscriber.poll() else {
            return;
        };
        let bytes = message.bytes.as_slice();
        let is_next = bytes.iter().all(|byte| *byte == between.polled);
        between.told = between.told && bytes.len() == 1376 && is_next;
        between.polled = between.polled.saturating_add(1);
    }
}

/// Offers the messages: of each, all bytes are its number, counted from 0.
fn publish_all(log: &Log, publisher: &mut Publisher)
    requires { IsOf log.now publisher.old }
{
    for value in 0..MESSAGES {
        let _ = publish(log, publisher, value, 1376);
    }
}

/// A log's messages are sent by the one and polled by the other, over devices of which these calls fail. Whether all were
/// polled, in order, each cycle answered as its device did, and the calls that fail were come to.
fn heals<R: Wait>(rt: &R, alloc: Global, sends: u64, receives: u64) -> Result<bool, Fail> {
    let (log, mut publisher, reader) = open_log(alloc)?;
    publish_all(&log, &mut publisher);
    heals_over(rt, alloc, &log, reader, [sends, receives])
}

/// The same, of a log that has its messages.
fn heals_over<R: Wait>(
    rt: &R,
    alloc: Global,
    log: &Log,
    reader: LogReader,
    fails: [u64; 2],
) -> Result<bool, Fail>
    requires reader { IsNewReader log.now 0 reader }
    requires log { IsFirstLog log.now }
{
    let mut agent = open_agent(alloc, log, reader)?;
    heals_by(rt, alloc, &mut agent, fails)
}

/// The same, by this agent.
fn heals_by<R: Wait>(
    rt: &R,
    alloc: Global,
    agent: &mut Agent<'_>,
    fails: [u64; 2],
) -> Result<bool, Fail>
    requires { IsSender agent.old.core }
{
    let mut between = Between::new(alloc, fails[0], fails[1]);
    play(rt, alloc, agent, &mut between)?;
    Ok(between.told && between.is_done())
}

/// All cycles, with a subscriber of their own.
fn play<R: Wait>(
    rt: &R,
    alloc: Global,
    agent: &mut Agent<'_>,
    between: &mut Between,
) -> Result<(), Fail>
    requires { IsSender agent.old.core }
    ensures { IsSender agent.new.core }
{
    let mut subscriber = listening(alloc);
    play_with(rt, alloc, agent, &mut subscriber, between)
}

/// All cycles, with a queue of their own.
fn play_with<R: Wait>(
    rt: &R,
    alloc: Global,
    agent: &mut Agent<'_>,
    subscriber: &mut Subscriber,
    between: &mut Between,
) -> Result<(), Fail>
    requires { IsSender agent.old.core }
    ensures { IsSender agent.new.core }
{
    let (conductor, mut clients, _) = Conductor::new(alloc)?;
    turns(rt, agent, &conductor, &mut clients[0], subscriber, between)
}

/// Whether all heals where the sender's device fails such a call, and where the receiver's does.
fn each_heals<R: Wait>(rt: &R, alloc: Global) -> Result<bool, Fail> {
    let mut healed = true;
    for nth in 1..=100 {
        healed = healed && heals(rt, alloc, nth, 0)? && heals(rt, alloc, 0, nth)?;
    }
    Ok(healed)
}

/// A device fails its first call, or its second, up to its hundredth.
#[test]
fn a_call_fails(rt: HostRuntime) -> Result<(), Fail> {
    assert!(rt; each_heals(&rt, rt.alloc())?);
    Ok(())
}
