//! A sender with a way to each receiver of a group.

ghost use Rattle.shared_log.specs.Steps.Handles.{IsOf};
ghost use Rattle.shared_log.specs.Parts.{IsNewReader};
ghost use Rattle.agent_tests.specs.Senders.{IsFirstLog, IsSender};

use agent_tests::{
    Sender, carry, device_with, duty_over, member, open_group_sender, open_log, publish, receive,
};
use endpoint::{DeviceError, FailingDatagrams, Fan, MemoryDevice};
use receiver::Subscriber;
use shared_log::{Log, LogReader, Publisher};
use std::alloc::Global;
use std::process::Abort;
use std::test::*;

/// How many receivers there are.
const MEMBERS: usize = 3;

/// How many messages are published, each of 1,376 bytes, which fill a datagram.
const MESSAGES: u8 = 20;

/// The window of each receiver: two datagrams.
const WINDOW: u32 = 2816;

/// Nanoseconds from one round to the next.
const STEP: u64 = 50_000_000;

/// The round in which each receiver is heard for the first time.
const HEARD: u64 = 1;

/// The last round in which one that was heard then, and not since, counts: 5 s later.
const LAST: u64 = 101;

/// A way to a receiver: its subscriber, what waits for it and for the sender, how many messages it has polled, and whether each
/// was the next one of those published.
#[derive(Drop)]
struct Way {
    subscriber: Subscriber,
    to_receiver: Vec<Vec<u8>>,
    to_sender: Vec<Vec<u8>>,
    polled: u8,
    kept: bool,
    /// Whether all that goes along it is dropped.
    drops: bool,
}

/// The ways to receivers with the ids from 0 on that have met nothing.
fn open_ways(alloc: Global) -> Result<Vec<Way>, Fail> {
    let mut ways = Vec::new(alloc);
    for id in 0..MEMBERS {
        let way = Way {
            subscriber: member(alloc, id as i64, WINDOW),
            to_receiver: Vec::new(alloc),
            to_sender: Vec::new(alloc),
            polled: 0,
            kept: true,
            drops: false,
        };
        ways.push(way)?;
    }
    Ok(ways)
}

impl Way {
    /// A device to which has come what waits for the sender.
    fn take(&mut self, alloc: Global) -> Result<MemoryDevice, Fail> {
        let device = device_with(alloc, &self.to_sender)?;
        self.to_sender.clear();
        Ok(device)
    }

    /// What was sent along the way waits for the receiver.
    fn give(&mut self, alloc: Global, sent: &[Vec<u8>]) -> Result<(), Fail> {
        if !self.drops {
            carry(alloc, sent, &mut self.to_receiver)?;
        }
        Ok(())
    }

    /// The receiver's cycle, and what its subscriber polls then.
    fn turn(&mut self, alloc: Global, now: u64) -> Result<(), Fail> {
        let duty = receive(alloc, &mut self.subscriber, &self.to_receiver, now)?;
        self.to_receiver.clear();
        if !self.drops {
            carry(alloc, duty.device().sent(), &mut self.to_sender)?;
        }
        self.poll_all();
        Ok(())
    }

    /// Polls what is there.
    fn poll_all(&mut self) {
        for _ in 0..MESSAGES {
            let Ok(Some(message)) = self.subscriber.poll() else {
                return;
            };
            let is_next = message.bytes.iter().all(|byte| *byte == self.polled);
            self.kept = self.kept && message.bytes.len() == 1376 && is_next;
            self.polled = self.polled.saturating_add(1);
        }
    }
}

/// The devices to which has come what waits for the sender, one a way.
fn devices_of(alloc: Global, ways: &mut [Way]) -> Result<Vec<MemoryDevice>, Fail> {
    let mut devices = Vec::new(alloc);
    for way in ways.iter_mut() {
        devices.push(way.take(alloc)?)?;
    }
    Ok(devices)
}

/// The sender's cycle.
fn sender_turn(
    alloc: Global,
    sender: &mut Sender<'_>,
    ways: &mut [Way],
    now: u64,
) -> Result<(), Fail>
    requires { IsSender sender.old }
    ensures { IsSender sender.new }
{
    let fan = Fan::new(devices_of(alloc, ways)?);
    let mut duty = duty_over(alloc, fan, 1408)?;
    let _ = duty.cycle_ways(sender, now);
    for (index, way) in ways.iter_mut().enumerate() {
        if let Some(device) = duty.device().each().get(index) {
            way.give(alloc, device.sent())?;
        }
    }
    Ok(())
}

/// The sender's cycle, and then each receiver's.
fn round(alloc: Global, sender: &mut Sender<'_>, ways: &mut [Way], now: u64) -> Result<(), Fail>
    requires { IsSender sender.old }
    ensures { IsSender sender.new }
{
    sender_turn(alloc, sender, ways, now)?;
    for way in ways.iter_mut() {
        way.turn(alloc, now)?;
    }
    Ok(())
}

/// Rounds, the last of them not included.
fn rounds(
    alloc: Global,
    sender: &mut Sender<'_>,
    ways: &mut [Way],
    from: u64,
    to: u64,
) -> Result<(), Fail>
    requires { IsSender sender.old }
    ensures { IsSender sender.new }
{
    for number in from..to {
        round(alloc, sender, ways, number.saturating_mul(STEP))?;
    }
    Ok(())
}

/// Along the last way all is dropped from the moment on at which its receiver was heard. It holds the sender up for 5 s.
fn hold_up<R: Abort>(
    rt: &R,
    alloc: Global,
    sender: &mut Sender<'_>,
    ways: &mut [Way],
) -> Result<(), Fail>
    requires { IsSender sender.old }
    ensures { IsSender sender.new }
{
    rounds(alloc, sender, ways, 0, HEARD)?;
    if let Some(last) = ways.last_mut() {
        last.drops = true;
    }
    rounds(alloc, sender, ways, HEARD, LAST + 1)?;
    assert!(rt; sender.position() == u64::from(WINDOW));
    assert!(rt;
        ways.iter()
            .all(|way| way.polled == if way.drops { 0 } else { 2 })
    );
    Ok(())
}

/// A nanosecond later it doesn't, and then the others get all.
fn go_on<R: Abort>(
    rt: &R,
    alloc: Global,
    sender: &mut Sender<'_>,
    ways: &mut [Way],
) -> Result<(), Fail>
    requires { IsSender sender.old }
{
    round(alloc, sender, ways, LAST * STEP + 1)?;
    assert!(rt; sender.position() == 2 * u64::from(WINDOW));
    rounds(alloc, sender, ways, LAST + 1, LAST + 40)?;
    assert!(rt;
        ways.iter().all(|way| way.kept && way.polled == if way.drops { 0 } else { MESSAGES })
    );
    Ok(())
}

/// Both, over ways of their own.
fn fall_silent<R: Abort>(rt: &R, alloc: Global, sender: &mut Sender<'_>) -> Result<(), Fail>
    requires { IsSender sender.old }
{
    let mut ways = open_ways(alloc)?;
    hold_up(rt, alloc, sender, &mut ways)?;
    go_on(rt, alloc, sender, &mut ways)
}

/// The same, with the sender of this log.
fn fall_silent_over<R: Abort>(
    rt: &R,
    alloc: Global,
    log: &Log,
    reader: LogReader,
) -> Result<(), Fail>
    requires reader { IsNewReader log.now 0 reader }
    requires log { IsFirstLog log.now }
{
    let mut sender = open_group_sender(alloc, log, reader, MEMBERS)?;
    fall_silent(rt, alloc, &mut sender)
}

/// Offers the messages: of each, all bytes are its number, counted from 0.
fn publish_all(log: &Log, publisher: &mut Publisher)
    requires { IsOf log.now publisher.old }
{
    for value in 0..MESSAGES {
        let _ = publish(log, publisher, value, 1376);
    }
}

/// A receiver that falls silent holds the sender up for 5 s and no longer.
#[test]
fn one_falls_silent(rt: HostRuntime) -> Result<(), Fail> {
    let alloc = rt.alloc();
    let (log, mut publisher, reader) = open_log(alloc)?;
    publish_all(&log, &mut publisher);
    fall_silent_over(&rt, alloc, &log, reader)
}

/// The devices of three ways, of which the second fails its second call.
fn broken_second(alloc: Global) -> Result<Vec<FailingDatagrams<MemoryDevice>>, Fail> {
    let mut devices = Vec::new(alloc);
    for nth in [0, 2, 0] {
        devices.push(FailingDatagrams::new(MemoryDevice::new(alloc), nth))?;
    }
    Ok(devices)
}

/// A sender's first cycle, where the second way fails its first send: the first way has carried the SETUP, and the third wasn't
/// given it.
fn break_second<R: Abort>(rt: &R, alloc: Global, log: &Log, reader: LogReader) -> Result<(), Fail>
    requires reader { IsNewReader log.now 0 reader }
    requires log { IsFirstLog log.now }
{
    let mut sender = open_group_sender(alloc, log, reader, MEMBERS)?;
    let mut duty = duty_over(alloc, Fan::new(broken_second(alloc)?), 1408)?;
    let answer = duty.cycle_ways(&mut sender, 0);
    assert!(rt; answer == Err(DeviceError::Device));
    let counts = duty
        .device()
        .each()
        .iter()
        .map(|way| way.inner().sent().len());
    assert!(rt; counts.eq([1, 0, 0]));
    Ok(())
}

/// A fault of one way is the sender's.
#[test]
fn second_way_fails(rt: HostRuntime) -> Result<(), Fail> {
    let (log, _, reader) = open_log(rt.alloc())?;
    break_second(&rt, rt.alloc(), &log, reader)
}
