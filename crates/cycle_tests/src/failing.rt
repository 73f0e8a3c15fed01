ghost use Rattle.shared_log.specs.Parts.{IsNewReader};
ghost use Rattle.agent_tests.specs.Senders.{IsFirstLog, IsSender};

use agent_tests::{
    Sender, carry, device_with, device_with_status, listening, open_log, open_sender, publish,
    receive, send,
};
use endpoint::{DeviceError, FailingDatagrams, MemoryDevice};
use receiver::{Positions, Subscriber};
use shared_log::{Log, LogReader};
use std::alloc::Global;
use std::process::Abort;
use std::test::*;

/// Adds the one datagram that was sent over a device to those that wait.
fn carry_only(alloc: Global, device: &MemoryDevice, wire: &mut Vec<Vec<u8>>) -> Result<(), Fail> {
    if device.sent().len() != 1 {
        return Err("not one datagram".into());
    }
    Ok(carry(alloc, device.sent(), wire)?)
}

/// Adds the one datagram that a sender's cycle sends, to which nothing has come.
fn send_one(
    alloc: Global,
    sender: &mut Sender<'_>,
    now: u64,
    wire: &mut Vec<Vec<u8>>,
) -> Result<(), Fail>
    requires { IsSender sender.old }
    ensures { IsSender sender.new }
{
    let (_, duty) = send(alloc, sender, MemoryDevice::new(alloc), now)?;
    carry_only(alloc, duty.device(), wire)
}

/// Adds the one datagram that a sender's cycle sends before the device fails, in the second of its sends.
fn send_before_fault<R: Abort>(
    rt: &R,
    alloc: Global,
    sender: &mut Sender<'_>,
    wire: &mut Vec<Vec<u8>>,
) -> Result<(), Fail>
    requires { IsSender sender.old }
    ensures { IsSender sender.new }
{
    let broken = FailingDatagrams::new(device_with_status(alloc, Some(false))?, 4);
    let (answer, duty) = send(alloc, sender, broken, 0)?;
    assert!(rt; answer == Err(DeviceError::Device));
    carry_only(alloc, duty.device().inner(), wire)
}

/// Adds the datagrams of three cycles: a SETUP; of two new frames the first; a heartbeat.
fn break_second<R: Abort>(
    rt: &R,
    alloc: Global,
    sender: &mut Sender<'_>,
    wire: &mut Vec<Vec<u8>>,
) -> Result<(), Fail>
    requires { IsSender sender.old }
    ensures { IsSender sender.new }
{
    send_one(alloc, sender, 0, wire)?;
    send_before_fault(rt, alloc, sender, wire)?;
    send_one(alloc, sender, 100_000_000, wire)
}

/// A subscriber's cycle to which all that waits has come. Then the one datagram that it sends waits.
fn ask(
    alloc: Global,
    subscriber: &mut Subscriber,
    now: u64,
    wire: &mut Vec<Vec<u8>>,
) -> Result<(), Fail> {
    let duty = receive(alloc, subscriber, wire, now)?;
    wire.clear();
    carry_only(alloc, duty.device(), wire)
}

/// A sender's cycle to which all that waits has come. Then the one datagram that it sends waits.
fn answer(
    alloc: Global,
    sender: &mut Sender<'_>,
    now: u64,
    wire: &mut Vec<Vec<u8>>,
) -> Result<(), Fail>
    requires { IsSender sender.old }
    ensures { IsSender sender.new }
{
    let (_, duty) = send(alloc, sender, device_with(alloc, wire)?, now)?;
    wire.clear();
    carry_only(alloc, duty.device(), wire)
}

/// Where the subscriber stands that was told of the gap.
const BEHIND_FIRST: Positions = Positions {
    least: 0,
    rebuilt: 1408,
    high_water: 2816,
};

/// The receiver is told of a gap, and asks for it.
fn lose<R: Abort>(
    rt: &R,
    alloc: Global,
    sender: &mut Sender<'_>,
    subscriber: &mut Subscriber,
    wire: &mut Vec<Vec<u8>>,
) -> Result<(), Fail>
    requires { IsSender sender.old }
    ensures { IsSender sender.new }
{
    break_second(rt, alloc, sender, wire)?;
    ask(alloc, subscriber, 0, wire)?;
    assert!(rt; subscriber.positions() == Some(BEHIND_FIRST));
    wire.clear();
    ask(alloc, subscriber, 1_000_000, wire)
}

/// The receiver gets what it has asked for.
fn mend<R: Abort>(
    rt: &R,
    alloc: Global,
    sender: &mut Sender<'_>,
    subscriber: &mut Subscriber,
    wire: &mut Vec<Vec<u8>>,
) -> Result<(), Fail>
    requires { IsSender sender.old }
{
    answer(alloc, sender, 200_000_000, wire)?;
    let _ = receive(alloc, subscriber, wire, 2_000_000)?;
    assert!(rt; polls(subscriber, 1) && polls(subscriber, 2));
    Ok(())
}

/// Both, over a wire of their own.
fn lose_and_mend<R: Abort>(
    rt: &R,
    alloc: Global,
    sender: &mut Sender<'_>,
    subscriber: &mut Subscriber,
) -> Result<(), Fail>
    requires { IsSender sender.old }
{
    let mut wire = Vec::new(alloc);
    lose(rt, alloc, sender, subscriber, &mut wire)?;
    mend(rt, alloc, sender, subscriber, &mut wire)
}

/// Both, with a subscriber of their own.
fn mend_all<R: Abort>(rt: &R, alloc: Global, sender: &mut Sender<'_>) -> Result<(), Fail>
    requires { IsSender sender.old }
{
    let mut subscriber = listening(alloc);
    lose_and_mend(rt, alloc, sender, &mut subscriber)
}

/// Whether the next message has 1,376 bytes, each of this value.
fn polls(subscriber: &mut Subscriber, value: u8) -> bool {
    match subscriber.poll() {
        Ok(Some(message)) => {
            message.bytes.len() == 1376 && message.bytes.iter().all(|byte| *byte == value)
        }
        _ => false,
    }
}

/// All of it, with the sender of this log.
fn mend_over<R: Abort>(rt: &R, alloc: Global, log: &Log, reader: LogReader) -> Result<(), Fail>
    requires reader { IsNewReader log.now 0 reader }
    requires log { IsFirstLog log.now }
{
    let mut sender = open_sender(alloc, log, reader)?;
    mend_all(rt, alloc, &mut sender)
}

/// Two frames go out in a cycle, and the second of its sends fails: the sender stands behind both.
#[test]
fn second_send_fails(rt: HostRuntime) -> Result<(), Fail> {
    let alloc = rt.alloc();
    let (log, mut publisher, reader) = open_log(alloc)?;
    let first = publish(&log, &mut publisher, 1, 1376);
    let second = publish(&log, &mut publisher, 2, 1376);
    assert!(rt; [first, second] == [Ok(1408), Ok(2816)]);
    mend_over(&rt, alloc, &log, reader)
}
