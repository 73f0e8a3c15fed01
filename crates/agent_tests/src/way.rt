//! A log with its publisher and its sender, and a subscriber, with devices in memory between them.

ghost use Rattle.std.specs.Prelude.{◌≡◌, ◌≤◌, ◌<◌, None, IfOk, length};
ghost use Rattle.theory.specs.Position.{max_message};
ghost use Rattle.receiver.specs.Receiving.{Receiver};
ghost use Rattle.receiver.specs.Subscribing.{RepresentsSubscriber};
ghost use Rattle.shared_log.specs.Steps.Handles.{IsOf};
ghost use Rattle.shared_log.specs.Parts.{IsNewReader};
ghost use Rattle.agent_tests.specs.Senders.{IsFirstLog, IsSender};

use agents::{Duty, LogPasses, REPLY, StreamSender, open_stream_sender};
use endpoint::{Datagrams, DeviceError, Fan, MemoryDevice};
use flow_control::StreamFlow;
use frames::{Frame, Status, write_frame};
use position::{Geometry, Identity};
use publication::{Refusal, offer};
use receiver::{ReceiverCore, Subscriber};
use sender::SenderCore;
use shared_log::{Log, LogFrames, LogReader, OnLog, Publisher, clean_and_limit, set_connected};
use std::alloc::{AllocError, Global};
use std::test::Fail;

/// The sender of these tests.
pub type Sender<'a> = SenderCore<LogFrames<'a>, StreamFlow>;

/// The agent of these tests.
pub type Agent<'a> = StreamSender<'a>;

/// A log with terms of 65,536 bytes that begins at 0, connected, with its limit half a term above that; its first
/// publisher and its one reader.
#[tactic(auto, using(agents::proofs::NewPublishers::first_done))]
pub fn open_log(alloc: Global) -> Result<(Log, Publisher, LogReader), Fail>
    ensures publisher { IfOk result (λ r. IsOf r.0 r.1) }
    ensures reader { IfOk result (λ r. IsNewReader r.0 0 r.2) }
    ensures log { IfOk result (λ r. IsFirstLog r.0) }
{
    let geometry = Geometry::new(65_536, 1408, 7)?;
    let LogPasses {
        log,
        mut publishers,
        reader,
        mut keeper,
    } = agents::open_log(alloc, Identity::new(geometry, 1, 1001), 0)?;
    set_connected(&log, &mut keeper, true);
    clean_and_limit(&log, &mut keeper);
    Ok((log, publishers.remove(0), reader))
}

/// An agent that has sent nothing yet.
pub fn open_agent<'a>(alloc: Global, log: &'a Log, reader: LogReader) -> Result<Agent<'a>, Fail>
    requires reader { IsNewReader log.now 0 reader }
    requires log { IsFirstLog log.now }
    ensures { IfOk result (λ a. IsSender a.core) }
{
    Ok(open_stream_sender(alloc, log, reader, 1)?)
}

/// A sender that has sent nothing yet.
pub fn open_sender<'a>(alloc: Global, log: &'a Log, reader: LogReader) -> Result<Sender<'a>, Fail>
    requires reader { IsNewReader log.now 0 reader }
    requires log { IsFirstLog log.now }
    ensures { IfOk result (λ s. IsSender s) }
{
    Ok(open_agent(alloc, log, reader)?.into_core())
}

/// A sender to a group of so many receivers that has sent nothing yet.
pub fn open_group_sender<'a>(
    alloc: Global,
    log: &'a Log,
    reader: LogReader,
    receivers: usize,
) -> Result<Sender<'a>, Fail>
    requires reader { IsNewReader log.now 0 reader }
    requires log { IsFirstLog log.now }
    requires receivers { receivers ≤ 8 }
    ensures { IfOk result (λ s. IsSender s) }
{
    Ok(open_stream_sender(alloc, log, reader, receivers)?.into_core())
}

/// A subscriber of a receiver with this id and this window that has no image yet.
pub fn member(alloc: Global, id: i64, window: u32) -> Subscriber {
    let core = ReceiverCore::new(alloc, 1, 1001, window, id, 1);
    Subscriber::new(alloc, core, 8192)
}

/// A subscriber that has no image yet.
pub fn listening(alloc: Global) -> Subscriber
    ensures { (r : Receiver) × RepresentsSubscriber result r × (r.image ≡ None) }
{
    let core = ReceiverCore::new(alloc, 1, 1001, 32_768, 3, 1);
    Subscriber::new(alloc, core, 8192)
}

/// Offers a message of so many bytes, all of this value. The answer is the position behind it.
pub fn publish(log: &Log, publisher: &mut Publisher, value: u8, size: usize) -> Result<u64, Refusal>
    requires fits { IsOf log.now publisher.old }
    ensures { IsOf log.now publisher.new }
{
    let most = log.identity().geometry().max_message() as usize;
    let message = [value; 1376];
    offer(
        &mut OnLog::new(log),
        publisher,
        &message[..size.min(1376).min(most)],
    )
}

/// A device to which these datagrams have come.
pub fn device_with(alloc: Global, datagrams: &[Vec<u8>]) -> Result<MemoryDevice, Fail> {
    let mut device = MemoryDevice::new(alloc);
    for datagram in datagrams {
        device.put(datagram)?;
    }
    Ok(device)
}

/// A status message that says that a consumer stands at 0, with a window of half a term. It asks for a SETUP, or not.
fn status(asks: bool) -> [u8; 36] {
    let mut bytes = [0; 36];
    let status = Status {
        session: 1,
        stream: 1001,
        term_id: 7,
        term_offset: 0,
        window: 32_768,
        receiver: 3,
    };
    write_frame(&Frame::Status { asks, status }, &mut bytes);
    bytes
}

/// A device to which nothing has come, or a status message that asks for a SETUP or doesn't.
pub fn device_with_status(alloc: Global, asks: Option<bool>) -> Result<MemoryDevice, Fail> {
    let mut device = MemoryDevice::new(alloc);
    if let Some(asks) = asks {
        device.put(&status(asks))?;
    }
    Ok(device)
}

/// Room for cycles over a device.
pub fn duty_over<D: Drop>(alloc: Global, device: D, mtu: u32) -> Result<Duty<D>, Fail>
    ensures { IfOk result (λ d. d.mtu ≡ mtu) }
{
    match Duty::new(alloc, device, mtu) {
        Ok(duty) => Ok(duty),
        Err(_) => Err("no memory".into()),
    }
}

/// A device of one way, along this one.
pub fn along<D: Drop>(alloc: Global, device: D) -> Result<Fan<D>, AllocError> {
    let mut ways = Vec::new(alloc);
    ways.push(device)?;
    Ok(Fan::new(ways))
}

/// Copies datagrams behind those that wait.
pub fn carry(
    alloc: Global,
    datagrams: &[Vec<u8>],
    wire: &mut Vec<Vec<u8>>,
) -> Result<(), AllocError> {
    for datagram in datagrams {
        wire.push(Vec::from_slice(alloc, datagram)?)?;
    }
    Ok(())
}

/// A sender's cycle over a device.
pub fn send<D: Datagrams + Drop>(
    alloc: Global,
    sender: &mut Sender<'_>,
    device: D,
    now: u64,
) -> Result<(Result<bool, DeviceError>, Duty<D>), Fail>
    requires { IsSender sender.old }
    ensures { IsSender sender.new }
{
    let mut duty = duty_over(alloc, device, 1408)?;
    let answer = duty.cycle(sender, now);
    Ok((answer, duty))
}

/// The device of a subscriber's cycle, to which these datagrams had come.
pub fn receive(
    alloc: Global,
    subscriber: &mut Subscriber,
    datagrams: &[Vec<u8>],
    now: u64,
) -> Result<Duty<MemoryDevice>, Fail> {
    let mut duty = duty_over(alloc, device_with(alloc, datagrams)?, REPLY)?;
    let _ = duty.cycle(subscriber, now);
    Ok(duty)
}
