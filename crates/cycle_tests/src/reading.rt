//! A receiver's agent on one thread, and what its counters show.

ghost use Rattle.std.specs.Prelude.{◌≡◌};
ghost use Rattle.shared_log.specs.Parts.{IsNewReader};
ghost use Rattle.agent_tests.specs.Senders.{IsFirstLog, IsSender};
ghost use Rattle.counters.specs.Order.{zeros};

use agent_tests::{
    Sender, carry, device_with, device_with_status, duty_over, open_log, open_sender, publish, send,
};
use agents::{Named, REPLY, ReceiverAgent};
use counters::{CounterReader, CounterWriter, Counters};
use receiver::{MessageReader, ReceiverCore};
use shared_log::{Log, LogReader};
use std::alloc::{AllocError, Global};
use std::marker::Brand;
use std::process::Abort;
use std::sync::Wait;
use std::test::*;

/// Keeps what a sender's cycle sends, to which nothing has come, or a status message that asks for a SETUP or doesn't.
fn keep_sent(
    alloc: Global,
    sender: &mut Sender<'_>,
    asks: Option<bool>,
    kept: &mut Vec<Vec<u8>>,
) -> Result<(), Fail>
    requires { IsSender sender.old }
    ensures { IsSender sender.new }
{
    let (_, duty) = send(alloc, sender, device_with_status(alloc, asks)?, 0)?;
    Ok(carry(alloc, duty.device().sent(), kept)?)
}

/// Keeps a SETUP, and two frames of 1,408 bytes that begin at 0.
fn keep_two_frames(alloc: Global, kept: &mut Vec<Vec<u8>>) -> Result<(), Fail> {
    let (log, mut publisher, reader) = open_log(alloc)?;
    let _ = publish(&log, &mut publisher, 1, 1376);
    let _ = publish(&log, &mut publisher, 2, 1376);
    keep_from(alloc, &log, reader, kept)
}

/// Keeps what is sent in two cycles.
fn keep_from(
    alloc: Global,
    log: &Log,
    reader: LogReader,
    kept: &mut Vec<Vec<u8>>,
) -> Result<(), Fail>
    requires reader { IsNewReader log.now 0 reader }
    requires log { IsFirstLog log.now }
{
    let mut sender = open_sender(alloc, log, reader)?;
    keep_sent(alloc, &mut sender, None, kept)?;
    keep_sent(alloc, &mut sender, Some(false), kept)
}

/// The counters show these three after a cycle to which these datagrams have come.
fn read_after<N: Named, R: Abort + Wait>(
    rt: &R,
    alloc: Global,
    counters: &Counters,
    agent: &mut ReceiverAgent<N>,
    reader: &mut CounterReader,
    came: &[Vec<u8>],
    wanted: [u64; 3],
) -> Result<(), Fail>
    requires counters { counters.now ≡ N.counters }
    requires reader { reader.old.counters ≡ N.counters }
    ensures { reader.new.counters ≡ N.counters }
{
    let mut duty = duty_over(alloc, device_with(alloc, came)?, REPLY)?;
    let _ = agent.cycle(rt, counters, &mut duty, 0);
    let seen = agent.read(rt, counters, reader);
    assert!(rt; [seen.least, seen.rebuilt, seen.high_water] == wanted);
    Ok(())
}

/// Who reads the messages of the agent's image, which has one reader.
fn open_reader<N: Named>(
    alloc: Global,
    agent: &mut ReceiverAgent<N>,
) -> Result<MessageReader, Fail> {
    let Some(taken) = agent.take_readers() else {
        return Err("no image".into());
    };
    if taken.readers.len() != 1 {
        return Err("not one reader".into());
    }
    match MessageReader::new(alloc, taken, 8192) {
        Ok(reader) => Ok(reader),
        Err(_) => Err(AllocError.into()),
    }
}

/// Cycles before there is an image, with the image, while the first message is read, and when it was passed.
fn read_cycles<N: Named + Send + Sync, R: Abort + Wait>(
    rt: &R,
    alloc: Global,
    counters: &Counters,
    reader: &mut CounterReader,
    agent: &mut ReceiverAgent<N>,
    came: &[Vec<u8>],
) -> Result<(), Fail>
    requires counters { counters.now ≡ N.counters }
    requires reader { reader.old.counters ≡ N.counters }
{
    may_move(agent);
    read_after(rt, alloc, counters, agent, reader, &[], [0, 0, 0])?;
    assert!(rt; agent.take_readers().is_none());
    read_after(rt, alloc, counters, agent, reader, came, [0, 2816, 2816])?;
    let mut messages = open_reader(alloc, agent)?;
    may_move(&messages);
    assert!(rt; agent.take_readers().is_none());
    assert!(rt; matches!(messages.next(), Ok(Some(_))));
    read_after(rt, alloc, counters, agent, reader, &[], [0, 2816, 2816])?;
    messages.pass();
    read_after(rt, alloc, counters, agent, reader, &[], [1408, 2816, 2816])
}

/// An agent may go to another thread, and so may who reads its image's messages.
fn may_move<T: Send>(_value: &T) {}

/// Puts a receiver's agent together, and reads its counters.
fn read_all<N: Named + Send + Sync, R: Abort + Wait>(
    rt: &R,
    alloc: Global,
    counters: &Counters,
    mut writer: CounterWriter,
    came: &[Vec<u8>],
) -> Result<(), Fail>
    requires counters { (counters.now ≡ N.counters) × (writer.counters ≡ N.counters) }
    requires nothing { writer.last ≡ zeros }
{
    let mut reader = counters.reader(&mut writer);
    let core = ReceiverCore::new(alloc, 1, 1001, 32_768, 3, 1);
    let mut agent = ReceiverAgent::<N>::new(core, writer);
    read_cycles(rt, alloc, counters, &mut reader, &mut agent, came)
}

#[test]
fn reads_what_a_cycle_left(rt: HostRuntime) -> Result<(), Fail> {
    let mut came = Vec::new(rt.alloc());
    keep_two_frames(rt.alloc(), &mut came)?;
    let (counters, writer) = Counters::new(rt.alloc())?;
    read_all::<Brand, HostRuntime>(&rt, rt.alloc(), &counters, writer, &came)
}
