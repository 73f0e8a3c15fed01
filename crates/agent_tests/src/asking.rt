//! A sender's agent and the queue that it asks.

ghost use Rattle.std.specs.Prelude.{◌≡◌};
ghost use Rattle.shared_log.specs.Parts.{IsNewReader};
ghost use Rattle.agent_tests.specs.Senders.{IsFirstLog, IsSender};

use crate::{Agent, along, device_with_status, duty_over, open_agent, open_log};
use conductor::{CAPACITY, Client, Command, Conductor, Taker};
use shared_log::{Log, LogReader};
use std::alloc::Global;
use std::process::Abort;
use std::sync::Wait;
use std::test::*;

/// A cycle to which nothing has come, or a status message that asks for a SETUP or doesn't.
fn turn<R: Wait>(
    rt: &R,
    alloc: Global,
    agent: &mut Agent<'_>,
    conductor: &Conductor,
    client: &mut Client,
    asks: Option<bool>,
) -> Result<(), Fail>
    requires sender { IsSender agent.old.core }
    requires client { client.old.queue ≡ conductor.now }
    ensures sender { IsSender agent.new.core }
    ensures client { (client.new.queue ≡ client.old.queue) × (client.new.number ≡ client.old.number) }
{
    let device = along(alloc, device_with_status(alloc, asks)?)?;
    let mut duty = duty_over(alloc, device, 1408)?;
    let _ = agent.cycle(rt, conductor, client, &mut duty, 0);
    Ok(())
}

/// The command that is taken then, if one is.
fn taken<R: Wait>(rt: &R, conductor: &Conductor, taker: &mut Taker) -> Option<Command>
    requires { taker.old.queue ≡ conductor.now }
    ensures { taker.new.queue ≡ taker.old.queue }
{
    match conductor.take(rt, taker) {
        Some(submitted) => Some(submitted.command),
        None => None,
    }
}

/// Whether a status message that comes in a cycle asks, and the command that is taken behind it.
const TURNS: [(Option<bool>, Option<Command>); 4] = [
    (None, None),
    (Some(true), None),
    (Some(false), Some(Command::Connect)),
    (Some(false), None),
];

/// Four cycles, and what is taken behind each.
fn four_turns<R: Abort + Wait>(
    rt: &R,
    alloc: Global,
    agent: &mut Agent<'_>,
    conductor: &Conductor,
    client: &mut Client,
    taker: &mut Taker,
) -> Result<(), Fail>
    requires sender { IsSender agent.old.core }
    requires client { client.old.queue ≡ conductor.now }
    requires taker { taker.old.queue ≡ conductor.now }
{
    for (asks, command) in TURNS {
        turn(rt, alloc, agent, conductor, client, asks)?;
        assert!(rt; taken(rt, conductor, taker) == command);
    }
    Ok(())
}

/// Four cycles, with a queue of their own.
fn connect_once<R: Abort + Wait>(rt: &R, alloc: Global, agent: &mut Agent<'_>) -> Result<(), Fail>
    requires { IsSender agent.old.core }
{
    let (conductor, mut clients, mut taker) = Conductor::new(alloc)?;
    four_turns(rt, alloc, agent, &conductor, &mut clients[0], &mut taker)
}

/// Four cycles of an agent of this log.
fn connect_over<R: Abort + Wait>(
    rt: &R,
    alloc: Global,
    log: &Log,
    reader: LogReader,
) -> Result<(), Fail>
    requires reader { IsNewReader log.now 0 reader }
    requires log { IsFirstLog log.now }
{
    let mut agent = open_agent(alloc, log, reader)?;
    connect_once(rt, alloc, &mut agent)
}

/// Connect is submitted behind the first status message that doesn't ask, and no more.
#[test]
fn connects_once(rt: HostRuntime) -> Result<(), Fail> {
    let alloc = rt.alloc();
    let (log, _, reader) = open_log(alloc)?;
    connect_over(&rt, alloc, &log, reader)
}

/// Submits commands until the queue is full.
fn fill<R: Wait>(rt: &R, conductor: &Conductor, client: &mut Client) -> usize
    requires { client.old.queue ≡ conductor.now }
    ensures { client.new.queue ≡ client.old.queue }
{
    for count in 0..=CAPACITY {
        if conductor.submit(rt, client, Command::Disconnect).is_err() {
            return count;
        }
    }
    0
}

/// Takes all commands. How many there were, and which was the last.
fn drain<R: Wait>(rt: &R, conductor: &Conductor, taker: &mut Taker) -> (usize, Option<Command>)
    requires { taker.old.queue ≡ conductor.now }
    ensures { taker.new.queue ≡ taker.old.queue }
{
    let mut last = None;
    for count in 0..=CAPACITY {
        let Some(command) = taken(rt, conductor, taker) else {
            return (count, last);
        };
        last = Some(command);
    }
    (0, last)
}

/// Where the queue is full, a cycle with a status message adds nothing; once one command was taken, the next cycle adds
/// Connect behind the others.
fn two_turns<R: Abort + Wait>(
    rt: &R,
    alloc: Global,
    agent: &mut Agent<'_>,
    conductor: &Conductor,
    client: &mut Client,
    taker: &mut Taker,
) -> Result<(), Fail>
    requires sender { IsSender agent.old.core }
    requires client { client.old.queue ≡ conductor.now }
    requires taker { taker.old.queue ≡ conductor.now }
{
    turn(rt, alloc, agent, conductor, client, Some(false))?;
    let _ = taken(rt, conductor, taker);
    turn(rt, alloc, agent, conductor, client, None)?;
    assert!(rt; drain(rt, conductor, taker) == (64, Some(Command::Connect)));
    Ok(())
}

/// Two cycles, with a queue that another client has filled.
fn wait_for_room<R: Abort + Wait>(rt: &R, alloc: Global, agent: &mut Agent<'_>) -> Result<(), Fail>
    requires { IsSender agent.old.core }
{
    let (conductor, mut clients, mut taker) = Conductor::new(alloc)?;
    assert!(rt; fill(rt, &conductor, &mut clients[1]) == 64);
    two_turns(rt, alloc, agent, &conductor, &mut clients[0], &mut taker)
}

/// Two cycles of an agent of this log.
fn wait_over<R: Abort + Wait>(
    rt: &R,
    alloc: Global,
    log: &Log,
    reader: LogReader,
) -> Result<(), Fail>
    requires reader { IsNewReader log.now 0 reader }
    requires log { IsFirstLog log.now }
{
    let mut agent = open_agent(alloc, log, reader)?;
    wait_for_room(rt, alloc, &mut agent)
}

/// The queue is full of another client's commands. Connect is accepted once there is room, and stands behind them.
#[test]
fn waits_for_room(rt: HostRuntime) -> Result<(), Fail> {
    let alloc = rt.alloc();
    let (log, _, reader) = open_log(alloc)?;
    wait_over(&rt, alloc, &log, reader)
}
