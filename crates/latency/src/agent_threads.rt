//! The threads of the driver.

ghost use Rattle.std.specs.Prelude.{◌≡◌, ◌≤◌, length, pos};
ghost use Rattle.theory.specs.Position.{max_message};
ghost use Rattle.shared_log.specs.Parts.{IsNewReader};
ghost use Rattle.run_parties.specs.Passes.{IsKept};
ghost use Rattle.run_parties.specs.Receivers.{AreReceiverParts};
ghost use Rattle.run_parties.specs.RunLogs.{IsRunLog};
ghost use Rattle.latency.specs.Beginnings.{ArePasses};

use crate::receiving::{Handover, receive};
use crate::{Course, LatencyError, Load, Offers, WhenFull, start_publishers};
use conductor::{Client, Taker};
use endpoint::{Fan, UdpDevice};
use loss_injector::Lossy;
use run_parties::{Context, Open, ReceiverParts, RunState, send, steer};
use shared_log::{Keeper, LogReader, Publisher};
use std::alloc::Global;
use std::sync::Wait;
use std::thread::Scope;
use std::time::Clock;

/// How many turns each agent has. They aren't used up in minutes.
const TURNS: u32 = u32::MAX;

/// The device of a receiver, and a sender's way to it.
pub type Device = Lossy<UdpDevice>;

/// The passes of the driver's threads.
#[derive(Drop)]
pub struct ThreadPasses {
    pub publishers: Vec<Publisher>,
    pub reader: LogReader,
    pub keeper: Keeper,
    pub client: Client,
    pub taker: Taker,
}

/// These, and the devices of its sender and its receiver.
#[derive(Drop)]
pub struct Passes {
    pub threads: ThreadPasses,
    pub sends: Fan<Device>,
    pub replies: Device,
}

/// What all threads are lent, and what is offered.
#[derive(Drop)]
pub struct MeasuredRun<'a, R> {
    pub rt: &'a R,
    pub alloc: Global,
    pub state: &'a RunState,
    pub course: &'a Course,
    pub load: Load,
}

/// A thread that couldn't be started lets all end.
fn see(course: &Course, is_started: bool) {
    if !is_started {
        course.fail(LatencyError::Thread);
    }
}

/// Starts the thread of the sender. Where it can't be started, or ends, all end.
fn start_sender<'s, S, R: Wait + Clock + Sync>(
    scope: &'s Scope<'s, S>,
    run: &MeasuredRun<'s, R>,
    device: Fan<Device>,
    reader: LogReader,
    client: Client,
)
    requires ways { length device.ways ≤ 8 }
    requires reader { IsNewReader run.now.state.now.log 0 reader }
    requires log { IsRunLog run.now.state.now.log }
    requires queue { client.queue ≡ run.now.state.now.conductor }
{
    let (rt, alloc, state, course) = (run.rt, run.alloc, run.state, run.course);
    let started = scope.spawn(move || {
        let context = Context {
            rt,
            alloc,
            state,
            gate: &Open,
            turns: TURNS,
        };
        let ended = send(&context, device, reader, client);
        course.end(ended);
    });
    see(course, started.is_ok());
}

/// Starts the thread of the receiver. Where it can't be started, or ends, all end.
fn start_receiver<'s, S, R: Wait + Clock + Sync>(
    scope: &'s Scope<'s, S>,
    run: &MeasuredRun<'s, R>,
    handover: &'s Handover,
    parts: ReceiverParts,
    device: Device,
)
    requires { AreReceiverParts run.now.state.now.log.identity.geometry (pos 1) parts }
{
    let (rt, alloc, state, course) = (run.rt, run.alloc, run.state, run.course);
    let started = scope.spawn(move || {
        let context = Context {
            rt,
            alloc,
            state,
            gate: &Open,
            turns: TURNS,
        };
        course.end(receive(&context, handover, parts, device));
        state.stop();
    });
    see(course, started.is_ok());
}

/// Starts the thread of the conductor. Where it can't be started, or ends, all end.
fn start_conductor<'s, S, R: Wait + Clock + Sync>(
    scope: &'s Scope<'s, S>,
    run: &MeasuredRun<'s, R>,
    keeper: Keeper,
    taker: Taker,
)
    requires keeper { IsKept run.now.state.now.log keeper }
    requires taker { taker.queue ≡ run.now.state.now.conductor }
{
    let (rt, alloc, state, course) = (run.rt, run.alloc, run.state, run.course);
    let started = scope.spawn(move || {
        let context = Context {
            rt,
            alloc,
            state,
            gate: &Open,
            turns: TURNS,
        };
        let _ = steer(&context, keeper, taker);
        course.stop();
    });
    see(course, started.is_ok());
}

/// Starts a thread for the sender, one for the receiver, one for the conductor and one for each publisher. Where one can't be
/// started, or one of the first three ends, all end.
pub fn start_agents<'s, S, R: Wait + Clock + Sync>(
    scope: &'s Scope<'s, S>,
    run: &MeasuredRun<'s, R>,
    handover: &'s Handover,
    parts: ReceiverParts,
    passes: Passes,
)
    requires passes { ArePasses run.now.state.now.log run.now.state.now.conductor passes }
    requires short { run.now.load.length ≤ max_message run.now.state.now.log.identity.geometry }
    requires parts { AreReceiverParts run.now.state.now.log.identity.geometry (pos 1) parts }
{
    let Passes {
        threads,
        sends,
        replies,
    } = passes;
    let ThreadPasses {
        publishers,
        reader,
        keeper,
        client,
        taker,
    } = threads;
    start_sender(scope, run, sends, reader, client);
    start_receiver(scope, run, handover, parts, replies);
    start_conductor(scope, run, keeper, taker);
    let offers = Offers {
        rt: run.rt,
        alloc: run.alloc,
        log: &run.state.log,
        course: run.course,
        load: run.load,
        when_full: WhenFull::Rest,
    };
    start_publishers(scope, &offers, publishers);
}
