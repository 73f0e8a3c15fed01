//! The threads, started. A thread that can't be started stops all.
//!
//! What a thread promises is known of a closure that holds plain references, and not of one that holds a struct of them: so
//! the context is taken apart before such a closure, and put together in it.

ghost use Rattle.std.specs.Prelude.{◌≡◌, ◌≤◌, ◌<◌, ◌^◌, IfErr, IfOk, length};
ghost use Rattle.endpoint.specs.declared.device_error.DeviceError.TheVariants.{Device};
ghost use Rattle.shared_log.specs.Books.{IsDone};
ghost use Rattle.shared_log.specs.Parts.{IsNewReader};
ghost use Rattle.run_parties.specs.Messages.{HasPublished};
ghost use Rattle.run_parties.specs.Passes.{IsKept};
ghost use Rattle.run_parties.specs.Receivers.{HasReceived, IsWaitingReceiver};
ghost use Rattle.run.specs.Threads.{IsSet};

use crate::passes::{Agents, Size};
use conductor::{Client, Taker};
use endpoint::{Datagrams, DeviceError, Fan};
use run_parties::{
    Context, Gate, Published, Received, Task, Waiting, publish, run_receiver, send, steer,
};
use shared_log::{Keeper, Log, LogReader, Publisher};
use std::snapshot::Snapshot;
use std::sync::Wait;
use std::thread::{JoinHandle, Promise, PromisedHandle, Scope, Threads};
use std::time::Clock;

/// A thread gives its publisher back, and tells how many of its messages were accepted.
#[derive(Drop)]
pub struct PublisherBack {
    pub log: Snapshot<Log>,
    pub before: Snapshot<Publisher>,
    pub task: Task,
}

impl Promise<Result<Published, DeviceError>> for PublisherBack {
    ghost kept_by = { λ p r. IfOk r (λ q. HasPublished p.log.value p.task.length q.accepted p.before.value q.publisher × (q.accepted ≤ p.task.messages)) };
}

/// A thread gives the keeper back.
#[derive(Drop)]
pub struct KeeperBack {
    pub log: Snapshot<Log>,
}

impl Promise<Keeper> for KeeperBack {
    ghost kept_by = { λ p k. IsKept p.log.value k };
}

/// A thread gives what its receiver has left: one of so many, by its number.
#[derive(Drop)]
pub struct ReceiverBack<D> {
    pub log: Snapshot<Log>,
    pub size: Size,
    pub number: u64,
    pub device: Snapshot<D>,
}

impl<D: Datagrams> Promise<Result<Received<D>, DeviceError>> for ReceiverBack<D> {
    ghost kept_by = { λ p r. IfOk r (HasReceived D.device D.tells p.log.value.identity.geometry p.size.receivers p.size.wanted p.number p.device.value) };
}

/// The thread of the sender.
pub type Agent = JoinHandle<Result<(), DeviceError>>;

/// The thread of a publisher.
pub type Publishing = PromisedHandle<Result<Published, DeviceError>, PublisherBack>;

/// The thread of the conductor.
pub type Steering = PromisedHandle<Keeper, KeeperBack>;

/// The thread of a receiver.
#[derive(Drop)]
pub struct Receiving<D: Datagrams> {
    pub handle: PromisedHandle<Result<Received<D>, DeviceError>, ReceiverBack<D>>,
}

/// Starts the thread of a publisher.
pub fn start_publisher<'s, S, R: Clock + Sync, G: Gate + Sync>(
    scope: &'s Scope<'s, S>,
    agents: &'s Agents<'s, R, G>,
    publisher: Publisher,
) -> Result<Publishing, DeviceError>
    requires done { IsDone agents.now.context.now.state.now.log publisher }
    requires set { IsSet agents.now.context.now.state.now.log agents.now.size }
    ensures promises { IfOk result (λ h. (h.promise.log.value ≡ agents.now.context.now.state.now.log) × (h.promise.before.value ≡ publisher) × (h.promise.task ≡ agents.now.size.task)) }
    ensures fault { IfErr result (λ f. f ≡ Device) }
{
    let task = agents.size.task;
    let &Context {
        rt,
        alloc,
        state,
        gate,
        turns,
    } = agents.context;
    let promise = PublisherBack {
        log: Snapshot::of(&state.log),
        before: Snapshot::of(&publisher),
        task,
    };
    let Ok(handle) = scope.spawn_with(promise, move || {
        let context = Context {
            rt,
            alloc,
            state,
            gate,
            turns,
        };
        publish(&context, task, publisher)
    }) else {
        return Err(state.halt());
    };
    Ok(handle)
}

/// Starts the thread of the sender.
pub fn start_sender<'s, S, R: Wait + Clock + Sync, D: Datagrams + Send + Drop + 's, G: Gate + Sync>(
    scope: &'s Scope<'s, S>,
    agents: &'s Agents<'s, R, G>,
    device: Fan<D>,
    reader: LogReader,
    client: Client,
) -> Result<Agent, DeviceError>
    requires ways { length device.ways ≤ 8 }
    requires reader { IsNewReader agents.now.context.now.state.now.log 0 reader }
    requires set { IsSet agents.now.context.now.state.now.log agents.now.size }
    requires queue { client.queue ≡ agents.now.context.now.state.now.conductor }
    ensures { IfErr result (λ f. f ≡ Device) }
{
    let Ok(handle) = scope.spawn(move || send(agents.context, device, reader, client)) else {
        return Err(agents.context.state.halt());
    };
    Ok(handle)
}

/// Starts the thread of a receiver, which starts its subscriber's.
pub fn start_receiver<
    's,
    S,
    R: Threads + Wait + Clock + Sync,
    D: Datagrams + Send + Drop + 's,
    G: Gate + Sync,
>(
    scope: &'s Scope<'s, S>,
    agents: &'s Agents<'s, R, G>,
    waiting: Waiting<D>,
) -> Result<Receiving<D>, DeviceError>
    requires waits { IsWaitingReceiver agents.now.context.now.state.now.log.identity.geometry agents.now.size.receivers waiting.number waiting }
    requires set { IsSet agents.now.context.now.state.now.log agents.now.size }
    ensures log { IfOk result (λ r. (r.handle.promise.log.value ≡ agents.now.context.now.state.now.log) × (r.handle.promise.size ≡ agents.now.size)) }
    ensures who { IfOk result (λ r. (r.handle.promise.number ≡ waiting.number) × (r.handle.promise.device.value ≡ waiting.device)) }
    ensures fault { IfErr result (λ f. f ≡ Device) }
{
    let size = agents.size;
    let number = waiting.number;
    let &Context {
        rt,
        alloc,
        state,
        gate,
        turns,
    } = agents.context;
    let promise = ReceiverBack {
        log: Snapshot::of(&state.log),
        size,
        number,
        device: Snapshot::of(&waiting.device),
    };
    let Ok(handle) = scope.spawn_with(
        promise,
        move || -> Result<Received<D>, DeviceError>
            requires { IsWaitingReceiver state.now.log.identity.geometry size.receivers waiting.number waiting × (size.wanted < 2 ^ 63) }
            ensures { IfOk result (HasReceived D.device D.tells state.entry.now.log.identity.geometry size.receivers size.wanted waiting.number waiting.device) }
        {
            let context = Context {
                rt,
                alloc,
                state,
                gate,
                turns,
            };
            run_receiver(scope, &context, size.receivers, size.wanted, waiting)
        },
    ) else {
        return Err(state.halt());
    };
    Ok(Receiving { handle })
}

/// Starts the thread of the conductor.
pub fn start_conductor<'s, S, R: Wait + Clock + Sync, G: Gate + Sync>(
    scope: &'s Scope<'s, S>,
    agents: &'s Agents<'s, R, G>,
    keeper: Keeper,
    taker: Taker,
) -> Result<Steering, DeviceError>
    requires keeper { IsKept agents.now.context.now.state.now.log keeper }
    requires taker { taker.queue ≡ agents.now.context.now.state.now.conductor }
    ensures promises { IfOk result (λ h. h.promise.log.value ≡ agents.now.context.now.state.now.log) }
    ensures fault { IfErr result (λ f. f ≡ Device) }
{
    let &Context {
        rt,
        alloc,
        state,
        gate,
        turns,
    } = agents.context;
    let promise = KeeperBack {
        log: Snapshot::of(&state.log),
    };
    let Ok(handle) = scope.spawn_with(promise, move || {
        let context = Context {
            rt,
            alloc,
            state,
            gate,
            turns,
        };
        steer(&context, keeper, taker)
    }) else {
        return Err(state.halt());
    };
    Ok(handle)
}
