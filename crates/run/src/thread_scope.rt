//! All threads, from their start to their end.

ghost use Rattle.std.specs.Prelude.{◌≡◌, ◌≤◌, ◌<◌, ◌^◌, ◌+◌, [], ◌∷◌, ◌++◌, IfOk, map, slice_index, slice_set, vec_len};
ghost use Rattle.std.specs.List.{AllByRecursion};
ghost use Rattle.run.specs.Threads.{ArePasses, AreReturned, AreWaitingFrom, HaveCome, HaveEnded, IsSet, IsWaiting, device_of};

use crate::passes::{Agents, Parties, Passes, Publications, Returned};
use crate::thread_joins::{gather, received_of, with_received};
use crate::thread_starts::{start_conductor, start_publisher, start_receiver, start_sender};
use crate::watch::Watch;
use conductor::Command;
use endpoint::{Datagrams, DeviceError};
use run_parties::{Gate, PUBLISHERS, Published, Waiting};
use shared_log::Publisher;
use std::io::Write;
use std::sync::Wait;
use std::thread;
use std::thread::{Scope, Threads};
use std::time::Clock;

/// A publisher that came back, behind those that did before.
fn with_published(mut all: Publications, published: Published) -> Result<Publications, DeviceError>
    requires low { published.publisher.pass.number < 8 }
    requires room { slice_index all.accepted published.publisher.pass.number + published.accepted < 2 ^ 64 }
    ensures publishers { IfOk result (λ r. r.publishers.items ≡ all.publishers.items ++ published.publisher ∷ []) }
    ensures accepted { IfOk result (λ r. r.accepted ≡ slice_set all.accepted published.publisher.pass.number (slice_index all.accepted published.publisher.pass.number + published.accepted)) }
{
    let Published {
        publisher,
        accepted,
    } = published;
    let number = publisher.number() as usize;
    all.accepted[number] += u64::from(accepted);
    if all.publishers.push(publisher).is_err() {
        return Err(DeviceError::Memory);
    }
    Ok(all)
}

/// Starts a thread for each publisher, the last one first, then waits until all is to stop, and then joins them.
fn run_publishers<'s, S, R: Threads + Wait + Clock + Sync, G: Gate + Sync, E: Write>(
    scope: &'s Scope<'s, S>,
    agents: &'s Agents<'s, R, G>,
    mut waiting: Vec<Publisher>,
    watch: &mut Watch<E>,
) -> Result<Publications, DeviceError>
    requires waiting { AllByRecursion (IsWaiting agents.now.context.now.state.now.log agents.now.size.publishers) waiting.items }
    requires few { vec_len waiting ≤ 8 }
    requires set { IsSet agents.now.context.now.state.now.log agents.now.size }
    ensures { IfOk result (HaveCome agents.now.context.now.state.now.log agents.now.size waiting.items) }
{
    let Some(publisher) = waiting.pop() else {
        let context = agents.context;
        watch.until_stopped(context.rt, context.state);
        return Ok(Publications {
            publishers: Vec::new(context.alloc),
            accepted: [0; PUBLISHERS],
        });
    };
    let handle = start_publisher(scope, agents, publisher)?;
    let others = run_publishers(scope, agents, waiting, watch);
    let published = handle.join(agents.context.rt);
    with_published(others?, published?)
}

/// Starts the thread of each receiver, the last one first, then those of the publishers, and joins all of them once all is to
/// stop.
fn run_receivers<
    's,
    S,
    R: Threads + Wait + Clock + Sync,
    D: Datagrams + Send + Drop + 's,
    G: Gate + Sync,
    E: Write,
>(
    scope: &'s Scope<'s, S>,
    agents: &'s Agents<'s, R, G>,
    mut waiting: Vec<Waiting<D>>,
    publishers: Vec<Publisher>,
    watch: &mut Watch<E>,
) -> Result<Parties<D>, DeviceError>
    requires waiting { AreWaitingFrom agents.now.context.now.state.now.log.identity.geometry agents.now.size.receivers 0 waiting.items }
    requires publishers { AllByRecursion (IsWaiting agents.now.context.now.state.now.log agents.now.size.publishers) publishers.items × (vec_len publishers ≤ 8) }
    requires set { IsSet agents.now.context.now.state.now.log agents.now.size }
    ensures { IfOk result (HaveEnded D.device D.tells agents.now.context.now.state.now.log agents.now.size publishers.items (map device_of waiting.items)) }
{
    let Some(last) = waiting.pop() else {
        let published = run_publishers(scope, agents, publishers, watch)?;
        let received = Vec::new(agents.context.alloc);
        return Ok(Parties {
            published,
            received,
        });
    };
    let started = start_receiver(scope, agents, last);
    let parties = run_receivers(scope, agents, waiting, publishers, watch);
    let received = received_of(agents, started);
    with_received(parties, received)
}

/// Starts all threads, waits until all is to stop, and joins them.
fn run_in<
    's,
    S,
    R: Threads + Wait + Clock + Sync,
    D: Datagrams + Send + Drop + 's,
    G: Gate + Sync,
    E: Write + Drop,
>(
    scope: &'s Scope<'s, S>,
    agents: &'s Agents<'s, R, G>,
    passes: Passes<D>,
    mut watch: Watch<E>,
) -> Result<Returned<D>, DeviceError>
    requires passes { ArePasses agents.now.context.now.state.now.log agents.now.context.now.state.now.conductor agents.now.size passes }
    requires set { IsSet agents.now.context.now.state.now.log agents.now.size }
    ensures { IfOk result (λ r. AreReturned D.device D.tells agents.now.context.now.state.now.log agents.now.size passes r) }
{
    let Passes {
        publishers,
        reader,
        keeper,
        asking,
        mut closing,
        taker,
        sends,
        receivers,
    } = passes;
    let sender = start_sender(scope, agents, sends, reader, asking);
    let conductor = start_conductor(scope, agents, keeper, taker);
    let parties = run_receivers(scope, agents, receivers, publishers, &mut watch);
    let (rt, queue) = (agents.context.rt, &agents.context.state.conductor);
    let _ = queue.submit(rt, &mut closing, Command::Close);
    gather(agents, parties, conductor, sender)
}

/// Runs a thread for each publisher, two for each receiver, its agent's and its subscriber's, and one for the sender and the
/// conductor; the calling thread watches. It ends when all of them have stopped.
///
/// The fault is that of a thread, or `Device` where one can't be started; then the others have stopped, too.
pub fn run_agents<
    R: Threads + Wait + Clock + Sync,
    D: Datagrams + Send + Drop,
    G: Gate + Sync,
    E: Write + Drop,
>(agents: &Agents<'_, R, G>, passes: Passes<D>, watch: Watch<E>) -> Result<Returned<D>, DeviceError>
    requires passes { ArePasses agents.now.context.now.state.now.log agents.now.context.now.state.now.conductor agents.now.size passes }
    requires set { IsSet agents.now.context.now.state.now.log agents.now.size }
    ensures { IfOk result (λ r. AreReturned D.device D.tells agents.now.context.now.state.now.log agents.now.size passes r) }
{
    thread::scope(
        thread::scope_env(),
        agents.context.rt,
        move |scope| -> Result<Returned<D>, DeviceError>
            requires { ArePasses agents.now.context.now.state.now.log agents.now.context.now.state.now.conductor agents.now.size passes × IsSet agents.now.context.now.state.now.log agents.now.size }
            ensures { IfOk result (λ r. AreReturned D.device D.tells agents.entry.now.context.now.state.now.log agents.entry.now.size passes r) }
        { run_in(scope, agents, passes, watch) },
    )
}
