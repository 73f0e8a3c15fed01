//! The run of a plan.

ghost use Rattle.std.specs.Prelude.{◌≡◌, ◌*◌, ◌^◌, ◌<◌, ◌≤◌, ◌++◌, IfOk, length, map, vec_len};
ghost use Rattle.std.specs.Arc.{arc_value};
ghost use Rattle.std.specs.List.{AllByRecursion};
ghost use Rattle.endpoint.specs.Fans.{fanned};
ghost use Rattle.run_parties.specs.Devices.{AreLossy};
ghost use Rattle.run_parties.specs.Receivers.{IsWaitingReceiver};
ghost use Rattle.run_parties.specs.RunLogs.{IsRunLog};
ghost use Rattle.shared_log.specs.Books.{ShowsBook};
ghost use Rattle.run.specs.Beginnings.{CanClose, IsBeginning, Leaves};
ghost use Rattle.run.specs.Outcomes.{IsBook, IsOutcome, IsPolled, PublishersPublish, ReceiversLive, ReceiversLiveLossily, device_in, polled_of, size_of, told_of};
ghost use Rattle.run.specs.Threads.{ArePasses, AreReturned, AreWaitingFrom, counters_of, device_of, shown_of};

use crate::outcome::{Outcome, Polled};
use crate::passes::{Agents, Parties, Passes, Publications, Returned, Size};
use crate::thread_scope::run_agents;
use crate::watch::{Shown, Watch};
use agents::Began;
use conductor::Conductor;
use endpoint::{Datagrams, DeviceError, Fan};
use options::Plan;
use run_parties::{
    Context, Gate, LossyDevices, Received, ReceiverParts, RunLog, RunState, Tally, Task, Waiting,
    lossy_devices, open_run_log, receiver_id, receiver_parts,
};
use shared_log::{Book, Keeper, Log, Publisher, close};
use std::alloc::{AllocError, Global};
use std::io::Write;
use std::net::Net;
use std::sync::{Arc, Wait};
use std::thread::Threads;
use std::time::Clock;

/// How many messages a plan wants: those of all its publishers.
fn wanted_of(plan: &Plan) -> u64
    ensures value { result ≡ plan.now.publishers * plan.now.messages }
    ensures few { result < 2 ^ 63 }
{
    plan.publishers as u64 * u64::from(plan.messages)
}

/// How much a plan asks for.
fn size_of(plan: &Plan) -> Size
    ensures value { result ≡ size_of plan.now }
    ensures few { result.wanted < 2 ^ 63 }
{
    Size {
        task: Task {
            messages: plan.messages,
            length: plan.length,
            turns: plan.turns,
        },
        publishers: plan.publishers,
        receivers: plan.receivers,
        wanted: wanted_of(plan),
    }
}

/// The receivers of a run that wait for their threads, and the counters of each with a reader of them, by their numbers.
#[derive(Drop)]
struct Receivers<D> {
    waiting: Vec<Waiting<D>>,
    shown: Vec<Shown>,
}

/// What the receiver of this number begins with, over its device.
fn receiver_of<D: Drop>(
    alloc: Global,
    plan: &Plan,
    number: u64,
    device: D,
) -> Result<(Waiting<D>, Shown), AllocError>
    requires { number < 8 }
    ensures waits { IfOk result (λ r. IsWaitingReceiver plan.now.geometry plan.now.receivers number r.0) }
    ensures device { IfOk result (λ r. r.0.device ≡ device) }
    ensures shown { IfOk result (λ r. arc_value r.1.counters ≡ arc_value r.0.counters) }
{
    let id = receiver_id(plan.receivers, number);
    let ReceiverParts {
        core,
        greatest,
        counters,
        writer,
        reader,
    } = receiver_parts(alloc, &plan.geometry, id)?;
    let shown = Shown {
        counters: Arc::try_clone(&counters)?,
        reader,
    };
    let waiting = Waiting {
        number,
        id,
        core,
        greatest,
        counters,
        writer,
        device,
    };
    Ok((waiting, shown))
}

/// What all receivers begin with, over their devices.
fn receivers_of<D: Drop>(
    alloc: Global,
    plan: &Plan,
    mut replies: Vec<D>,
) -> Result<Receivers<D>, AllocError>
    requires { vec_len replies ≡ plan.now.receivers }
    ensures many { IfOk result (λ r. length r.waiting.items ≡ plan.now.receivers) }
    ensures waiting { IfOk result (λ r. AreWaitingFrom plan.now.geometry plan.now.receivers 0 r.waiting.items) }
    ensures devices { IfOk result (λ r. map device_of r.waiting.items ≡ replies.items) }
    ensures shown { IfOk result (λ r. map shown_of r.shown.items ≡ map counters_of r.waiting.items) }
{
    let mut waiting = Vec::new(alloc);
    let mut shown = Vec::new(alloc);
    for number in 0..plan.receivers as u64 {
        let (receiver, counters) = receiver_of(alloc, plan, number, replies.remove(0))?;
        waiting.push(receiver)?;
        shown.push(counters)?;
    }
    Ok(Receivers { waiting, shown })
}

/// What a run begins with.
#[derive(Drop)]
struct Beginning<D> {
    state: RunState,
    passes: Passes<D>,
    /// The publishers that take no part.
    others: Vec<Publisher>,
    /// The receivers' counters.
    shown: Vec<Shown>,
}

/// What a run begins with over these devices: the sender's ways, and the receivers'.
fn begin<R: Clock, D: Drop>(
    rt: &R,
    alloc: Global,
    plan: &Plan,
    ways: Vec<D>,
    replies: Vec<D>,
) -> Result<Beginning<D>, DeviceError>
    requires ways { vec_len ways ≡ plan.now.receivers }
    requires replies { vec_len replies ≡ plan.now.receivers }
    ensures begins { IfOk result (λ b. IsBeginning plan.now.geometry (size_of plan.now) b) }
    ensures ways { IfOk result (λ b. b.passes.sends ≡ fanned ways.items) }
    ensures devices { IfOk result (λ b. map device_of b.passes.receivers.items ≡ replies.items) }
{
    let began = Began::now(rt)?;
    let (conductor, asking, closing, taker) = Conductor::with_two_clients(alloc)?;
    let RunLog {
        log,
        publishers,
        others,
        reader,
        keeper,
    } = open_run_log(alloc, plan.geometry, plan.publishers)?;
    let Receivers { waiting, shown } = receivers_of(alloc, plan, replies)?;
    let passes = Passes {
        publishers,
        reader,
        keeper,
        asking,
        closing,
        taker,
        sends: Fan::new(ways),
        receivers: waiting,
    };
    Ok(Beginning {
        state: RunState::new(log, conductor, began, plan.receivers),
        passes,
        others,
        shown,
    })
}

/// Runs all threads with these passes. A line of counters goes to the watch's errors once a second, where it shows them.
fn run_with<
    R: Threads + Wait + Clock + Sync,
    D: Datagrams + Send + Drop,
    G: Gate + Sync,
    E: Write + Drop,
>(
    context: &Context<'_, R, G>,
    plan: &Plan,
    passes: Passes<D>,
    watch: Watch<E>,
) -> Result<Returned<D>, DeviceError>
    requires passes { ArePasses context.now.state.now.log context.now.state.now.conductor (size_of plan.now) passes }
    requires log { IsRunLog context.now.state.now.log × (context.now.state.now.log.identity.geometry ≡ plan.now.geometry) }
    ensures { IfOk result (λ r. AreReturned D.device D.tells context.now.state.now.log (size_of plan.now) passes r) }
{
    let agents = Agents {
        context,
        size: size_of(plan),
    };
    run_agents(&agents, passes, watch)
}

/// The book of a log whose threads gave this back.
fn closed(
    log: Log,
    size: &Size,
    published: Publications,
    keeper: Keeper,
    mut others: Vec<Publisher>,
    alloc: Global,
) -> Result<Book, AllocError>
    requires { CanClose log size.now published keeper others.items }
    ensures is { IfOk result (λ book. IsBook log.identity.geometry size.now.task.length size.now.publishers published.accepted book) }
    ensures shows { IfOk result (λ book. ShowsBook log (published.publishers.items ++ others.items) book) }
{
    let mut publishers = published.publishers;
    publishers.append(&mut others)?;
    Ok(close(log, publishers, Vec::new(alloc), keeper))
}

/// What is told of a tally.
fn polled_of(tally: &Tally) -> Polled
    ensures { result ≡ polled_of tally.now }
{
    Polled {
        polled: tally.polled(),
        kept: tally.is_in_order(),
    }
}

/// What is told of receivers that have ended, in their order.
fn told<D>(alloc: Global, received: &[Received<D>]) -> Result<Vec<Polled>, AllocError>
    ensures { IfOk result (λ ps. ps.items ≡ map told_of received.now) }
{
    let mut told = Vec::new(alloc);
    for one in received {
        told.push(polled_of(&one.tally))?;
    }
    Ok(told)
}

/// Their devices, in their order.
fn devices_of<D: Drop>(alloc: Global, received: Vec<Received<D>>) -> Result<Vec<D>, AllocError>
    ensures { IfOk result (λ ds. ds.items ≡ map device_in received.items) }
{
    let mut devices = Vec::new(alloc);
    for one in received {
        devices.push(one.device)?;
    }
    Ok(devices)
}

/// What a run has left, and the receivers' devices, by their numbers.
#[derive(Drop)]
pub struct RunEnd<D> {
    pub outcome: Outcome,
    pub replies: Vec<D>,
}

/// What a run leaves whose threads gave this back.
fn left<D: Drop>(
    alloc: Global,
    plan: &Plan,
    log: Log,
    returned: Returned<D>,
    others: Vec<Publisher>,
) -> Result<RunEnd<D>, AllocError>
    requires shape { log.identity.geometry ≡ plan.now.geometry }
    requires closes { CanClose log (size_of plan.now) returned.parties.published returned.keeper others.items }
    requires many { length returned.parties.received.items ≡ plan.now.receivers }
    requires polled { AllByRecursion (IsPolled (size_of plan.now).wanted) (map told_of returned.parties.received.items) }
    ensures outcome { IfOk result (λ e. IsOutcome plan.now e.outcome) }
    ensures leaves { IfOk result (λ e. Leaves log returned others.items e) }
{
    let size = size_of(plan);
    let Returned { parties, keeper } = returned;
    let Parties {
        published,
        received,
    } = parties;
    let tallies = told(alloc, &received)?;
    let replies = devices_of(alloc, received)?;
    let publishers = published.publishers.len();
    let accepted = published.accepted;
    let book = closed(log, &size, published, keeper, others, alloc)?;
    let outcome = Outcome {
        publishers,
        messages: size.task.messages,
        accepted,
        wanted: size.wanted,
        tallies,
        book,
    };
    Ok(RunEnd { outcome, replies })
}

/// Runs the driver as planned over these devices, one for each receiver: the sender's ways, and the receivers'. It ends as
/// `run` says, and gives the receivers' devices back.
///
/// Each receiver has met nothing when it begins. Its cycles over its device are its life: the datagrams that it heard are those that
/// its device has handed over, where that tells them. Its subscriber has read frames that its image stored, one after the other from
/// the join on, in another thread and with no lock between; and what is told of its tally is the tally of the messages that these
/// frames give, where none was refused as too long.
/// What each publisher has claimed, all of it committed, is its messages 0, 1, 2 and so on, as many as are told were accepted,
/// each whole, and paddings.
pub fn run_over<
    R: Threads + Wait + Clock + Sync,
    D: Datagrams + Send + Drop,
    G: Gate + Sync,
    E: Write + Drop,
>(
    rt: &R,
    alloc: Global,
    plan: &Plan,
    gate: &G,
    errors: E,
    devices: (Vec<D>, Vec<D>),
) -> Result<RunEnd<D>, DeviceError>
    requires ways { vec_len devices.0 ≡ plan.now.receivers }
    requires replies { vec_len devices.1 ≡ plan.now.receivers }
    ensures outcome { IfOk result (λ e. IsOutcome plan.now e.outcome) }
    ensures lives { IfOk result (λ e. ReceiversLive D.device D.tells plan.now devices.1.items e.replies.items e.outcome.tallies.items) }
    ensures published { IfOk result (λ e. PublishersPublish plan.now e.outcome) }
{
    let (ways, replies) = devices;
    let Beginning {
        state,
        passes,
        others,
        shown,
    } = begin(rt, alloc, plan, ways, replies)?;
    let context = Context {
        rt,
        alloc,
        state: &state,
        gate,
        turns: plan.turns,
    };
    let watch = Watch {
        errors,
        shown,
        shows: plan.counters,
    };
    let returned = run_with(&context, plan, passes, watch)?;
    Ok(left(alloc, plan, state.into_log(), returned, others)?)
}

/// Runs over devices that lose as the plan says.
fn run_lossy<R: Threads + Wait + Clock + Sync, G: Gate + Sync, E: Write + Drop>(
    rt: &R,
    alloc: Global,
    plan: &Plan,
    gate: &G,
    errors: E,
    devices: LossyDevices,
) -> Result<Outcome, DeviceError>
    requires { AreLossy plan.now.rates plan.now.seed plan.now.receivers devices.ways.items devices.replies.items }
    ensures outcome { IfOk result (λ o. IsOutcome plan.now o) }
    ensures lives { IfOk result (λ o. ReceiversLiveLossily plan.now o.tallies.items) }
    ensures published { IfOk result (λ o. PublishersPublish plan.now o) }
{
    let LossyDevices { ways, replies } = devices;
    let ended = run_over(rt, alloc, plan, gate, errors, (ways, replies))?;
    Ok(ended.outcome)
}

/// Runs the driver as planned: each publisher's messages are offered, sent as datagrams over UDP on this machine along a way to
/// each receiver, received, and polled by a subscriber of each, until all of these have polled all, or a thread has used its
/// turns. Two receivers and more are a group. What goes along each way and what each receiver sends is lost, repeated and held
/// back by words of a generator of its own: of the plan's seed along the first way, of the seed and 8 + I along way I, and of
/// the seed and 1 + I from receiver I. Where the plan asks for counters, a line of them goes to `errors` once a second. Each
/// receiver lives as `run_over` says; its device tells nothing.
///
/// The fault is `Device` where a socket can't be had or fails, a thread can't be started or the clock can't be read, and
/// `Memory` where memory was refused.
pub fn run<R: Threads + Wait + Clock + Net + Sync, G: Gate + Sync, E: Write + Drop>(
    rt: &R,
    alloc: Global,
    plan: &Plan,
    gate: &G,
    errors: E,
) -> Result<Outcome, DeviceError>
    ensures outcome { IfOk result (λ o. IsOutcome plan.now o) }
    ensures lives { IfOk result (λ o. ReceiversLiveLossily plan.now o.tallies.items) }
    ensures published { IfOk result (λ o. PublishersPublish plan.now o) }
{
    let devices = lossy_devices(rt, alloc, plan.rates, plan.seed, plan.receivers)?;
    run_lossy(rt, alloc, plan, gate, errors, devices)
}
