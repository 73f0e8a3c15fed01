//! The driver, timed.

ghost use Rattle.std.specs.Prelude.{◌≡◌, ◌*◌, ◌^◌, ◌<◌, ◌≤◌, IfOk, vec_len};
ghost use Rattle.theory.specs.Position.{max_message};
ghost use Rattle.latency.specs.Beginnings.{ArePasses, AreThreadPasses};

use crate::agent_threads::{MeasuredRun, Passes, ThreadPasses};
use crate::measured_run::measure;
use crate::{Course, LatencyError, Plan, Samples, Timed, timed_by};
use agents::Began;
use conductor::Conductor;
use endpoint::Fan;
use position::Geometry;
use run_parties::{
    LossyDevices, RunLog, RunState, lossy_devices, open_run_log, receiver_id, receiver_parts,
};
use std::alloc::Global;
use std::net::Net;
use std::sync::Wait;
use std::thread::Threads;
use std::time::Clock;

/// What the driver's threads share, and their passes.
fn shared(
    alloc: Global,
    plan: &Plan,
    began: Began,
) -> Result<(RunState, ThreadPasses), LatencyError>
    ensures shape { IfOk result (λ r. r.0.log.identity.geometry ≡ plan.now.geometry) }
    ensures passes { IfOk result (λ r. AreThreadPasses r.0.log r.0.conductor r.1) }
{
    let (conductor, client, taker) = Conductor::with_client(alloc)?;
    let publishers = plan.load.publishers as usize;
    let RunLog {
        log,
        publishers,
        others: _,
        reader,
        keeper,
    } = open_run_log(alloc, plan.geometry, publishers)?;
    let passes = ThreadPasses {
        publishers,
        reader,
        keeper,
        client,
        taker,
    };
    Ok((RunState::new(log, conductor, began, 1), passes))
}

/// The same with their devices, but for the receiver.
fn begin<R: Net>(
    rt: &R,
    alloc: Global,
    plan: &Plan,
    began: Began,
) -> Result<(RunState, Passes), LatencyError>
    ensures shape { IfOk result (λ r. r.0.log.identity.geometry ≡ plan.now.geometry) }
    ensures passes { IfOk result (λ r. ArePasses r.0.log r.0.conductor r.1) }
{
    let LossyDevices { ways, mut replies } = lossy_devices(rt, alloc, plan.rates, plan.seed, 1)?;
    let (state, threads) = shared(alloc, plan, began)?;
    let passes = Passes {
        threads,
        sends: Fan::new(ways),
        replies: replies.remove(0),
    };
    Ok((state, passes))
}

/// What is measured with these passes; the receiver's parts and the samples get their room first.
fn measured<R: Threads + Wait + Clock + Sync>(
    run: &MeasuredRun<'_, R>,
    geometry: &Geometry,
    passes: Passes,
) -> Result<Samples, LatencyError>
    requires shape { run.now.state.now.log.identity.geometry ≡ geometry.now }
    requires short { run.now.load.length ≤ max_message geometry.now }
    requires passes { ArePasses run.now.state.now.log run.now.state.now.conductor passes }
    ensures most { IfOk result (λ s. vec_len s.taken ≤ run.now.load.publishers * run.now.load.messages) }
    ensures few { IfOk result (λ s. vec_len s.taken < 2 ^ 36) }
{
    let samples = Samples::new(run.alloc, run.load.wanted())?;
    let parts = receiver_parts(run.alloc, geometry, receiver_id(1, 0))?;
    measure(run, parts, passes, samples)
}

/// Times the driver: publishers offer messages, each in a thread of its own; they are sent as datagrams over UDP on this
/// machine, received, and polled by this thread. A message is timed from its stamp to the moment at which it was polled; at
/// full load the stamp is the moment before its first offer, and else the moment at which it is due. The begin is the moment
/// at which the receiver has met the stream and all publishers have come. What goes from the sender and what goes from the
/// receiver is lost by words of two generators, of the plan's seed and the one behind it.
///
/// Where no message comes for a minute fewer are timed than were asked for. It fails where none came, memory is refused, a
/// thread can't be started, a socket can't be had or fails, the clock can't be read or the log is used up.
pub fn time_driver<R: Threads + Wait + Clock + Net + Sync>(
    rt: &R,
    alloc: Global,
    plan: &Plan,
) -> Result<Timed, LatencyError>
    ensures { IfOk result (λ t. t.messages ≤ plan.now.load.publishers * plan.now.load.messages) }
{
    let course = Course::new(rt)?;
    let (state, passes) = begin(rt, alloc, plan, course.origin)?;
    let run = MeasuredRun {
        rt,
        alloc,
        state: &state,
        course: &course,
        load: plan.load,
    };
    let samples = measured(&run, &plan.geometry, passes)?;
    course.outcome()?;
    timed_by(samples)
}
