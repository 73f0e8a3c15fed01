//! All threads of the driver, timed.

ghost use Rattle.std.specs.Prelude.{◌≡◌, ◌*◌, ◌≤◌, IfOk, OnOk, pos, vec_len};
ghost use Rattle.theory.specs.Position.{max_message};
ghost use Rattle.run_parties.specs.Receivers.{AreReceiverParts};
ghost use Rattle.latency.specs.Beginnings.{ArePasses};

use crate::agent_threads::{MeasuredRun, Passes, start_agents};
use crate::receiving::Handover;
use crate::sampling::{await_stream, poll_all};
use crate::{LatencyError, Samples};
use run_parties::ReceiverParts;
use std::sync::{Mutex, Wait};
use std::thread;
use std::thread::{Scope, Threads};
use std::time::Clock;

/// Waits for the stream, begins once all publishers have come, and polls so many messages.
fn poll_from_begin<R: Wait + Clock>(
    run: &MeasuredRun<'_, R>,
    handover: &Handover,
    wanted: u64,
    samples: &mut Samples,
) -> Result<(), LatencyError>
    requires { vec_len samples.old.taken ≡ 0 }
    ensures { OnOk result (vec_len samples.new.taken ≤ wanted) }
{
    let Some(mut reader) = await_stream(run, handover)? else {
        return Ok(());
    };
    run.course.begin(run.rt, run.load.publishers)?;
    poll_all(run, &mut reader, wanted, samples)
}

/// Starts all threads, polls the messages, and then lets all end.
fn measure_in<'s, S, R: Wait + Clock + Sync>(
    scope: &'s Scope<'s, S>,
    run: &MeasuredRun<'s, R>,
    handover: &'s Handover,
    parts: ReceiverParts,
    passes: Passes,
    mut samples: Samples,
) -> Result<Samples, LatencyError>
    requires passes { ArePasses run.now.state.now.log run.now.state.now.conductor passes }
    requires short { run.now.load.length ≤ max_message run.now.state.now.log.identity.geometry }
    requires parts { AreReceiverParts run.now.state.now.log.identity.geometry (pos 1) parts }
    requires none { vec_len samples.taken ≡ 0 }
    ensures { IfOk result (λ s. vec_len s.taken ≤ run.now.load.publishers * run.now.load.messages) }
{
    let load = run.load;
    start_agents(scope, run, handover, parts, passes);
    let polled = poll_from_begin(run, handover, load.wanted(), &mut samples);
    run.course.stop();
    run.state.stop();
    match polled {
        Ok(()) => Ok(samples),
        Err(fault) => Err(fault),
    }
}

/// Measures in a scope of its own, which is left once all threads have ended. What the scope's closure ensures is known where it
/// holds plain references, and not where it holds a struct of them.
pub fn measure<R: Threads + Wait + Clock + Sync>(
    run: &MeasuredRun<'_, R>,
    parts: ReceiverParts,
    passes: Passes,
    samples: Samples,
) -> Result<Samples, LatencyError>
    requires passes { ArePasses run.now.state.now.log run.now.state.now.conductor passes }
    requires short { run.now.load.length ≤ max_message run.now.state.now.log.identity.geometry }
    requires parts { AreReceiverParts run.now.state.now.log.identity.geometry (pos 1) parts }
    requires none { vec_len samples.taken ≡ 0 }
    ensures { IfOk result (λ s. vec_len s.taken ≤ run.now.load.publishers * run.now.load.messages) }
{
    let &MeasuredRun {
        rt,
        alloc,
        state,
        course,
        load,
    } = run;
    let handover = Mutex::new(None);
    let lent = &handover;
    thread::scope(
        thread::scope_env(),
        rt,
        move |scope| -> Result<Samples, LatencyError>
            requires { ArePasses state.now.log state.now.conductor passes × (load.length ≤ max_message state.now.log.identity.geometry) × AreReceiverParts state.now.log.identity.geometry (pos 1) parts × (vec_len samples.taken ≡ 0) }
            ensures { IfOk result (λ s. vec_len s.taken ≤ load.publishers * load.messages) }
        {
            let run = MeasuredRun {
                rt,
                alloc,
                state,
                course,
                load,
            };
            measure_in(scope, &run, lent, parts, passes, samples)
        },
    )
}
