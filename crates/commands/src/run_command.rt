//! A run, and the lines that tell what it left.

ghost use Rattle.std.specs.Prelude.{◌≡◌, ◌⊎◌, Err, IfErr, IfOk, OnOk, flat_map};
ghost use Rattle.std.specs.Io.KnownBytes.{Appends, Keeps};
ghost use Rattle.options.specs.Run.Plans.{IsFirstFault};
ghost use Rattle.options.specs.declared.run.fault.PlanFault.{PlanFault};
ghost use Rattle.commands.specs.Running.{ExplainsRun, IsLeftBy, outcome_text, polled_text};

use crate::fault::Fault;
use options::{RunOptions, plan};
use run::{Ending, Open, Outcome, Polled, run};
use simulation::Line;
use std::alloc::Global;
use std::io::Write;
use std::net::Net;
use std::sync::Wait;
use std::thread::Threads;
use std::time::Clock;

/// Runs the driver as it is told, and writes what it left: for each receiver, in order, how many messages were polled and
/// whether each publisher's came in its order, and then the log's book, a line each. Where counters are asked for, `errors` gets a line of them once a second. The
/// answer is how it ended.
///
/// The fault is that of the plan, `Device` where a socket, a thread or the clock failed, or `Memory`, and then nothing was
/// written; or `Write`.
#[tactic(auto, using(crate::proofs::Ran::device_explains))]
pub fn run_driver<R: Threads + Wait + Clock + Net + Sync, W: Write, E: Write + Drop>(
    rt: &R,
    alloc: Global,
    options: &RunOptions,
    output: &mut W,
    errors: E,
) -> Result<Ending, Fault>
    ensures done { IfOk result (λ ending. IsLeftBy options.now (W.contents output.old) (W.contents output.new) ending) }
    // What makes no plan is told by its first fault.
    ensures refused { (fault : PlanFault) → IsFirstFault options.now fault → result ≡ Err (Fault.Plan fault) }
    ensures fault { IfErr result (ExplainsRun options.now) }
    ensures kept { IfErr result (λ fault. (fault ≡ Fault.Write)
        ⊎ Keeps (W.contents output.old) (W.contents output.new)) }
{
    let plan = plan(options)?;
    let outcome = run(rt, alloc, &plan, &Open, errors)?;
    show_outcome(&outcome, output)?;
    Ok(outcome.ending())
}

/// Writes the lines, and flushes.
fn show_outcome<W: Write>(outcome: &Outcome, output: &mut W) -> Result<(), Fault>
    ensures done { OnOk result (Appends (W.contents output.old) (W.contents output.new) (outcome_text outcome.now)) }
    ensures fault { IfErr result (λ fault. fault ≡ Fault.Write) }
{
    write_all_polled(&outcome.tallies, outcome.wanted, output)?;
    writeln!(output, "{}", Line::Book(outcome.book)).map_err(|_| Fault::Write)?;
    output.flush().map_err(|_| Fault::Write)
}

/// Writes the two lines of each receiver, in order.
fn write_all_polled<W: Write>(tallies: &[Polled], wanted: u64, output: &mut W) -> Result<(), Fault>
    ensures done { OnOk result (Appends (W.contents output.old) (W.contents output.new) (flat_map (polled_text wanted) tallies.now)) }
    ensures fault { IfErr result (λ fault. fault ≡ Fault.Write) }
{
    for tally in tallies {
        write_polled(tally, wanted, output)?;
    }
    Ok(())
}

/// Writes the two lines of a receiver.
fn write_polled<W: Write>(tally: &Polled, wanted: u64, output: &mut W) -> Result<(), Fault>
    ensures done { OnOk result (Appends (W.contents output.old) (W.contents output.new) (polled_text wanted tally.now)) }
    ensures fault { IfErr result (λ fault. fault ≡ Fault.Write) }
{
    let order = if tally.kept { "kept" } else { "broken" };
    writeln!(output, "polled {} of {wanted}", tally.polled).map_err(|_| Fault::Write)?;
    writeln!(output, "order {order}").map_err(|_| Fault::Write)
}
