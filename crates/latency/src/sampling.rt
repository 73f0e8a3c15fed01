//! The subscriber of the driver, which takes samples.

ghost use Rattle.std.specs.Prelude.{◌≡◌, ◌≤◌, ◌+◌, IfOk, OnOk, vec_len};

use crate::agent_threads::MeasuredRun;
use crate::receiving::Handover;
use crate::{LatencyError, Samples, stamp_in};
use agents::IdleStrategy;
use assembler::{AssemblyError, Message};
use receiver::MessageReader;
use std::alloc::Global;
use std::sync::Wait;
use std::time::Clock;

/// After how many nanoseconds without a message the subscriber gives up.
const PATIENCE: u64 = 60_000_000_000;

/// Whether nothing is to be waited for any more: all ends, or there was no message for too long.
fn is_over<R: Clock>(run: &MeasuredRun<'_, R>, since: u64) -> Result<bool, LatencyError> {
    if run.state.is_stopped() || run.course.is_stopped() {
        return Ok(true);
    }
    let now = run.course.moment(run.rt)?;
    Ok(now.saturating_sub(since) > PATIENCE)
}

/// Waits until the stream has come, and who reads its image was handed over; or until nothing is to be waited for any more.
pub fn await_stream<R: Wait + Clock>(
    run: &MeasuredRun<'_, R>,
    handover: &Handover,
) -> Result<Option<MessageReader>, LatencyError> {
    let mut idle = IdleStrategy::new();
    for _ in run.rt.forever() {
        let reader = handover.lock(run.rt).take();
        if reader.is_some() || is_over(run, 0)? {
            return Ok(reader);
        }
        idle.rest(run.rt);
    }
    unreachable!()
}

/// Polls until there is no message, and takes a sample of each; of so many at the most. The answer is how many there were.
fn poll_some<R: Wait + Clock>(
    run: &MeasuredRun<'_, R>,
    reader: &mut MessageReader,
    most: u64,
    samples: &mut Samples,
) -> Result<u64, LatencyError>
    ensures { IfOk result (λ count. (count ≤ most) × (vec_len samples.new.taken ≤ vec_len samples.old.taken + count)) }
{
    for count in 0..most {
        let Some(stamp) = stamp_of(reader.next())? else {
            return Ok(count);
        };
        let now = run.course.moment(run.rt)?;
        samples.take(stamp, now)?;
        reader.pass();
    }
    Ok(most)
}

/// The stamp of a message that was polled, if there was one.
fn stamp_of(
    polled: Result<Option<Message<Global>>, AssemblyError>,
) -> Result<Option<u64>, LatencyError> {
    match polled {
        Ok(Some(message)) => Ok(stamp_in(&message.bytes)),
        Ok(None) | Err(AssemblyError::TooLong) => Ok(None),
        Err(AssemblyError::Memory) => Err(LatencyError::Memory),
    }
}

/// Polls so many messages, and takes a sample of each; fewer where nothing is to be waited for any more.
pub fn poll_all<R: Wait + Clock>(
    run: &MeasuredRun<'_, R>,
    reader: &mut MessageReader,
    wanted: u64,
    samples: &mut Samples,
) -> Result<(), LatencyError>
    requires { vec_len samples.old.taken ≡ 0 }
    ensures { OnOk result (vec_len samples.new.taken ≤ wanted) }
{
    let mut left = wanted;
    let mut idle = IdleStrategy::new();
    for _ in run.rt.forever() {
        let count = poll_some(run, reader, left, samples)?;
        left -= count;
        if left == 0 || count == 0 && is_over(run, samples.last)? {
            return Ok(());
        }
        idle.after(run.rt, count > 0);
    }
    unreachable!()
}
