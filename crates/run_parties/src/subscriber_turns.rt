//! A subscriber's turns.

ghost use Rattle.std.specs.Prelude.{◌≡◌, ◌≤◌, ◌<◌, ◌^◌, ◌↔◌, IfOk, IsOkAnd, IsTrue};
ghost use Rattle.run_parties.specs.Receptions.{HasPolledOn};

use crate::context::Context;
use crate::poller::Poller;
use agents::IdleStrategy;
use endpoint::DeviceError;
use std::sync::Wait;
use std::time::Clock;

/// Polls until so many were there, all is to stop, or its turns are used.
fn subscribe_on<R: Wait + Clock, G>(
    context: &Context<'_, R, G>,
    mut poller: Poller,
    wanted: u64,
) -> Result<Poller, DeviceError>
    requires few { poller.tally.polled ≤ wanted }
    requires room { wanted < 2 ^ 63 }
    ensures { IfOk result (HasPolledOn wanted poller) }
{
    let mut idle = IdleStrategy::new();
    for _ in 0..context.turns {
        if poller.polled() >= wanted || context.state.is_stopped() {
            break;
        }
        let before = poller.polled();
        let busy = poller.poll_some(wanted)?;
        context
            .state
            .tell_polled(poller.polled().saturating_sub(before));
        idle.after(context.rt, busy);
    }
    Ok(poller)
}

/// Whether a subscriber that ended so has polled as many as were wanted.
fn is_complete(ended: &Result<Poller, DeviceError>, wanted: u64) -> bool
    ensures { IsTrue result ↔ IsOkAnd ended.now (λ p. wanted ≤ p.tally.polled) }
{
    match ended {
        Ok(poller) => poller.polled() >= wanted,
        Err(_) => false,
    }
}

/// Polls, at most 16 messages in a turn, until so many were there, all is to stop or its turns are used. Where so many weren't
/// there it then stops all, and else only as the last subscriber to end. The answer is who polled. The fault is `Memory`, where
/// memory was refused; it stops all, too.
pub fn subscribe<R: Wait + Clock, G>(
    context: &Context<'_, R, G>,
    poller: Poller,
    wanted: u64,
) -> Result<Poller, DeviceError>
    requires few { poller.tally.polled ≤ wanted }
    requires room { wanted < 2 ^ 63 }
    ensures { IfOk result (HasPolledOn wanted poller) }
{
    let ended = subscribe_on(context, poller, wanted);
    context.state.leave(is_complete(&ended, wanted));
    ended
}
