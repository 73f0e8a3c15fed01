//! The thread of a subscriber.
//!
//! What a thread promises is known of a closure that holds plain references, and not of one that holds a struct of them: so
//! the context is taken apart before such a closure, and put together in it.

ghost use Rattle.std.specs.Prelude.{◌≡◌, ◌≤◌, ◌<◌, ◌^◌, None, IfNone, IfOk, IfSome};
ghost use Rattle.run_parties.specs.Receptions.{HasPolledOn};

use crate::context::Context;
use crate::gate::Gate;
use crate::poller::Poller;
use crate::subscriber_turns::subscribe;
use endpoint::DeviceError;
use std::snapshot::Snapshot;
use std::sync::Wait;
use std::thread::{Promise, PromisedHandle, Scope, Threads};
use std::time::Clock;

/// A thread gives who polled back, which has polled at most so many messages of its image.
#[derive(Drop)]
pub struct PolledOn {
    pub before: Snapshot<Poller>,
    pub wanted: u64,
}

impl Promise<Result<Poller, DeviceError>> for PolledOn {
    ghost kept_by = { λ p r. IfOk r (HasPolledOn p.wanted p.before.value) };
}

/// The thread of a subscriber.
pub type Subscribing = PromisedHandle<Result<Poller, DeviceError>, PolledOn>;

/// Starts the thread of a subscriber. Where it can't be started all stops.
pub fn start_subscriber<'s, S, R: Wait + Clock + Sync, G: Gate + Sync>(
    scope: &'s Scope<'s, S>,
    context: &Context<'s, R, G>,
    poller: Poller,
    wanted: u64,
) -> Result<Subscribing, DeviceError>
    requires few { poller.tally.polled ≤ wanted }
    requires room { wanted < 2 ^ 63 }
    ensures { IfOk result (λ h. (h.promise.before.value ≡ poller) × (h.promise.wanted ≡ wanted)) }
{
    let &Context {
        rt,
        alloc,
        state,
        gate,
        turns,
    } = context;
    let promise = PolledOn {
        before: Snapshot::of(&poller),
        wanted,
    };
    let Ok(handle) = scope.spawn_with(
        promise,
        move || -> Result<Poller, DeviceError>
            requires { (poller.tally.polled ≤ wanted) × (wanted < 2 ^ 63) }
            ensures { IfOk result (HasPolledOn wanted poller) }
        {
            let context = Context {
                rt,
                alloc,
                state,
                gate,
                turns,
            };
            subscribe(&context, poller, wanted)
        },
    ) else {
        return Err(state.halt());
    };
    Ok(handle)
}

/// Who polled in a thread that was started, once that has ended.
pub fn joined<R: Threads>(
    rt: &R,
    started: Option<Subscribing>,
) -> Result<Option<Poller>, DeviceError>
    ensures none { IfOk result (λ o. IfNone started (o ≡ None)) }
    ensures some { IfOk result (λ o. IfSome o (λ p. IfSome started (λ h. HasPolledOn h.promise.wanted h.promise.before.value p))) }
{
    match started {
        None => Ok(None),
        Some(handle) => Ok(Some(handle.join(rt)?)),
    }
}
