//! A receiver's turns.

ghost use Rattle.std.specs.Prelude.{◌≡◌, ◌<◌, ◌^◌, ℕ, None, Some, IfNone, IfOk, IfSome, OnOk};
ghost use Rattle.agents.specs.Cycles.{Cycle};
ghost use Rattle.agents.specs.Parties.{CoreHears, CoreTicks};

use crate::context::Context;
use crate::gate::{Gate, Role};
use crate::poller::Poller;
use crate::reception::{Begins, Reception};
use crate::subscriber_thread::{Subscribing, start_subscriber};
use agents::{IdleStrategy, Named};
use counters::Counters;
use endpoint::{Datagrams, DeviceError};
use std::sync::Wait;
use std::thread::Scope;
use std::time::Clock;

/// Whom a receiver's thread runs: its number, and of its subscriber the bytes of the longest message and how many are wanted.
#[derive(Clone, Copy)]
pub struct Duties {
    pub number: u64,
    pub greatest: usize,
    pub wanted: u64,
}

/// A cycle.
fn receive_once<N: Named + Begins, R: Wait + Clock, D: Datagrams, G>(
    context: &Context<'_, R, G>,
    reception: &mut Reception<N, D>,
    counters: &Counters,
) -> Result<bool, DeviceError>
    requires { counters.now ≡ N.counters }
    ensures cycle { IfOk result (λ busy. (now : ℕ) × Cycle CoreHears CoreTicks now (D.tells reception.old.duty.device) reception.old.core (D.device reception.old.duty.device) busy reception.new.core (D.device reception.new.duty.device)) }
    ensures image { reception.new.image ≡ reception.old.image }
    ensures still { OnOk result (reception.new.fault ≡ reception.old.fault) }
{
    let now = context.state.moment(context.rt)?;
    reception.cycle(context.rt, counters, now)
}

/// Starts the thread of the subscriber, once there is an image.
fn start_reading<'s, S, N: Named + Begins, R: Wait + Clock + Sync, D: Datagrams, G: Gate + Sync>(
    scope: &'s Scope<'s, S>,
    context: &Context<'s, R, G>,
    reception: &mut Reception<N, D>,
    duties: &Duties,
) -> Result<Option<Subscribing>, DeviceError>
    requires room { duties.now.wanted < 2 ^ 63 }
    requires none { (reception.old.image ≡ None) × (reception.old.fault ≡ None) }
    ensures some { IfOk result (λ o. IfSome o (λ h. (h.promise.wanted ≡ duties.now.wanted) × (reception.new.image ≡ Some h.promise.before.value.reader.image))) }
    ensures none { IfOk result (λ o. IfNone o (reception.new.image ≡ None)) }
    ensures still { reception.new.fault ≡ None }
{
    let Ok(taken) = reception.take_reader(context.alloc, duties.greatest) else {
        return Err(DeviceError::Memory);
    };
    let Some(reader) = taken else {
        return Ok(None);
    };
    let handle = start_subscriber(scope, context, Poller::new(reader), duties.wanted)?;
    Ok(Some(handle))
}

/// Receives until all is to stop, or its turns are used. The answer is the thread of its subscriber, if there was an image.
fn receive_on<'s, S, N: Named + Begins, R: Wait + Clock + Sync, D: Datagrams, G: Gate + Sync>(
    scope: &'s Scope<'s, S>,
    context: &Context<'s, R, G>,
    reception: &mut Reception<N, D>,
    counters: &Counters,
    duties: &Duties,
) -> Result<Option<Subscribing>, DeviceError>
    requires counters { counters.now ≡ N.counters }
    requires room { duties.now.wanted < 2 ^ 63 }
    requires none { (reception.old.image ≡ None) × (reception.old.fault ≡ None) }
    ensures { IfOk result (λ o. IfSome o (λ h. (h.promise.wanted ≡ duties.now.wanted) × (reception.new.image ≡ Some h.promise.before.value.reader.image))) }
{
    let role = Role::Receiver(duties.number);
    let mut idle = IdleStrategy::new();
    let mut subscriber = None;
    for turn in 0..context.turns {
        if context.state.is_stopped() {
            break;
        }
        context.gate.enter(role, turn);
        let ended = receive_once(context, reception, counters);
        context.gate.leave(role, turn);
        let busy = ended?;
        if subscriber.is_none() {
            subscriber = start_reading(scope, context, reception, duties)?;
        }
        idle.after(context.rt, busy);
    }
    Ok(subscriber)
}

/// The receiver of this number receives until all is to stop or its turns are used, and then stops all. Once a SETUP has opened its
/// image it starts the thread of its subscriber, which is the answer. The fault is `Device` where the device failed, the clock
/// can't be read or the thread can't be started, and `Memory` where memory was refused; it stops all, too.
pub fn receive<'s, S, N: Named + Begins, R: Wait + Clock + Sync, D: Datagrams, G: Gate + Sync>(
    scope: &'s Scope<'s, S>,
    context: &Context<'s, R, G>,
    reception: &mut Reception<N, D>,
    counters: &Counters,
    duties: &Duties,
) -> Result<Option<Subscribing>, DeviceError>
    requires counters { counters.now ≡ N.counters }
    requires room { duties.now.wanted < 2 ^ 63 }
    requires none { (reception.old.image ≡ None) × (reception.old.fault ≡ None) }
    ensures { IfOk result (λ o. IfSome o (λ h. (h.promise.wanted ≡ duties.now.wanted) × (reception.new.image ≡ Some h.promise.before.value.reader.image))) }
{
    let ended = receive_on(scope, context, reception, counters, duties);
    context.state.stop();
    ended
}
