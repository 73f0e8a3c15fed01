//! The thread of a receiver, which starts its subscriber's.

ghost use Rattle.std.specs.Prelude.{◌≡◌, ◌≤◌, ◌<◌, ◌^◌, None, IfOk};
ghost use Rattle.std.specs.Arc.{arc_value};
ghost use Rattle.run_parties.specs.Receivers.{HasReceived, IsWaitingReceiver};
ghost use Rattle.run_parties.specs.Receptions.{EndsLife, Names};

use crate::context::Context;
use crate::gate::Gate;
use crate::receiver_turns::{Duties, receive};
use crate::reception::{Begins, Received, Reception};
use crate::subscriber_thread::joined;
use agents::{Duty, Named, REPLY};
use counters::{CounterWriter, Counters};
use endpoint::{Datagrams, DeviceError};
use receiver::ReceiverCore;
use std::marker::Brand;
use std::sync::{Arc, Wait};
use std::thread::{Scope, Threads};
use std::time::Clock;

/// A receiver that waits for its thread: its number and its id, its core, the bytes of the longest message that its subscriber takes,
/// its counters with their writer, and its device.
#[derive(Drop)]
pub struct Waiting<D> {
    pub number: u64,
    pub id: i64,
    pub core: ReceiverCore,
    pub greatest: usize,
    pub counters: Arc<Counters>,
    pub writer: CounterWriter,
    pub device: D,
}

/// A receiver that waits as its thread has it, and the counters that it publishes. Where memory is refused all stops.
fn reception_of<N: Named + Begins, R, D: Datagrams + Drop, G>(
    context: &Context<'_, R, G>,
    waiting: Waiting<D>,
) -> Result<(Reception<N, D>, Arc<Counters>), DeviceError>
    requires { Names D.device D.tells waiting N.counters N.receiver N.device N.tells }
    ensures new { IfOk result (λ r. (r.0.image ≡ None) × (r.0.fault ≡ None)) }
    ensures counters { IfOk result (λ r. arc_value r.1 ≡ N.counters) }
{
    let Waiting {
        number: _,
        id: _,
        core,
        greatest: _,
        counters,
        writer,
        device,
    } = waiting;
    let Ok(duty) = Duty::new(context.alloc, device, REPLY) else {
        context.state.stop();
        return Err(DeviceError::Memory);
    };
    Ok((Reception::new(core, writer, duty), counters))
}

/// What a receiver's thread does whose begin has this name.
fn run_named<
    's,
    S,
    N: Named + Begins,
    R: Threads + Wait + Clock + Sync,
    D: Datagrams + Drop,
    G: Gate + Sync,
>(
    scope: &'s Scope<'s, S>,
    context: &Context<'s, R, G>,
    wanted: u64,
    waiting: Waiting<D>,
) -> Result<Received<D>, DeviceError>
    requires names { Names D.device D.tells waiting N.counters N.receiver N.device N.tells }
    requires room { wanted < 2 ^ 63 }
    ensures lived { IfOk result (λ r. EndsLife N.receiver N.tells N.device (D.device r.device) r.tally r.refused) }
    ensures most { IfOk result (λ r. r.tally.polled ≤ wanted) }
{
    let duties = Duties {
        number: waiting.number,
        greatest: waiting.greatest,
        wanted,
    };
    let (mut reception, counters) = reception_of::<N, R, D, G>(context, waiting)?;
    let subscriber = receive(scope, context, &mut reception, &counters, &duties)?;
    let poller = joined(context.rt, subscriber)?;
    reception.end(poller)
}

/// What the thread of a receiver does, one of so many: it receives until all is to stop or its turns are used, starts a thread in
/// which its subscriber polls at most so many messages, once a SETUP has opened its image, and joins that thread. The two share
/// the image, without a lock. The answer is the device and the tally: the receiver has lived over the device, and the tally is that
/// of the messages that its subscriber read in its image. The fault is that of `receive` or `subscribe`, and `Memory` where memory
/// was refused; it stops all.
pub fn run_receiver<
    's,
    S,
    R: Threads + Wait + Clock + Sync,
    D: Datagrams + Send + Drop + 's,
    G: Gate + Sync,
>(
    scope: &'s Scope<'s, S>,
    context: &Context<'s, R, G>,
    receivers: usize,
    wanted: u64,
    waiting: Waiting<D>,
) -> Result<Received<D>, DeviceError>
    requires waits { IsWaitingReceiver context.now.state.now.log.identity.geometry receivers waiting.number waiting }
    requires room { wanted < 2 ^ 63 }
    ensures { IfOk result (HasReceived D.device D.tells context.now.state.now.log.identity.geometry receivers wanted waiting.number waiting.device) }
{
    run_named::<S, Brand, R, D, G>(scope, context, wanted, waiting)
}
