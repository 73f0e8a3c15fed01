//! The receiver of the driver, which hands over who reads its image.

ghost use Rattle.std.specs.Prelude.{◌≡◌, None, pos};
ghost use Rattle.std.specs.Arc.{arc_value};
ghost use Rattle.run_parties.specs.Receivers.{AreReceiverParts, new_receiver};

use agents::{Duty, IdleStrategy, Named, REPLY};
use counters::Counters;
use endpoint::{Datagrams, DeviceError};
use receiver::MessageReader;
use run_parties::{Begins, Context, ReceiverParts, Reception};
use std::marker::Brand;
use std::sync::{Mutex, Wait};
use std::time::Clock;

/// Where the receiver's thread puts who reads its image, and the thread that takes samples finds it: their only lock.
pub type Handover = Mutex<Option<MessageReader>>;

/// Receives until all is to stop or its turns are used, and hands over who reads its image once a SETUP has opened that.
fn receive_on<N: Named + Begins, R: Wait + Clock, D: Datagrams, G>(
    context: &Context<'_, R, G>,
    handover: &Handover,
    reception: &mut Reception<N, D>,
    counters: &Counters,
    greatest: usize,
) -> Result<(), DeviceError>
    requires counters { counters.now ≡ N.counters }
    requires still { reception.old.fault ≡ None }
{
    let mut idle = IdleStrategy::new();
    for _ in 0..context.turns {
        if context.state.is_stopped() {
            break;
        }
        let now = context.state.moment(context.rt)?;
        let busy = reception.cycle(context.rt, counters, now)?;
        let Ok(taken) = reception.take_reader(context.alloc, greatest) else {
            return Err(DeviceError::Memory);
        };
        if let Some(reader) = taken {
            *handover.lock(context.rt) = Some(reader);
        }
        idle.after(context.rt, busy);
    }
    Ok(())
}

/// The same from its begin on, over a device.
fn receive_named<N: Named + Begins, R: Wait + Clock, D: Datagrams + Drop, G>(
    context: &Context<'_, R, G>,
    handover: &Handover,
    parts: ReceiverParts,
    device: D,
) -> Result<(), DeviceError>
    requires parts { AreReceiverParts context.now.state.now.log.identity.geometry (pos 1) parts }
    requires receiver { N.receiver ≡ new_receiver context.now.state.now.log.identity.geometry (pos 1) }
    requires counters { arc_value parts.counters ≡ N.counters }
    requires device { (D.device device ≡ N.device) × (N.tells → D.tells device) }
{
    let ReceiverParts {
        core,
        greatest,
        counters,
        writer,
        reader: _,
    } = parts;
    let duty = Duty::new(context.alloc, device, REPLY)?;
    let mut reception = Reception::<N, D>::new(core, writer, duty);
    receive_on(context, handover, &mut reception, &counters, greatest)
}

/// Receives until all is to stop or its turns are used, and hands over who reads its image once a SETUP has opened that. The fault is
/// `Device` where the device failed or the clock can't be read, and `Memory` where memory was refused.
pub fn receive<R: Wait + Clock, D: Datagrams + Drop, G>(
    context: &Context<'_, R, G>,
    handover: &Handover,
    parts: ReceiverParts,
    device: D,
) -> Result<(), DeviceError>
    requires { AreReceiverParts context.now.state.now.log.identity.geometry (pos 1) parts }
{
    receive_named::<Brand, R, D, G>(context, handover, parts, device)
}
