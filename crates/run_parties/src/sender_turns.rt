//! The sender's turns.

ghost use Rattle.std.specs.Prelude.{◌≡◌, ◌≤◌};
ghost use Rattle.shared_log.specs.Parts.{IsNewReader};
ghost use Rattle.agents.specs.LogSenders.{SendsLog};
ghost use Rattle.run_parties.specs.RunLogs.{IsRunLog};

use crate::context::Context;
use crate::gate::{Gate, Role};
use agents::{Duty, IdleStrategy, StreamSender, open_stream_sender};
use conductor::Client;
use endpoint::{DeviceError, Ways};
use loss_injector::Metered;
use shared_log::LogReader;
use std::sync::Wait;
use std::time::Clock;

/// A cycle, and what it sent told to the others.
fn send_once<R: Wait + Clock, D: Ways, G>(
    context: &Context<'_, R, G>,
    agent: &mut StreamSender<'_>,
    client: &mut Client,
    duty: &mut Duty<Metered<D>>,
) -> Result<bool, DeviceError>
    requires agent { SendsLog context.now.state.now.log agent.old }
    requires size { duty.old.mtu ≡ context.now.state.now.log.identity.geometry.mtu }
    requires queue { client.old.queue ≡ context.now.state.now.conductor }
    ensures agent { SendsLog context.now.state.now.log agent.new }
    ensures size { duty.new.mtu ≡ duty.old.mtu }
    ensures queue { client.new.queue ≡ client.old.queue }
{
    let (rt, state) = (context.rt, context.state);
    let now = state.moment(rt)?;
    let busy = agent.cycle(rt, &state.conductor, client, duty, now)?;
    state.tell_sent(duty.device().sent(), duty.device().resent());
    Ok(busy)
}

/// Sends until all is to stop, or its turns are used.
fn send_on<R: Wait + Clock, D: Ways, G: Gate>(
    context: &Context<'_, R, G>,
    agent: &mut StreamSender<'_>,
    client: &mut Client,
    duty: &mut Duty<Metered<D>>,
) -> Result<(), DeviceError>
    requires agent { SendsLog context.now.state.now.log agent.old }
    requires size { duty.old.mtu ≡ context.now.state.now.log.identity.geometry.mtu }
    requires queue { client.old.queue ≡ context.now.state.now.conductor }
{
    let mut idle = IdleStrategy::new();
    for turn in 0..context.turns {
        if context.state.is_stopped() {
            break;
        }
        context.gate.enter(Role::Sender, turn);
        let ended = send_once(context, agent, client, duty);
        context.gate.leave(Role::Sender, turn);
        idle.after(context.rt, ended?);
    }
    Ok(())
}

/// Sends all that the log's reader finds, over a device, along each of its ways to a receiver.
fn send_log<R: Wait + Clock, D: Ways + Drop, G: Gate>(
    context: &Context<'_, R, G>,
    device: D,
    reader: LogReader,
    client: &mut Client,
) -> Result<(), DeviceError>
    requires ways { D.way_count device ≤ 8 }
    requires reader { IsNewReader context.now.state.now.log 0 reader }
    requires log { IsRunLog context.now.state.now.log }
    requires queue { client.old.queue ≡ context.now.state.now.conductor }
{
    let (alloc, log) = (context.alloc, &context.state.log);
    let geometry = log.identity().geometry();
    let mut agent = open_stream_sender(alloc, log, reader, device.ways())?;
    let device = Metered::new(device, geometry);
    let mut duty = Duty::new(alloc, device, geometry.mtu())?;
    send_on(context, &mut agent, client, &mut duty)
}

/// Sends along each way of a device, to a receiver each, until all is to stop or its turns are used, and then stops all. From
/// two ways on the receivers are a group, by their ids. The fault is `Device` where the device failed or the
/// clock can't be read, and `Memory` where memory was refused; it stops all, too.
pub fn send<R: Wait + Clock, D: Ways + Drop, G: Gate>(
    context: &Context<'_, R, G>,
    device: D,
    reader: LogReader,
    mut client: Client,
) -> Result<(), DeviceError>
    requires ways { D.way_count device ≤ 8 }
    requires reader { IsNewReader context.now.state.now.log 0 reader }
    requires log { IsRunLog context.now.state.now.log }
    requires queue { client.queue ≡ context.now.state.now.conductor }
{
    let ended = send_log(context, device, reader, &mut client);
    context.state.stop();
    ended
}
