//! Datagrams that go out.

ghost use Rattle.std.specs.Prelude.{◌≡◌};
ghost use Rattle.endpoint.specs.Devices.{NeverFall};
ghost use Rattle.agents.specs.Traffic.{SendsOut};

use endpoint::{Datagrams, DeviceFailed};
use frames::Outbox;

/// Sends what the outbox holds, in order, up to a fault.
pub(crate) fn send_all<D: Datagrams>(device: &mut D, outbox: &Outbox) -> Result<(), DeviceFailed>
    ensures counts { NeverFall (D.device device.old) (D.device device.new) }
    ensures received { (D.device device.new).received ≡ (D.device device.old).received }
    ensures nones { (D.device device.new).nones ≡ (D.device device.old).nones }
    ensures sends { SendsOut (D.tells device.old) (D.device device.old) outbox.now.datagrams result (D.device device.new) }
    ensures still_tells { D.tells device.old → D.tells device.new }
    ensures lives { D.lives device.old device.new }
{
    for index in 0..outbox.len() {
        let Some(datagram) = outbox.datagram(index) else {
            unreachable!()
        };
        device.send(datagram)?;
    }
    Ok(())
}
