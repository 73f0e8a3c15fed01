//! A sender's core has duties, where its reads need no log that is lent to them.

ghost use Rattle.std.specs.Prelude.{◌≡◌};

use crate::party::Party;
use flow_control::FlowControl;
use frame_source::FrameSource;
use frames::Outbox;
use sender::{SenderCore, SenderEvent};
use std::alloc::AllocError;

impl<R: FrameSource<()>, F: FlowControl + Drop> Party for SenderCore<R, F> {
    ghost use Rattle.sender.specs.Sending.{HasLooked, SendsFrom};
    ghost use Rattle.agents.specs.Duties.{Hears, Ticks};

    ghost stands = { λ s. R.stands s.reads tt × SendsFrom s (R.source s.reads tt) };

    ghost mtu = { λ s. s.identity.geometry.mtu };

    ghost hears = { Hears (λ r. R.source r tt) (λ r q. R.leaves r tt q tt) F.after_status F.reached F.has_heard };

    ghost ticks = { Ticks (λ r. R.source r tt) (λ r q. R.leaves r tt q tt) (λ r q. HasLooked R.leaves R.looked r tt q tt) R.grown F.after_tick F.reached };

    fn hear(&mut self, datagram: &[u8], now: u64, outbox: &mut Outbox) -> Result<(), AllocError> {
        self.step(&mut (), SenderEvent::Datagram(datagram), now, outbox);
        Ok(())
    }

    fn tick(&mut self, now: u64, outbox: &mut Outbox) {
        self.step(&mut (), SenderEvent::Tick, now, outbox);
    }
}
