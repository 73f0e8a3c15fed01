//! A receiver with its subscriber has duties, and a receiver's core alone.

ghost use Rattle.std.specs.Prelude.{◌≡◌, ◌≤◌, ◌++◌, ⊤, [], map};
ghost use Rattle.std.specs.List.{AllByRecursion};
ghost use Rattle.theory.specs.Wire.{IsFrame, spelling};
ghost use Rattle.receiver.specs.Receiving.{replied};

use crate::party::Party;
use frames::{Frame, Outbox};
use receiver::{ReceiverCore, Replies, Subscriber};
use std::alloc::AllocError;

/// How many bytes a receiver's datagram has at the most.
pub const REPLY: u32 = 40;

/// Puts what a tick sends into the outbox, each in a datagram of its own.
fn put_replies(replies: &Replies, outbox: &mut Outbox)
    requires frames { AllByRecursion IsFrame (replied replies.now) }
    requires empty { outbox.old.datagrams ≡ [] }
    requires size { outbox.old.mtu ≡ 40 }
    ensures { outbox.new ≡ record outbox.old { datagrams = map spelling (replied replies.now) } }
{
    if let Some(status) = replies.asking {
        outbox.push(&Frame::Status { asks: true, status });
    }
    if let Some(nak) = replies.nak {
        outbox.push(&Frame::Nak(nak));
    }
    if let Some(status) = replies.status {
        outbox.push(&Frame::Status {
            asks: false,
            status,
        });
    }
}

impl Party for Subscriber {
    ghost use Rattle.agents.specs.Parties.{ReceiverHears, ReceiverTicks};

    ghost stands = { λ s. ⊤ };

    ghost mtu = { λ s. 40 };

    ghost hears = { ReceiverHears };

    ghost ticks = { ReceiverTicks };

    fn hear(&mut self, datagram: &[u8], now: u64, outbox: &mut Outbox) -> Result<(), AllocError> {
        outbox.clear();
        self.on_datagram(datagram, now)?;
        Ok(())
    }

    fn tick(&mut self, now: u64, outbox: &mut Outbox) {
        outbox.clear();
        let replies = Subscriber::tick(self, now);
        put_replies(&replies, outbox);
    }
}

impl Party for ReceiverCore {
    ghost use Rattle.agents.specs.Parties.{CoreHears, CoreTicks};

    ghost stands = { λ s. ⊤ };

    ghost mtu = { λ s. 40 };

    ghost hears = { CoreHears };

    ghost ticks = { CoreTicks };

    fn hear(&mut self, datagram: &[u8], now: u64, outbox: &mut Outbox) -> Result<(), AllocError> {
        outbox.clear();
        self.on_datagram(datagram, now)?;
        Ok(())
    }

    fn tick(&mut self, now: u64, outbox: &mut Outbox) {
        outbox.clear();
        let replies = ReceiverCore::tick(self, now);
        put_replies(&replies, outbox);
    }
}
