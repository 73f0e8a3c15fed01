//! A sender's core with its one command.

ghost use Rattle.std.specs.Prelude.{◌≡◌, ◌≤◌, false};
ghost use Rattle.sender.specs.Sending.{BeginsAt, HasLooked, SendsFrom};
ghost use Rattle.agents.specs.Asking.{AsksOnce};
ghost use Rattle.agents.specs.Duties.{AgentCycle, Hears, Ticks};

use crate::duty::Duty;
use conductor::{Client, Command, Conductor};
use endpoint::{DeviceError, Ways};
use flow_control::FlowControl;
use frame_source::FrameSource;
use sender::SenderCore;
use std::marker::Model;
use std::sync::Wait;

/// A sender's core that asks once for Connect, when a status message has come that doesn't ask for a SETUP.
#[derive(Drop)]
pub struct SenderAgent<R, F> {
    core: SenderCore<R, F>,
    asked: bool,
}

impl<R, F> Model for SenderAgent<R, F> {
    ghost use Rattle.std.specs.Prelude.{◌≡◌, true};
    ghost use Rattle.agents.specs.Duties.{Agent};

    ghost Value = { Agent R F };

    ghost view = { λ a. record { core = a.core; asked = a.asked } };

    ghost invariant = { λ a. a.asked ≡ true → a.core.heard ≡ true };
}

impl<R, F: FlowControl + Drop> SenderAgent<R, F> {
    /// The agent of this core. It hasn't asked.
    pub fn new(core: SenderCore<R, F>) -> SenderAgent<R, F>
        ensures { result ≡ record { core = core; asked = false } }
    {
        SenderAgent { core, asked: false }
    }

    /// Gives the core back.
    pub fn into_core(self) -> SenderCore<R, F>
        ensures { result ≡ self.core }
    {
        let SenderAgent { core, asked: _ } = self;
        core
    }

    /// The position of its core: the end of what that has sent of the stream.
    pub fn position(&self) -> u64
        ensures { result ≡ self.now.core.handler.at }
    {
        self.core.position()
    }

    /// Goes on by another flow control, which allows no more than what was sent.
    pub fn set_flow(&mut self, flow: F)
        requires begins { BeginsAt self.old.core.handler.at (F.reached flow) (F.allowed flow) }
        ensures { self.new ≡ record self.old { core = record self.old.core { flow = flow } } }
    {
        self.core.set_flow(flow);
    }

    /// Asks for Connect, where a status message was heard and the queue hasn't taken the command yet.
    fn ask_once<W: Wait>(&mut self, rt: &W, conductor: &Conductor, client: &mut Client)
        requires { client.old.queue ≡ conductor.now }
        ensures core { self.new.core ≡ self.old.core }
        ensures asks { AsksOnce self.old.asked self.old.core.heard client.old self.new.asked client.new }
        ensures client { (client.new.queue ≡ client.old.queue) × (client.new.number ≡ client.old.number) }
    {
        if self.asked || !self.core.has_heard() {
            return;
        }
        if conductor.submit(rt, client, Command::Connect).is_ok() {
            self.asked = true;
        }
    }
}

impl<R: FrameSource<()>, F: FlowControl + Drop> SenderAgent<R, F> {
    /// A cycle of the core over a device of some ways, at a moment in nanoseconds, as a duty's; then this client asks for Connect, if
    /// a status message that doesn't ask for a SETUP has come and the queue hasn't taken the command yet. Where the queue is full, the
    /// next cycle tries again. Whether a datagram came or went. At a fault nothing is asked for, and the next cycle may be called
    /// after it.
    pub fn cycle<W: Wait, D: Ways>(
        &mut self,
        rt: &W,
        conductor: &Conductor,
        client: &mut Client,
        duty: &mut Duty<D>,
        now: u64,
    ) -> Result<bool, DeviceError>
        requires stands { R.stands self.old.core.reads tt × SendsFrom self.old.core (R.source self.old.core.reads tt) }
        requires size { duty.old.mtu ≡ self.old.core.identity.geometry.mtu }
        requires queue { client.old.queue ≡ conductor.now }
        ensures cycle { AgentCycle (Hears (λ r. R.source r tt) (λ r q. R.leaves r tt q tt) F.after_status F.reached F.has_heard) (Ticks (λ r. R.source r tt) (λ r q. R.leaves r tt q tt) (λ r q. HasLooked R.leaves R.looked r tt q tt) R.grown F.after_tick F.reached) now D.device D.tells D.turned (D.way_count duty.old.device) self.old client.old duty.old.device result self.new client.new duty.new.device }
        ensures stands { R.stands self.new.core.reads tt × SendsFrom self.new.core (R.source self.new.core.reads tt) }
        ensures size { (duty.new.mtu ≡ duty.old.mtu) × (self.new.core.identity.geometry.mtu ≡ self.old.core.identity.geometry.mtu) }
        ensures counts { (D.device duty.old.device).failures ≤ (D.device duty.new.device).failures }
        ensures lives { D.lives duty.old.device duty.new.device }
        ensures client { (client.new.queue ≡ client.old.queue) × (client.new.number ≡ client.old.number) }
    {
        let busy = duty.cycle_ways(&mut self.core, now)?;
        self.ask_once(rt, conductor, client);
        Ok(busy)
    }
}
