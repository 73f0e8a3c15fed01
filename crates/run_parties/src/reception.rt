//! A receiver of a run with its device, as its thread has it.

ghost use Rattle.std.specs.Prelude.{◌≡◌, None, Some, IfErr, IfNone, IfOk, IfSome, OnOk};
ghost use Rattle.std.specs.Arc.{arc_value};
ghost use Rattle.counters.specs.Order.{zeros};
ghost use Rattle.agents.specs.Cycles.{Cycle};
ghost use Rattle.agents.specs.Parties.{CoreHears, CoreTicks};
ghost use Rattle.receiver.specs.Dealt.{HasNoReaders, ImageTakes};
ghost use Rattle.receiver.specs.Representing.{Represents};
ghost use Rattle.run_parties.specs.Receptions.{EndsLife, IsBegun};

use crate::poller::Poller;
use crate::tally::Tally;
use agents::{Duty, Named, ReceiverAgent};
use counters::{CounterWriter, Counters};
use endpoint::{Datagrams, DeviceError};
use image::Image;
use receiver::{Denied, MessageReader, Readers, ReceiverCore, reads_a_run};
use std::alloc::Global;
use std::marker::{Brand, Model};
use std::sync::{Arc, Wait};

/// What a receiver of a run begins with, for the proofs alone. Each caller picks it, by `Brand`.
pub trait Begins {
    ghost use Rattle.endpoint.specs.Devices.{Device};
    ghost use Rattle.receiver.specs.Receiving.{Receiver};

    /// The receiver.
    ghost receiver: { Receiver };

    /// What its device has carried away and handed over then.
    ghost device: { Device };

    /// Whether its device tells that.
    ghost tells: { Type 0 };
}

impl Begins for Brand {
    ghost use Rattle.std.specs.Prelude.{pos};
    ghost use Rattle.endpoint.specs.Devices.{fresh};
    ghost use Rattle.receiver.specs.Receiving.{listening};

    ghost receiver = { listening (pos 0) (pos 0) 0 (pos 0) 1 0 };

    ghost device = { fresh };

    ghost tells = { ⊥ };
}

/// A receiver with its counters' writer, its device, the image whose reader was given away, and the fault that came last.
#[derive(Drop)]
pub struct Reception<N: Named + Begins, D: Datagrams> {
    agent: ReceiverAgent<N>,
    duty: Duty<D>,
    image: Option<Arc<Image, Global>>,
    fault: Option<DeviceError>,
}

impl<N: Named + Begins, D: Datagrams> Model for Reception<N, D> {
    ghost use Rattle.std.specs.Option.{option_map};
    ghost use Rattle.std.specs.Arc.{arc_value};
    ghost use Rattle.run_parties.specs.Receptions.{IsReception, ReceptionState};

    ghost Value = { ReceptionState D };

    ghost view = { λ r. record { core = r.agent.core; duty = r.duty; image = option_map arc_value r.image; fault = r.fault } };

    ghost invariant = { λ r. IsReception D.device D.tells N.receiver N.device N.tells (record { core = r.agent.core; duty = r.duty; image = option_map arc_value r.image; fault = r.fault }) };
}

/// What is left of a receiver whose threads have ended: the tally of what its subscriber polled, how many messages were refused
/// as too long, and its device.
#[derive(Drop)]
pub struct Received<D> {
    pub tally: Tally,
    pub refused: u64,
    pub device: D,
}

impl<N: Named + Begins, D: Datagrams> Reception<N, D> {
    /// A receiver that has met nothing, over a device.
    pub fn new(core: ReceiverCore, writer: CounterWriter, duty: Duty<D>) -> Reception<N, D>
        requires receiver { Represents core N.receiver }
        requires image { (N.receiver.image ≡ None) × (N.receiver.consumers ≡ 1) }
        requires nothing { writer.last ≡ zeros }
        requires counters { writer.counters ≡ N.counters }
        requires size { duty.mtu ≡ 40 }
        requires device { (D.device duty.device ≡ N.device) × (N.tells → D.tells duty.device) }
        ensures image { result.image ≡ None }
        ensures fault { result.fault ≡ None }
    {
        Reception {
            agent: ReceiverAgent::new(core, writer),
            duty,
            image: None,
            fault: None,
        }
    }

    /// A cycle of the receiver over its device, at a moment in nanoseconds. A fault is kept.
    pub fn cycle<R: Wait>(
        &mut self,
        rt: &R,
        counters: &Counters,
        now: u64,
    ) -> Result<bool, DeviceError>
        requires { counters.now ≡ N.counters }
        ensures cycle { IfOk result (λ busy. Cycle CoreHears CoreTicks now (D.tells self.old.duty.device) self.old.core (D.device self.old.duty.device) busy self.new.core (D.device self.new.duty.device)) }
        ensures kept { IfErr result (λ fault. self.new.fault ≡ Some fault) }
        ensures still { OnOk result (self.new.fault ≡ self.old.fault) }
        ensures image { self.new.image ≡ self.old.image }
    {
        // A law that the proof cites.
        reads_a_run();
        match self.agent.cycle(rt, counters, &mut self.duty, now) {
            Ok(busy) => Ok(busy),
            Err(fault) => {
                self.fault = Some(fault);
                Err(fault)
            }
        }
    }

    /// Who reads its image, once after a SETUP has opened that: messages of at most so many bytes. Where memory was refused, the
    /// image's readers come back instead.
    pub fn take_reader(
        &mut self,
        alloc: Global,
        greatest: usize,
    ) -> Result<Option<MessageReader>, Denied<Readers>>
        requires { self.old.fault ≡ None }
        ensures some { IfOk result (λ o. IfSome o (λ m. IsBegun m × (self.new.image ≡ Some m.image))) }
        ensures none { IfOk result (λ o. IfNone o ((self.new.image ≡ self.old.image) × HasNoReaders self.old.core.image)) }
        ensures denied { IfErr result (λ d. (self.new.image ≡ self.old.image) × ImageTakes self.old.core.image d.given self.new.core.image) }
        ensures still { self.new.fault ≡ self.old.fault }
    {
        let Some(taken) = self.agent.take_readers() else {
            return Ok(None);
        };
        let Ok(image) = Arc::try_clone(&taken.image) else {
            return Err(Denied { given: taken });
        };
        let reader = MessageReader::new(alloc, taken, greatest)?;
        self.image = Some(image);
        Ok(Some(reader))
    }

    /// What is left at the end, where its subscriber has left this; or the fault that came last.
    pub fn end(self, poller: Option<Poller>) -> Result<Received<D>, DeviceError>
    where
        D: Drop,
        requires { IfSome poller (λ p. self.image ≡ Some p.reader.image) }
        ensures lived { IfOk result (λ r. EndsLife N.receiver N.tells N.device (D.device r.device) r.tally r.refused) }
        ensures polled { IfOk result (λ r. IfSome poller (λ p. r.tally.polled ≡ p.tally.polled)) }
        ensures none { IfOk result (λ r. IfNone poller (r.tally.polled ≡ 0)) }
        ensures fault { IfErr result (λ fault. self.fault ≡ Some fault) }
    {
        if let Some(fault) = self.fault {
            return Err(fault);
        }
        let mut core = self.agent.into_core();
        let (tally, refused) = match poller {
            None => (Tally::new(), 0),
            Some(poller) => poller.end(&mut core),
        };
        Ok(Received {
            tally,
            refused,
            device: self.duty.into_device(),
        })
    }
}
