//! What the thread of a receiver's cycles has.

ghost use Rattle.std.specs.Prelude.{◌≡◌, None, length, IfErr, IfNone, IfOk, IfSome, OnErr, OnOk};
ghost use Rattle.counters.specs.Order.{IsAtMost, zeros};
ghost use Rattle.agents.specs.Cycles.{Cycle, Fault};
ghost use Rattle.agents.specs.Parties.{CoreHears, CoreTicks};
ghost use Rattle.receiver.specs.Dealt.{HasNoReaders, ImageTakes, Learns, MayLearn};
ghost use Rattle.receiver.specs.Polling.{TellsImage};
ghost use Rattle.agents.specs.Publishing.{IsUpTo, Publishes, StaysDuty};

pub(crate) mod named;
pub(crate) mod publishing;

use crate::duty::Duty;
use crate::receiver_agent::named::Named;
use crate::receiver_agent::publishing::publish;
use counters::{CounterReader, CounterWriter, Counters, Readings};
use endpoint::{Datagrams, DeviceError};
use image::ImageReader;
use receiver::{Positions, Readers, ReceiverCore};
use std::marker::{Model, PhantomData};
use std::sync::Wait;

/// A receiver's core, and the writer of its counters.
#[derive(Drop)]
pub struct ReceiverAgent<N: Named> {
    core: ReceiverCore,
    writer: CounterWriter,
    named: PhantomData<N>,
}

impl<N: Named> Model for ReceiverAgent<N> {
    ghost use Rattle.agents.specs.Publishing.{AgentState, IsPublishing};

    ghost Value = { AgentState };

    ghost view = { λ a. record { core = a.core; writer = a.writer } };

    ghost invariant = { λ a. IsPublishing N.counters a.core a.writer };
}

impl<N: Named> ReceiverAgent<N> {
    /// Puts the two together, before there is an image and before anything was published.
    pub fn new(core: ReceiverCore, writer: CounterWriter) -> ReceiverAgent<N>
        requires image { core.image ≡ None }
        requires nothing { writer.last ≡ zeros }
        requires counters { writer.counters ≡ N.counters }
        ensures { result ≡ record { core = core; writer = writer } }
    {
        ReceiverAgent {
            core,
            writer,
            named: PhantomData,
        }
    }

    /// A duty cycle of the receiver over a device, at a moment in nanoseconds. After a cycle without a fault it publishes
    /// how far the image is rebuilt and the least position at which the cycle saw a consumer, all three positions together;
    /// without an image there is nothing to publish, and at a fault nothing is. The faults are those of `Duty::cycle`. The
    /// next cycle may be called after one.
    pub fn cycle<R: Wait, D: Datagrams>(
        &mut self,
        rt: &R,
        counters: &Counters,
        duty: &mut Duty<D>,
        now: u64,
    ) -> Result<bool, DeviceError>
        requires counters { counters.now ≡ N.counters }
        requires size { duty.old.mtu ≡ 40 }
        ensures cycle { IfOk result (λ busy. Cycle CoreHears CoreTicks now (D.tells duty.old.device) self.old.core (D.device duty.old.device) busy self.new.core (D.device duty.new.device)) }
        ensures fault { IfErr result (λ fault. Fault CoreHears CoreTicks now (D.tells duty.old.device) fault self.old.core (D.device duty.old.device) self.new.core (D.device duty.new.device)) }
        ensures published { OnOk result (Publishes self.new.core.image self.old.writer self.new.writer) }
        ensures nothing { OnErr result (self.new.writer ≡ self.old.writer) }
        ensures not_back { IsAtMost self.old.writer.last self.new.writer.last }
        ensures stays { StaysDuty D.device D.tells duty.old duty.new }
    {
        let busy = duty.cycle(&mut self.core, now)?;
        let told = self.core.positions();
        publish(rt, counters, told, &mut self.writer);
        Ok(busy)
    }

    /// The readers of the image, once after a SETUP has opened it: none before, and none again. It asks for no memory.
    pub fn take_readers(&mut self) -> Option<Readers>
        ensures none { IfNone result ((self.new ≡ self.old) × HasNoReaders self.old.core.image) }
        ensures taken { IfSome result (λ r. ImageTakes self.old.core.image r self.new.core.image) }
        ensures count { IfSome result (λ r. length r.readers.items ≡ self.old.core.consumers) }
        ensures stays { self.new ≡ record self.old { core = record self.old.core { image = self.new.core.image } } }
    {
        self.core.take_readers()
    }

    /// Tells one of the image's readers each frame that was stored so far, which it then finds, and sees it where it stands.
    /// Nothing is published.
    pub fn learn(&mut self, reader: &mut ImageReader)
        requires may { MayLearn self.old.core.image reader.old }
        ensures may { MayLearn self.new.core.image reader.new }
        ensures learnt { Learns self.old.core.image reader.old self.new.core.image reader.new }
        ensures stays { self.new ≡ record self.old { core = record self.old.core { image = self.new.core.image } } }
    {
        self.core.learn(reader);
    }

    /// How far the image is rebuilt, in bytes of the stream, and the least position at which a consumer stood when a datagram
    /// or a tick looked last. There is nothing to tell without an image. What was published last is no more than that.
    pub fn positions(&self) -> Option<Positions>
        ensures told { TellsImage self.now.core.image result }
        ensures last { IsUpTo self.now.writer.last result }
        ensures counters { self.now.writer.counters ≡ N.counters }
    {
        self.core.positions()
    }

    /// Reads the counters while no cycle runs: the reading is what was published last.
    pub fn read<R: Wait>(
        &mut self,
        rt: &R,
        counters: &Counters,
        reader: &mut CounterReader,
    ) -> Readings
        requires counters { counters.now ≡ N.counters }
        requires reader { reader.old.counters ≡ N.counters }
        ensures value { result ≡ self.old.writer.last }
        ensures not_back { IsAtMost reader.old.last result }
        ensures reader { reader.new ≡ record reader.old { last = result; told = result } }
        ensures agent { self.new ≡ self.old }
    {
        counters.read_with(rt, reader, &mut self.writer)
    }

    /// Gives the core back.
    pub fn into_core(self) -> ReceiverCore
        ensures { result ≡ self.core }
    {
        self.core
    }
}
