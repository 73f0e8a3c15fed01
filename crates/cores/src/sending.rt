//! A sender's core over a log that it shares.

ghost use Rattle.std.specs.Prelude.{◌≡◌, ◌↔◌, [], IfErr, IfNone, IfOk, IfSome, IsTrue, OnOk};
ghost use Rattle.cores.specs.Numbers.{group_of};

use crate::fault::Fault;
use crate::numbers::answer_number;
use crate::rooms::put_front;
use claims::ReaderPass;
use flow_control::StreamFlow;
use frames::Outbox;
use sender::{SenderAnswer, SenderCore, SenderEvent};
use std::alloc::Global;
use std::marker::Model;

/// A sender's core over a log that it shares, and what its last step has yet to send.
#[derive(Drop)]
pub struct SenderPass {
    core: SenderCore<ReaderPass, StreamFlow>,
    outbox: Outbox,
    /// How many of the outbox's datagrams were taken.
    sent: usize,
}

impl Model for SenderPass {
    ghost use Rattle.std.specs.Prelude.{◌≡◌, drop};
    ghost use Rattle.sender.specs.Sending.{SendsFrom};
    ghost use Rattle.cores.specs.Senders.{SenderValue, source_in};

    ghost Value = { SenderValue };

    ghost view = { λ s. record { core = s.core; left = drop s.sent s.outbox.datagrams } };

    ghost invariant = { λ s. SendsFrom s.core (source_in s.core) × (s.outbox.mtu ≡ s.core.identity.geometry.mtu) };
}

/// The group of so many receivers; 0 is one receiver, whatever its id.
fn group_of(group: u32) -> Option<usize>
    ensures { result ≡ group_of group }
{
    if group == 0 {
        None
    } else {
        Some(group as usize)
    }
}

impl SenderPass {
    ghost use Rattle.cores.specs.Departures.{Departs, NoneDeparts, WontDepart};
    ghost use Rattle.cores.specs.Sending.{DeclinesSender, Hears, IsUnsent, Sends, StepsOn, Ticks};

    /// A sender of what the reader reads, from where that stands on, to one receiver (0), whatever its id, or to a group of so
    /// many, with the ids from 0 on. Where it is declined, the reader comes back.
    pub fn open(
        alloc: Global,
        reader: ReaderPass,
        group: u32,
    ) -> Result<SenderPass, (Fault, ReaderPass)>
        ensures opened { IfOk result (λ p. Sends reader group p) }
        ensures declined { IfErr result (λ d. DeclinesSender reader group d.0 d.1) }
    {
        if group > 8 {
            return Err((Fault::Group, reader));
        }
        let identity = reader.log.identity();
        let geometry = identity.geometry();
        let start = reader.reader.position();
        if !start.is_multiple_of(32) || start >= geometry.max_position() {
            return Err((Fault::Start, reader));
        }
        let Ok(outbox) = Outbox::new(alloc, geometry.mtu()) else {
            return Err((Fault::Memory, reader));
        };
        let flow = StreamFlow::new(start, group_of(group));
        match SenderCore::new(alloc, identity, start, reader, flow) {
            Ok(core) => Ok(SenderPass {
                core,
                outbox,
                sent: 0,
            }),
            Err(denied) => Err((Fault::Memory, denied.reads)),
        }
    }

    /// The same in a box.
    pub fn open_boxed(
        alloc: Global,
        reader: ReaderPass,
        group: u32,
    ) -> Result<Box<SenderPass, Global>, (Fault, ReaderPass)>
        ensures opened { IfOk result (λ b. Sends reader group b.value) }
        ensures declined { IfErr result (λ d. DeclinesSender reader group d.0 d.1) }
    {
        let opened = SenderPass::open(alloc, reader, group)?;
        match Box::new(alloc, opened) {
            Ok(boxed) => Ok(boxed),
            Err(failed) => Err((Fault::Memory, failed.value.into_reader())),
        }
    }

    /// Gives the reader back.
    fn into_reader(self) -> ReaderPass
        ensures { result ≡ self.core.reads }
    {
        self.core.into_reads()
    }

    fn step(&mut self, event: SenderEvent<'_>, now: u64) -> SenderAnswer
        ensures { StepsOn self.old now event.entry result self.new }
    {
        let answer = self.core.step(&mut (), event, now, &mut self.outbox);
        self.sent = 0;
        answer
    }

    /// Whether all of the last step's datagrams were taken.
    fn is_sent(&self) -> bool
        ensures { IsTrue result ↔ (self.now.left ≡ []) }
    {
        match self.outbox.datagram(self.sent) {
            None => true,
            Some(_) => false,
        }
    }

    /// Takes a moment in nanoseconds: what goes out then is given by `next_datagram`. While some of the last step's is left,
    /// there is no other step.
    pub fn tick(&mut self, now: u64) -> Result<(), Fault>
        ensures ticked { OnOk result (Ticks self.old now self.new) }
        ensures refused { IfErr result (λ fault. IsUnsent self.old fault self.new) }
    {
        if !self.is_sent() {
            return Err(Fault::Unsent);
        }
        self.step(SenderEvent::Tick, now);
        Ok(())
    }

    /// Takes a datagram at a moment in nanoseconds. The answer is the number of what became of it; what goes out is given by
    /// `next_datagram`. While some of the last step's is left, there is no other step.
    pub fn on_datagram(&mut self, bytes: &[u8], now: u64) -> Result<i32, Fault>
        ensures heard { IfOk result (λ number. Hears self.old now bytes.now number self.new) }
        ensures refused { IfErr result (λ fault. IsUnsent self.old fault self.new) }
    {
        if !self.is_sent() {
            return Err(Fault::Unsent);
        }
        Ok(answer_number(self.step(SenderEvent::Datagram(bytes), now)))
    }

    /// Writes the next datagram that is to go out to the room's front. The answer is its length, or nothing where none is
    /// left. One that is longer than the room stays.
    pub fn next_datagram(&mut self, room: &mut [u8]) -> Result<Option<usize>, Fault>
        ensures given { IfOk result (λ got. IfSome got (λ n. Departs self.old.left room.old n room.new self.new.left)) }
        ensures none { IfOk result (λ got. IfNone got (NoneDeparts self.old.left room.old room.new self.new.left)) }
        ensures longer { IfErr result (λ fault. WontDepart self.old.left room.old fault room.new self.new.left) }
        ensures core { self.new.core ≡ self.old.core }
    {
        let _few = self.outbox.len();
        let Some(datagram) = self.outbox.datagram(self.sent) else {
            return Ok(None);
        };
        let size = datagram.len();
        if size > room.len() {
            return Err(Fault::Room);
        }
        put_front(room, datagram);
        self.sent += 1;
        Ok(Some(size))
    }
}
