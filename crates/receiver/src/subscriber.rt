//! A receiver and the one subscriber that reads its image.

ghost use Rattle.std.specs.Prelude.{◌≡◌, ◌≤◌, ◌<◌, None, Some, length, IfOk, IfSome, OnErr};
ghost use Rattle.std.specs.List.{AllByRecursion};
ghost use Rattle.theory.specs.Wire.{IsFrame};

use crate::assembling::Joiner;
use crate::poll_error::PollError;
use crate::positions::Positions;
use crate::receiver_core::{Outcome, ReceiverCore, Replies};
use assembler::{Assembler, AssemblyError, Message};
use frames::FaultCounts;
use image::{ImageReader, read_past_with};
use std::alloc::{AllocError, Global};
use std::marker::Model;

/// A receiver and the one subscriber that reads its image.
#[derive(Drop)]
pub struct Subscriber {
    core: ReceiverCore,
    /// The image's one reader, once there is an image.
    reader: Option<ImageReader>,
    joiner: Joiner,
}

impl Model for Subscriber {
    ghost use Rattle.std.specs.Prelude.{◌≡◌};
    ghost use Rattle.receiver.specs.Seating.{AreSeated};
    ghost use Rattle.receiver.specs.Subscribing.{Subscribing};

    ghost Value = { Subscribing };

    ghost view = { λ s. record { core = s.core; assembler = s.joiner.assembler } };

    ghost invariant = { λ s. (s.core.consumers ≡ 1) × AreSeated s.core.image s.reader };
}

impl Subscriber {
    ghost use Rattle.receiver.specs.Polling.{Polls, TellsPositions};
    ghost use Rattle.receiver.specs.Receiving.{TakesDatagram, Receiver, replied, replies, ticked};
    ghost use Rattle.receiver.specs.Representing.{Represents};
    ghost use Rattle.receiver.specs.Subscribing.{SubscriberBecomes, answer_of, RepresentsSubscriber};

    /// A subscriber to what this core will receive: one that has no image yet and will have one consumer. Messages are of at most
    /// `greatest` bytes. It wants no memory.
    pub fn new(alloc: Global, core: ReceiverCore, greatest: usize) -> Subscriber
        requires image { core.image ≡ None }
        requires consumers { core.consumers ≡ 1 }
        ensures shown { (r : Receiver) → Represents core r → r.greatest ≡ greatest → RepresentsSubscriber result r }
        ensures greatest { result.assembler.greatest ≡ greatest }
    {
        Subscriber {
            core,
            reader: None,
            joiner: Joiner::new(Assembler::new(alloc, greatest)),
        }
    }

    /// Takes a datagram at a moment, in nanoseconds, and says what became of each of its frames. At an error memory was refused and nothing has
    /// changed: it may be handed in again.
    pub fn on_datagram(&mut self, bytes: &[u8], now: u64) -> Result<Vec<Outcome>, AllocError>
        ensures heard { IfOk result (λ outs. SubscriberBecomes self.old self.new (λ r s. TakesDatagram r now bytes.now outs.items s)) }
        ensures refused { OnErr result (self.new ≡ self.old) }
        ensures assembler { self.new.assembler ≡ self.old.assembler }
    {
        let outcomes = self.core.on_datagram(bytes, now)?;
        self.core.sit(&mut self.reader);
        Ok(outcomes)
    }

    /// How many datagrams it has refused, by their faults.
    pub fn refused(&self) -> FaultCounts
        ensures { (r : Receiver) → RepresentsSubscriber self.now r → result.counts ≡ r.faults }
    {
        self.core.refused()
    }

    /// Takes a moment, in nanoseconds, and gives what goes out then.
    pub fn tick(&mut self, now: u64) -> Replies
        ensures replies { (r : Receiver) → RepresentsSubscriber self.old r → replied result ≡ replies r now }
        ensures state { (r : Receiver) → RepresentsSubscriber self.old r → RepresentsSubscriber self.new (ticked r now) }
        ensures written { AllByRecursion IsFrame (replied result) }
        ensures assembler { self.new.assembler ≡ self.old.assembler }
    {
        let replies = self.core.tick(now);
        self.core.sit(&mut self.reader);
        replies
    }

    /// Reads on until a message is complete, the assembler refuses a frame, or no frame is left: none then. The faults are
    /// `NoImage`, where none is open; `A1`, where memory was refused to a part; `A2`, exactly where the message would be longer
    /// than the greatest. A message that is given is no longer than that.
    pub fn poll(&mut self) -> Result<Option<Message<Global>>, PollError>
        ensures polled { SubscriberBecomes self.old self.new (λ r s. Polls r (answer_of result) s) }
        ensures small { IfOk result (λ m. IfSome m (λ m. length m.bytes.items ≤ self.old.assembler.greatest)) }
        ensures greatest { self.new.assembler.greatest ≡ self.old.assembler.greatest }
    {
        if self.core.image().is_none() {
            return Err(PollError::NoImage);
        }
        loop {
            let Some(reader) = &mut self.reader else {
                return Ok(None);
            };
            let Some(opened) = &mut self.core.image else {
                return Ok(None);
            };
            // What always holds of it, for the proof.
            opened.inserter.stored_apart();
            let _ = opened.inserter.high_water();
            let _ = opened.geometry();
            let image = &*opened.image;
            let inserter = &mut opened.inserter;
            let Some(_) = read_past_with(image, inserter, reader, &mut self.joiner) else {
                return Ok(None);
            };
            match self.joiner.take_step() {
                Ok(None) => {}
                Ok(Some(message)) => return Ok(Some(message)),
                Err(error) => return Err(PollError::Unassembled(error)),
            }
        }
    }

    /// Where the consumer stands, and how far the image is rebuilt. There is nothing to tell without an image.
    pub fn positions(&self) -> Option<Positions>
        ensures told { (r : Receiver) → RepresentsSubscriber self.now r → TellsPositions r result }
        ensures order { IfSome result (λ p. (p.least ≤ p.rebuilt) × (p.rebuilt ≤ p.high_water)) }
    {
        let Some(image) = self.core.image() else {
            return None;
        };
        let Some(reader) = &self.reader else {
            return None;
        };
        Some(Positions {
            least: reader.position(),
            rebuilt: image.rebuilt(),
            high_water: image.high_water(),
        })
    }
}
