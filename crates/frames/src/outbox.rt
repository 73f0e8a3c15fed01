//! The datagrams that a step gives out.

ghost use Rattle.std.specs.Prelude.{◌≡◌, ◌≤◌, ◌<◌, ◌+◌, ◌++◌, [], vec_len, length, IfOk, slice_get};
ghost use Rattle.std.specs.Option.{option_copied};
ghost use Rattle.theory.specs.Wire.{IsFrame, spelling};
ghost use Rattle.frames.specs.Frames.{wire};
ghost use Rattle.frames.specs.Outgoing.{FitsLast, emptied, with_datagram, with_extended};

use crate::{Frame, write_frame};
use std::alloc::{AllocError, Global};
use std::marker::Model;

/// How many datagrams an outbox holds at the most.
pub const OUTBOX_DATAGRAMS: usize = 32;

/// Room for one datagram.
#[derive(Drop)]
struct Slot {
    bytes: Vec<u8>,
    length: usize,
    ghost inside: { length ≤ vec_len bytes },
}

impl Slot {
    ghost use Rattle.frames.specs.OutboxSlots.{bytes_in};

    /// Holds this frame too, behind what it holds.
    fn append(&mut self, frame: &Frame<'_>)
        requires frame { IsFrame (wire frame.now) }
        requires room { self.old.length + length (spelling (wire frame.now)) ≤ vec_len self.old.bytes }
        ensures bytes { bytes_in self.new ≡ bytes_in self.old ++ spelling (wire frame.now) }
        ensures size { vec_len self.new.bytes ≡ vec_len self.old.bytes }
    {
        self.length += write_frame(frame, &mut self.bytes[self.length..]);
    }

    fn datagram(&self) -> &[u8]
        ensures { result.now ≡ bytes_in self.now }
    {
        &self.bytes[..self.length]
    }
}

/// Up to 32 datagrams of MTU bytes. It takes its memory when it is made.
#[derive(Drop)]
pub struct Outbox {
    mtu: u32,
    slots: Vec<Slot>,
    count: usize,
}

impl Model for Outbox {
    ghost use Rattle.frames.specs.Outgoing.{Outgoing};

    ghost Value = { Outgoing };

    ghost use Rattle.frames.specs.OutboxSlots.{AreSlots, shown};

    ghost view = { λ o. record { mtu = o.mtu; datagrams = shown o.count o.slots.items } };

    ghost invariant = { λ o. AreSlots o.mtu o.count o.slots.items };
}

impl Outbox {
    #[tactic(auto, using(crate::proofs::OutgoingLemmas::one_more))]
    /// An empty outbox for datagrams of at most `mtu` bytes. The error comes only where memory was refused.
    pub fn new(alloc: Global, mtu: u32) -> Result<Outbox, AllocError>
        ensures { IfOk result (λ o. o ≡ record { mtu = mtu; datagrams = [] }) }
    {
        let mut slots = Vec::with_capacity(alloc, OUTBOX_DATAGRAMS)?;
        for _ in 0..OUTBOX_DATAGRAMS {
            let bytes = vec![in alloc; 0; mtu as usize]?;
            slots.push(Slot { bytes, length: 0 })?;
        }
        Ok(Outbox {
            mtu,
            slots,
            count: 0,
        })
    }

    /// Forgets what it holds.
    pub fn clear(&mut self)
        ensures { self.new ≡ emptied self.old }
    {
        self.count = 0;
    }

    /// How many datagrams it holds.
    pub fn len(&self) -> usize
        ensures value { result ≡ length self.now.datagrams }
        ensures few { result ≤ 32 }
    {
        self.count
    }

    /// A datagram, in the order in which they go out.
    pub fn datagram(&self, index: usize) -> Option<&[u8]>
        ensures { option_copied result ≡ slice_get self.now.datagrams index }
    {
        if index >= self.count {
            return None;
        }
        let slot = &self.slots[index];
        Some(slot.datagram())
    }

    /// Adds a datagram of one frame.
    pub fn push(&mut self, frame: &Frame<'_>)
        requires frame { IsFrame (wire frame.now) }
        requires room { length self.old.datagrams < 32 }
        requires fits { length (spelling (wire frame.now)) ≤ self.old.mtu }
        ensures { self.new ≡ with_datagram self.old (spelling (wire frame.now)) }
    {
        let slot = &mut self.slots[self.count];
        slot.length = write_frame(frame, slot.bytes.as_mut_slice());
        self.count += 1;
    }

    /// Adds a frame to the last datagram.
    pub fn extend(&mut self, frame: &Frame<'_>)
        requires frame { IsFrame (wire frame.now) }
        requires fits { FitsLast self.old (spelling (wire frame.now)) }
        ensures { self.new ≡ with_extended self.old (spelling (wire frame.now)) }
    {
        let slot = &mut self.slots[self.count - 1];
        slot.append(frame);
    }
}
