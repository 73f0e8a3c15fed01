//! A subscriber with its receiver's core.

ghost use Rattle.std.specs.Prelude.{◌≡◌, ◌∷◌, [], ℕ, None, IfErr, IfNone, IfOk, IfSome, OnOk};
ghost use Rattle.frames.specs.Frames.{wire};
ghost use Rattle.receiver.specs.Receiving.{Receiver, listening, replied};
ghost use Rattle.receiver.specs.Representing.{Represents};
ghost use Rattle.receiver.specs.Polling.{TellsPositions};
ghost use Rattle.receiver.specs.Subscribing.{RepresentsSubscriber};
ghost use Rattle.cores.specs.Numbers.{poll_fault};

use crate::fault::Fault;
use crate::rooms::{put_front, put_outcomes};
use assembler::AssemblyError;
use frames::{Frame, write_frame};
use receiver::{PollError, Positions, ReceiverCore, Replies, Subscriber};
use std::alloc::Global;
use std::marker::Model;

/// Which stream a subscriber receives, and how.
#[repr(C)]
#[derive(Clone, Copy, Debug, PartialEq, Eq)]
pub struct Subscription {
    /// The receiver's id, as its status messages name it.
    pub receiver: i64,
    /// The most bytes of a message.
    pub greatest: usize,
    pub session: i32,
    pub stream: i32,
    /// The receiver's window in bytes: a multiple of 32 from the MTU to half a term, else each SETUP is refused.
    pub window: u32,
}

/// A subscriber with its receiver's core, and what its last tick has yet to send.
#[derive(Drop)]
pub struct SubscriberPass {
    subscriber: Subscriber,
    greatest: usize,
    unsent: Replies,
}

impl Model for SubscriberPass {
    ghost use Rattle.std.specs.Prelude.{◌≡◌};
    ghost use Rattle.std.specs.List.{AllByRecursion};
    ghost use Rattle.theory.specs.Wire.{IsFrame};
    ghost use Rattle.receiver.specs.Receiving.{replied};
    ghost use Rattle.cores.specs.Subscribers.{SubscriberValue, spelled};

    ghost Value = { SubscriberValue };

    ghost view = { λ s. record { subscriber = s.subscriber; left = spelled s.unsent } };

    ghost invariant = { λ s. (s.subscriber.assembler.greatest ≡ s.greatest) × AllByRecursion IsFrame (replied s.unsent) };
}

/// A core of this stream that has met nothing yet.
fn core_of(alloc: Global, config: Subscription) -> ReceiverCore
    ensures shown { (greatest : ℕ) → Represents result (listening config.session config.stream config.window config.receiver 1 greatest) }
    ensures image { result.image ≡ None }
    ensures consumers { result.consumers ≡ 1 }
{
    ReceiverCore::new(
        alloc,
        config.session,
        config.stream,
        config.window,
        config.receiver,
        1,
    )
}

/// The first of what is to be sent, and the others.
fn parted(replies: &Replies) -> Option<(Frame<'_>, Replies)>
    ensures first { IfSome result (λ p. replied replies.now ≡ wire p.0 ∷ replied p.1) }
    ensures none { IfNone result (replied replies.now ≡ []) }
{
    if let Some(status) = replies.asking {
        let rest = Replies {
            asking: None,
            nak: replies.nak,
            status: replies.status,
        };
        return Some((Frame::Status { asks: true, status }, rest));
    }
    if let Some(nak) = replies.nak {
        let rest = Replies {
            asking: None,
            nak: None,
            status: replies.status,
        };
        return Some((Frame::Nak(nak), rest));
    }
    let rest = Replies {
        asking: None,
        nak: None,
        status: None,
    };
    match replies.status {
        Some(status) => Some((
            Frame::Status {
                asks: false,
                status,
            },
            rest,
        )),
        None => None,
    }
}

fn fault_of(error: PollError) -> Fault
    ensures { result ≡ poll_fault error }
{
    match error {
        PollError::NoImage => Fault::NoImage,
        PollError::Unassembled(AssemblyError::Memory) => Fault::Memory,
        PollError::Unassembled(AssemblyError::TooLong) => Fault::TooLong,
    }
}

impl SubscriberPass {
    ghost use Rattle.cores.specs.Departures.{Departs, NoneDeparts, WontDepart};
    ghost use Rattle.cores.specs.Subscribing.{GivesMessage, GivesNone, IsUnsent, PollFails, Receives, RefusesDatagram, Subscribes, Ticks};

    /// A subscriber that has met nothing yet. It wants no memory.
    pub fn open(alloc: Global, config: &Subscription) -> SubscriberPass
        ensures { Subscribes config.now result }
    {
        let greatest = config.greatest;
        let subscriber = Subscriber::new(alloc, core_of(alloc, *config), greatest);
        let unsent = Replies {
            asking: None,
            nak: None,
            status: None,
        };
        SubscriberPass {
            subscriber,
            greatest,
            unsent,
        }
    }

    /// Takes a datagram at a moment in nanoseconds. The answer is how many frames it has: what became of each is written to
    /// the room as a number, as far as that goes. Where memory is refused nothing has changed: it may be handed in again.
    pub fn on_datagram(&mut self, bytes: &[u8], now: u64, room: &mut [i32]) -> Result<usize, Fault>
        ensures received { IfOk result (λ count. Receives self.old now bytes.now room.old count room.new self.new) }
        ensures refused { IfErr result (λ fault. RefusesDatagram self.old room.old fault room.new self.new) }
    {
        let Ok(outcomes) = self.subscriber.on_datagram(bytes, now) else {
            return Err(Fault::Memory);
        };
        put_outcomes(room, &outcomes);
        Ok(outcomes.len())
    }

    /// Takes a moment in nanoseconds. What goes out then is given by `next_datagram`; while some of the last tick's is left,
    /// there is no other tick.
    pub fn tick(&mut self, now: u64) -> Result<(), Fault>
        ensures ticked { OnOk result (Ticks self.old now self.new) }
        ensures refused { IfErr result (λ fault. IsUnsent self.old fault self.new) }
    {
        if parted(&self.unsent).is_some() {
            return Err(Fault::Unsent);
        }
        self.unsent = self.subscriber.tick(now);
        Ok(())
    }

    /// Writes the next datagram that is to go out to the room's front. The answer is its length, or nothing where none is
    /// left. One that is longer than the room stays.
    pub fn next_datagram(&mut self, room: &mut [u8]) -> Result<Option<usize>, Fault>
        ensures given { IfOk result (λ got. IfSome got (λ n. Departs self.old.left room.old n room.new self.new.left)) }
        ensures none { IfOk result (λ got. IfNone got (NoneDeparts self.old.left room.old room.new self.new.left)) }
        ensures longer { IfErr result (λ fault. WontDepart self.old.left room.old fault room.new self.new.left) }
        ensures core { self.new.subscriber ≡ self.old.subscriber }
    {
        let unsent = self.unsent;
        let Some((frame, rest)) = parted(&unsent) else {
            return Ok(None);
        };
        if frame.size() > room.len() {
            return Err(Fault::Room);
        }
        let size = write_frame(&frame, room);
        self.unsent = rest;
        Ok(Some(size))
    }

    /// Reads on to the next message, which is written to the room's front. The answer is its length, or nothing where none is
    /// whole yet. A room that is shorter than the greatest message is refused, and nothing is read.
    pub fn poll(&mut self, room: &mut [u8]) -> Result<Option<usize>, Fault>
        ensures given { IfOk result (λ got. IfSome got (λ n. GivesMessage self.old room.old n room.new self.new)) }
        ensures none { IfOk result (λ got. IfNone got (GivesNone self.old room.old room.new self.new)) }
        ensures failed { IfErr result (λ fault. PollFails self.old room.old fault room.new self.new) }
    {
        if room.len() < self.greatest {
            return Err(Fault::Room);
        }
        match self.subscriber.poll() {
            Ok(Some(message)) => {
                put_front(room, &message.bytes);
                Ok(Some(message.bytes.len()))
            }
            Ok(None) => Ok(None),
            Err(error) => Err(fault_of(error)),
        }
    }

    /// Where it stands, and how far its image is rebuilt. There is nothing to tell before a SETUP has opened an image.
    pub fn positions(&self) -> Option<Positions>
        ensures { (r : Receiver) → RepresentsSubscriber self.now.subscriber r → TellsPositions r result }
    {
        self.subscriber.positions()
    }
}
