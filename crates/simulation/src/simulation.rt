//! One log with its sender, eight subscribers, and every packet that they gave out.

ghost use Rattle.simulation.specs.Books.{ShowsBook};

use crate::packets::Packets;
use block::Block;
use flow_control::StreamFlow;
use one_hand::{HandReader, LogHand};
use receiver::Subscriber;
use sender::{Outbox, SenderCore};
use shared_log::Book;
use std::marker::Model;

/// How many receivers there are.
pub const RECEIVERS: usize = 8;

/// What a script plays on.
#[derive(Drop)]
pub struct Simulation {
    pub log: LogHand,
    /// A reader's frame.
    pub block: Block,
    pub sender: SenderCore<HandReader, StreamFlow>,
    pub outbox: Outbox,
    pub subscribers: Vec<Subscriber>,
    pub packets: Packets,
}

impl Model for Simulation {
    ghost use Rattle.std.specs.Prelude.{length};
    ghost use Rattle.simulation.specs.Simulated.{IsStage, Simulated};

    ghost Value = { Simulated };

    ghost view = { λ s. record { log = s.log; sender = s.sender; subscribers = s.subscribers.items; packets = s.packets } };

    ghost invariant = { λ s. IsStage (record { log = s.log; sender = s.sender; subscribers = s.subscribers.items; packets = s.packets }) (length s.block) s.outbox.mtu };
}

impl Simulation {
    /// Ends the log. A claim that is open counts for its publisher.
    pub fn end(self) -> Book
        ensures { ShowsBook self.log result }
    {
        self.log.close()
    }
}
