//! A log that threads share.

ghost use Rattle.std.specs.Prelude.{◌≡◌, ◌+◌, ◌*◌, ◌/◌, ◌<◌, ◌≤◌};
ghost use Rattle.theory.specs.Position.{IsGeometry, max_position};

use log_memory::LogMemory;
use position::Identity;
use std::marker::Model;

/// A log that threads share without a lock: its control words stand in a table, its frames lie in a
/// region.
#[derive(Drop)]
pub struct Log {
    pub(crate) memory: LogMemory,
    pub(crate) identity: Identity,
    pub(crate) start: u64,
    pub(crate) consumers: u64,
}

impl Model for Log {
    ghost use Rattle.shared_log.specs.Steps.Handles.{IsSite, LogValue};

    ghost Value = { LogValue };

    ghost view = { λ l. record {
      table = record {
        table = l.memory.table.shared.table_id;
        region = l.memory.table.shared.key.region.identity;
      };
      identity = l.identity;
      start = l.start;
      consumers = l.consumers;
    } };

    ghost invariant = { λ l. IsSite l.memory.table.shared.key l.identity l.start l.consumers };
}

impl Log {
    /// Which stream the log carries.
    #[inline(always)]
    pub fn identity(&self) -> Identity
        ensures is { result ≡ self.now.identity }
        ensures legal { IsGeometry self.now.identity.geometry }
    {
        self.identity
    }

    /// The position at which the stream begins.
    #[inline(always)]
    pub fn start(&self) -> u64
        ensures is { result ≡ self.now.start }
        ensures low { self.now.start ≤ max_position self.now.identity.geometry }
    {
        self.start
    }

    /// How many consumers it was opened with.
    pub fn consumers(&self) -> u64
        ensures is { result ≡ self.now.consumers }
        ensures some { (0 < self.now.consumers) × (self.now.consumers ≤ 8) }
    {
        self.consumers
    }

    /// A word of the log, for tests, which have it to themselves then: the first words of the frames
    /// in three terms, one for each unit of 32 bytes, which is zero where none begins; the limit with
    /// its flags, the active count, the three raw tails, the eight consumer positions. Nothing is
    /// promised of its value. No step is counted.
    pub fn peek(&mut self, index: usize) -> u64
        requires { index < 3 * (self.old.identity.geometry.term_length / 32) + 13 }
        ensures { self.new ≡ self.old }
    {
        self.memory.peek(index)
    }
}
