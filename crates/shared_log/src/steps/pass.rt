//! A pass of a log.

use log_memory::LogSeat;
use region::RegionKey;
use std::marker::Model;

/// A pass of a log, in its seat: what its holder may do and knows.
#[derive(Drop)]
pub(crate) struct LogPass {
    pub(crate) seat: LogSeat,
    /// The region of its log.
    pub(crate) key: RegionKey,
}

impl Model for LogPass {
    ghost use Rattle.shared_log.specs.Steps.Handles.{PublisherValue};
    ghost use Rattle.shared_log.specs.Steps.Rests.{IsResting, seen_as};

    ghost Value = { PublisherValue };

    ghost view = { λ p. seen_as p.key.identity p.seat.table_id p.seat.id p.seat.me };

    ghost invariant = { λ p. IsResting p.key.identity p.seat.me };
}
