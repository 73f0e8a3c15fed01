//! The passes of a log.

use claims::Claimant;
use shared_log::{Keeper, LogReader};

/// All passes of a log with one consumer.
#[derive(Drop)]
pub struct Passes {
    pub publisher: Claimant,
    pub others: [Claimant; 7],
    pub reader: LogReader,
    pub keeper: Keeper,
}
