//! What the threads of these tests have.

use log_messages::LogMessages;
use shared_log::{Keeper, Publisher};

/// Who has a thread.
#[derive(Drop)]
pub enum Party {
    Publishing(Publisher),
    Reading(LogMessages),
    Keeping(Keeper),
}
