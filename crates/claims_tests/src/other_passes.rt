//! Who goes on beside a publisher that stalls.

use claims::Claimant;
use log_messages::LogMessages;
use shared_log::Keeper;

/// What a log needs that goes on: publishers, of which the first three publish, its reader and its keeper.
#[derive(Drop)]
pub struct OtherPasses {
    pub one: Claimant,
    pub two: Claimant,
    pub three: Claimant,
    pub idle: [Claimant; 4],
    pub follower: Follower,
}

/// The four that publish, of which the first is held.
#[derive(Drop)]
pub struct Four {
    pub first: Claimant,
    pub one: Claimant,
    pub two: Claimant,
    pub three: Claimant,
}

/// Who follows the publishers.
#[derive(Drop)]
pub struct Follower {
    pub messages: LogMessages,
    pub keeper: Keeper,
}
