//! What a handle may hold.

use claims::{ClaimPass, KeeperPass, Opened, PublisherPass, ReaderPass};
use cores::{MessagesPass, SenderPass, SubscriberPass};
use std::alloc::Global;

/// A pass, of whatever kind.
#[derive(Drop)]
pub enum Pass {
    /// Room for one.
    Nothing,
    Opened(Opened),
    Publisher(PublisherPass),
    Claim(ClaimPass),
    Reader(ReaderPass),
    Messages(Box<MessagesPass, Global>),
    Keeper(KeeperPass),
    Subscriber(Box<SubscriberPass, Global>),
    Sender(Box<SenderPass, Global>),
}
