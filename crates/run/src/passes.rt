//! What a run's threads own, what they are lent, and what they give back.

use conductor::{Client, Taker};
use endpoint::Fan;
use run_parties::{Context, PUBLISHERS, Received, Task, Waiting};
use shared_log::{Keeper, LogReader, Publisher};

/// The passes of a run's threads, the device of its sender, and its receivers.
#[derive(Drop)]
pub struct Passes<D> {
    pub publishers: Vec<Publisher>,
    pub reader: LogReader,
    pub keeper: Keeper,
    /// The sender's client of the queue.
    pub asking: Client,
    /// The client that closes the stream.
    pub closing: Client,
    pub taker: Taker,
    pub sends: Fan<D>,
    /// By their numbers.
    pub receivers: Vec<Waiting<D>>,
}

/// Publishers that came back, and how many messages were accepted of them, by their numbers.
#[derive(Drop)]
pub struct Publications {
    pub publishers: Vec<Publisher>,
    pub accepted: [u64; PUBLISHERS],
}

/// What publishers and receivers gave back.
#[derive(Drop)]
pub struct Parties<D> {
    pub published: Publications,
    /// By the receivers' numbers.
    pub received: Vec<Received<D>>,
}

/// What all gave back.
#[derive(Drop)]
pub struct Returned<D> {
    pub parties: Parties<D>,
    pub keeper: Keeper,
}

/// How much is to be done.
#[derive(Clone, Copy)]
pub struct Size {
    /// By each publisher.
    pub task: Task,
    /// How many publishers.
    pub publishers: usize,
    /// How many receivers.
    pub receivers: usize,
    /// How many messages are to be polled by each subscriber.
    pub wanted: u64,
}

/// What all threads are lent, and how much they have to do.
#[derive(Drop)]
pub struct Agents<'a, R, G> {
    pub context: &'a Context<'a, R, G>,
    pub size: Size,
}
