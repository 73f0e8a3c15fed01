//! A publisher at rest, with a block.

ghost use Rattle.std.specs.Prelude.{◌≡◌, ◌≤◌, IfErr, IfOk, length, vec_capacity};
ghost use Rattle.theory.specs.Position.{max_message};
ghost use Rattle.publication.specs.Steps.{geometry_of};
ghost use Rattle.shared_log.specs.Steps.Handles.{IsOf};
ghost use Rattle.claims.specs.Claimings.{AcceptsMessage, DeniesMessage};
ghost use Rattle.claims.specs.Holdings.{IsResting};

use crate::equipped::Equipped;
use publication::Refusal;
use shared_log::{Log, OnLog, Publisher};
use std::alloc::{AllocError, Global};
use std::marker::Model;

/// A publisher of a log with memory of its own for the bytes of a claim: a block of the MTU's length at least, of which only
/// what is claimed is filled. Nothing of it is open.
#[derive(Drop)]
pub struct Claimant {
    pub(crate) equipped: Box<Equipped, Global>,
}

impl Model for Claimant {
    ghost use Rattle.shared_log.specs.Steps.Handles.{PublisherValue};
    ghost use Rattle.claims.specs.Holdings.{IsClaimant};
    ghost use Rattle.std.specs.Prelude.{vec_capacity};

    ghost Value = { PublisherValue };

    ghost view = { λ c. c.equipped.value.publisher };

    ghost invariant = { λ c. IsClaimant c.equipped.value.publisher (vec_capacity c.equipped.value.bytes) };
}

impl Claimant {
    /// A publisher with a block, which has room for the MTU. The error comes only where memory is refused.
    pub fn new(alloc: Global, publisher: Publisher, bytes: Vec<u8>) -> Result<Claimant, AllocError>
        requires rests { IsResting publisher }
        requires room { (geometry_of publisher.pass).mtu ≤ vec_capacity bytes }
        ensures { IfOk result (λ c. c ≡ publisher) }
    {
        let equipped = Box::new(alloc, Equipped::new(publisher, bytes))?;
        Ok(Claimant { equipped })
    }

    /// The publisher.
    pub fn publisher(&self) -> &Publisher
        ensures is { result.now ≡ self.now }
        ensures rests { IsResting self.now }
    {
        &self.equipped.as_ref().publisher
    }

    /// The publisher and the block.
    pub fn into_parts(self) -> (Publisher, Vec<u8>)
        ensures publisher { result.0 ≡ self }
        ensures rests { IsResting self }
        ensures room { (geometry_of self.pass).mtu ≤ vec_capacity result.1 }
    {
        let Equipped {
            publisher,
            bytes,
            ..
        } = Box::into_inner(self.equipped);
        (publisher, bytes)
    }
}

/// Publishes a message of up to the greatest length; the answer is the position behind its frames. It is accepted if the
/// log isn't closed, the active term isn't used up, the tail is below the limit and the frames fit the rest of the term.
pub fn offer(log: &Log, claimant: &mut Claimant, message: &[u8]) -> Result<u64, Refusal>
    requires fits { IsOf log.now claimant.old }
    requires short { length message.now ≤ max_message log.now.identity.geometry }
    ensures accepted { IfOk result (λ end. AcceptsMessage log.now claimant.old message.now end claimant.new) }
    ensures refused { IfErr result (λ why. DeniesMessage log.now claimant.old (length message.now) why claimant.new) }
{
    let publisher = &mut claimant.equipped.as_mut().publisher;
    publication::offer(&mut OnLog::new(log), publisher, message)
}
