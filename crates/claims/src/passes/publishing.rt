//! A publisher with its log.

ghost use Rattle.std.specs.Prelude.{◌≡◌, ◌≤◌, IfErr, IfOk, length};
ghost use Rattle.std.specs.Arc.{arc_value};
ghost use Rattle.theory.specs.Position.{max_message};
ghost use Rattle.log_rule.specs.Shares.{claimed_bytes};
ghost use Rattle.shared_log.specs.Steps.Handles.{IsOf};
ghost use Rattle.claims.specs.Claimings.{AcceptsMessage, DeniesMessage};

use crate::claimant::{Claimant, offer};
use crate::passes::fault::Fault;
use publication::Refusal;
use shared_log::Log;
use std::alloc::Global;
use std::sync::Arc;

/// A publisher of which nothing is open, and its share of the log.
#[derive(Drop)]
pub struct PublisherPass {
    pub log: Arc<Log, Global>,
    pub claimant: Claimant,
    ghost fits: { IsOf (arc_value log) claimant },
}

fn offer_on(log: &Log, claimant: &mut Claimant, message: &[u8]) -> Result<u64, Refusal>
    requires fits { IsOf log.now claimant.old }
    requires short { length message.now ≤ max_message log.now.identity.geometry }
    ensures fits { IsOf log.now claimant.new }
    ensures accepted { IfOk result (λ end. AcceptsMessage log.now claimant.old message.now end claimant.new) }
    ensures refused { IfErr result (λ why. DeniesMessage log.now claimant.old (length message.now) why claimant.new) }
{
    offer(log, claimant, message)
}

impl PublisherPass {
    ghost use Rattle.claims.specs.Passes.Publishing.{Accepts, Declines};

    pub fn new(log: Arc<Log, Global>, claimant: Claimant) -> PublisherPass
        requires { IsOf (arc_value log) claimant }
        ensures log { arc_value result.log ≡ arc_value log }
        ensures claimant { result.claimant ≡ claimant }
    {
        PublisherPass { log, claimant }
    }

    /// Offers a message. The answer is the position behind its frames. The fault is `Long`, where no message may be so long, or
    /// `Refused`, with the cause; nothing is committed then but a padding at a term's end.
    pub fn offer(&mut self, message: &[u8]) -> Result<u64, Fault>
        ensures accepted { IfOk result (λ end. Accepts self.old message.now end self.new) }
        ensures declined { IfErr result (λ fault. Declines self.old (length message.now) fault self.new) }
    {
        let log = &*self.log;
        if message.len() > log.identity().geometry().max_message() as usize {
            return Err(Fault::Long);
        }
        match offer_on(log, &mut self.claimant, message) {
            Ok(end) => Ok(end),
            Err(refusal) => Err(Fault::Refused(refusal)),
        }
    }

    /// How many bytes its claims cover.
    pub fn share(&self) -> u64
        ensures { result ≡ claimed_bytes self.now.claimant.pass }
    {
        self.claimant.publisher().share()
    }
}
