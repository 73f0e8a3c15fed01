//! The keeper with its log.

ghost use Rattle.std.specs.Prelude.{◌≡◌, IfErr, IfOk, OnErr};
ghost use Rattle.std.specs.Arc.{arc_value};
ghost use Rattle.theory.specs.Refusal.{limit_in};
ghost use Rattle.shared_log.specs.Steps.Handles.{IsOf};
ghost use Rattle.shared_log.specs.Joining.{AreEight, Joins};
ghost use Rattle.shared_log.specs.Keepers.{CleansAndLimits, KeepsAs, TookSteps, closed_word, connected_word, there_of, with_limit};
ghost use Rattle.claims.specs.Passes.Reading.{IsUnread};

use crate::passes::fault::Fault;
use crate::passes::reading::ReaderPass;
use shared_log::{Keeper, Log, LogError, LogReader, clean_and_limit, set_closed, set_connected};
use std::alloc::Global;
use std::sync::Arc;

/// The keeper and its share of the log.
#[derive(Drop)]
pub struct KeeperPass {
    pub log: Arc<Log, Global>,
    pub keeper: Keeper,
    ghost fits: { IsOf (arc_value log) keeper.held },
}

fn clean_on(log: &Log, keeper: &mut Keeper) -> u64
    requires { IsOf log.now keeper.old.held }
    ensures fits { IsOf log.now keeper.new.held }
    ensures done { CleansAndLimits log.now keeper.old keeper.new }
    ensures answer { result ≡ limit_in keeper.new.limit }
{
    clean_and_limit(log, keeper)
}

fn connect_on(log: &Log, keeper: &mut Keeper, connected: bool)
    requires { IsOf log.now keeper.old.held }
    ensures fits { IsOf log.now keeper.new.held }
    ensures keeps { KeepsAs keeper.old (with_limit (connected_word connected keeper.old.limit) keeper.old) keeper.new }
    ensures once { TookSteps keeper.old 1 keeper.new }
{
    set_connected(log, keeper, connected);
}

fn close_on(log: &Log, keeper: &mut Keeper)
    requires { IsOf log.now keeper.old.held }
    ensures fits { IsOf log.now keeper.new.held }
    ensures keeps { KeepsAs keeper.old (with_limit (closed_word keeper.old.limit) keeper.old) keeper.new }
    ensures once { TookSteps keeper.old 1 keeper.new }
{
    set_closed(log, keeper);
}

#[tactic(auto, using(crate::proofs::Openers::joined_unread))]
fn join_on(log: &Log, keeper: &mut Keeper) -> Result<LogReader, LogError>
    requires { IsOf log.now keeper.old.held }
    ensures fits { IsOf log.now keeper.new.held }
    ensures joins { IfOk result (λ reader. Joins log.now keeper.old reader keeper.new) }
    ensures reads { IfOk result (λ reader. IsUnread log.now reader) }
    ensures full { IfErr result (λ _. AreEight (there_of keeper.old)) }
    ensures refused { OnErr result (keeper.new ≡ keeper.old) }
{
    keeper.join(log)
}

impl KeeperPass {
    ghost use Rattle.claims.specs.Passes.Keeping.{Cleans, DeclinesReader, OpensReader, StoresLimit};

    pub fn new(log: Arc<Log, Global>, keeper: Keeper) -> KeeperPass
        requires { IsOf (arc_value log) keeper.held }
        ensures log { arc_value result.log ≡ arc_value log }
        ensures keeper { result.keeper ≡ keeper }
    {
        KeeperPass { log, keeper }
    }

    /// Cleans what is a term or more below the least consumer, and raises the limit. The answer is the limit.
    pub fn clean_and_limit(&mut self) -> u64
        ensures { Cleans self.old result self.new }
    {
        clean_on(&self.log, &mut self.keeper)
    }

    /// Says whether somebody receives the stream.
    pub fn set_connected(&mut self, connected: bool)
        ensures { StoresLimit self.old (connected_word connected self.old.keeper.limit) self.new }
    {
        connect_on(&self.log, &mut self.keeper, connected);
    }

    /// Closes the log, for good.
    pub fn set_closed(&mut self)
        ensures { StoresLimit self.old (closed_word self.old.keeper.limit) self.new }
    {
        close_on(&self.log, &mut self.keeper);
    }

    /// Opens a reader, with the least number that nobody has, at the least position of those that are there. It fails
    /// where eight are there, or where memory is refused.
    pub fn join(&mut self) -> Result<ReaderPass, Fault>
        ensures joined { IfOk result (λ reader. OpensReader self.old reader self.new) }
        ensures declined { IfErr result (λ fault. DeclinesReader self.old fault self.new) }
    {
        let Ok(log) = Arc::try_clone(&self.log) else {
            return Err(Fault::Memory);
        };
        match join_on(&log, &mut self.keeper) {
            Ok(reader) => Ok(ReaderPass::begin(log, reader)),
            Err(_) => Err(Fault::Full),
        }
    }
}
