//! Consumers that join and leave.

ghost use Rattle.std.specs.Prelude.{◌≡◌, ◌↔◌, ◌<◌, ◌≤◌, ◌∷◌, ◌++◌, [], false, IfErr, IfNone, IfOk, IfSome, IsErr, IsErrOf, IsTrue, OnErr, OnOk, slice_index};
ghost use Rattle.theory.specs.Position.{max_position};
ghost use Rattle.log_rule.specs.Keepings.{MayJoin, joined, newly};
ghost use Rattle.log_rule.specs.Table.{other_readings};
ghost use Rattle.shared_log.specs.Steps.Handles.{IsOf};
ghost use Rattle.shared_log.specs.Joining.{AreEight, Becomes, Begins, Ends, HasConsumer, HasOther, IsFirstFree, IsJoined, IsLast, Joins, KnowsControls, Leaves};
ghost use Rattle.shared_log.specs.Keepers.{TookSteps, there_of};
ghost use Rattle.shared_log.specs.Readers.{IsAlone, IsReaderOf};

use crate::fault::LogError;
use crate::handle::Handle;
use crate::keeper::{Keeper, sweep};
use crate::reader::LogReader;
use crate::steps::log::Log;

/// Stores where a consumer begins whose number nobody has: the keeper's own pass is that consumer
/// then, at a place among those that it is.
fn begin_there(log: &Log, keeper: &mut Keeper, number: u64, place: u64, position: u64)
    requires fits { IsOf log.now keeper.old.held }
    requires may { MayJoin keeper.old.held.pass number position }
    ensures becomes { Becomes keeper.old (joined keeper.old.held.pass number place position)
        keeper.new }
    ensures controls { KnowsControls keeper.old keeper.new }
    ensures once { TookSteps keeper.old 1 keeper.new }
{
    log.begin_consumer(&mut keeper.handle.pass, number, place, position);
    keeper.there[number as usize] = true;
}

/// A consumer with a number that nobody has begins in the keeper's own pass, at this place of those
/// that it is or behind the last of them, where the least of those that are there stands. The
/// answer is its position.
pub fn begin_consumer(log: &Log, keeper: &mut Keeper, number: u64, place: u64) -> u64
    requires fits { IsOf log.now keeper.old.held }
    requires low { number < 8 }
    requires free { slice_index (there_of keeper.old) number ≡ 0 }
    ensures begins { Begins log.now keeper.old number place result keeper.new }
    ensures low { result ≤ max_position log.now.identity.geometry }
{
    let _ = &keeper.handle;
    let position = sweep(log, keeper);
    begin_there(log, keeper, number, place, position);
    position
}

/// A consumer of the keeper's own pass ends, where another one is there: zero is stored for it.
pub fn end_consumer(log: &Log, keeper: &mut Keeper, number: u64, place: u64)
    requires fits { IsOf log.now keeper.old.held }
    requires consumer { HasConsumer keeper.old.held.pass place number }
    requires other { HasOther (there_of keeper.old) number }
    ensures { Ends keeper.old place number keeper.new }
{
    log.end_consumer(&mut keeper.handle.pass, number, place);
    keeper.there[number as usize] = false;
}

/// The first consumer of the keeper's own pass goes to a seat of its own.
fn deal_consumer(log: &Log, keeper: &mut Keeper, number: u64, position: u64) -> LogReader
    requires fits { IsOf log.now keeper.old.held }
    requires first { keeper.old.held.pass.reading ≡ newly number position ∷ other_readings
        keeper.old.held.pass.reading }
    requires low { position ≤ max_position log.now.identity.geometry }
    ensures becomes { Becomes keeper.old (record keeper.old.held.pass {
      reading = other_readings
          keeper.old.held.pass.reading;
    }) keeper.new }
    ensures controls { KnowsControls keeper.old keeper.new }
    ensures steps { TookSteps keeper.old 0 keeper.new }
    ensures reader { IsJoined log.now number position result }
{
    let pass = log.deal_reader(&mut keeper.handle.pass);
    let handle = Handle {
        pass,
        home: None,
        freed: keeper.handle.freed,
        identity: log.identity(),
        start: log.start(),
    };
    LogReader {
        handle,
        place: 0,
        number,
        position,
        read_to: position,
    }
}

/// A reader's consumer goes back to the keeper's own pass, as the first of those that it is.
fn take_back(log: &Log, keeper: &mut Keeper, reader: LogReader)
    requires fits { IsOf log.now keeper.old.held }
    requires reader { IsReaderOf log.now reader }
    requires alone { IsAlone log.now reader }
    ensures becomes { Becomes keeper.old (record keeper.old.held.pass {
      reading =
          reader.held.pass.reading ++ keeper.old.held.pass.reading;
    }) keeper.new }
    ensures controls { KnowsControls keeper.old keeper.new }
    ensures steps { TookSteps keeper.old 0 keeper.new }
    ensures consumer { HasConsumer keeper.new.held.pass 0 reader.number }
{
    log.take_consumer(&mut keeper.handle.pass, reader.handle.pass);
}

impl Keeper {
    /// The least number that no consumer has.
    fn free_number(&self) -> Option<u64>
        ensures some { IfSome result (λ number. IsFirstFree (there_of self.now) number) }
        ensures none { IfNone result (AreEight (there_of self.now)) }
    {
        for number in 0..8 {
            if !self.has_consumer(number) {
                return Some(number);
            }
        }
        None
    }

    /// Whether a consumer with another number is there.
    fn has_other(&self, number: u64) -> bool
        ensures some { IsTrue result → HasOther (there_of self.now) number }
        ensures none { result ≡ false → IsLast (there_of self.now) number }
    {
        let _ = &self.handle;
        for other in 0..8 {
            if other != number && self.has_consumer(other) {
                return true;
            }
        }
        false
    }

    /// Opens a consumer, with the least number that nobody has, at the least position of those that
    /// are there, each of which is loaded once. It reads every frame from there on. The one refusal
    /// is `LogError::Full`, where eight are there; nothing has changed then.
    pub fn join(&mut self, log: &Log) -> Result<LogReader, LogError>
        requires { IsOf log.now self.old.held }
        ensures joins { IfOk result (λ reader. Joins log.now self.old reader self.new) }
        ensures reads { IfOk result (λ reader. IsReaderOf log.now reader) }
        ensures alone { IfOk result (λ reader. IsAlone log.now reader) }
        ensures full { IsErr result ↔ AreEight (there_of self.old) }
        ensures error { IfErr result (λ error. error ≡ LogError.Full) }
        ensures refused { OnErr result (self.new ≡ self.old) }
    {
        let _ = &self.handle;
        let Some(number) = self.free_number() else {
            return Err(LogError::Full);
        };
        let position = begin_consumer(log, self, number, 0);
        Ok(deal_consumer(log, self, number, position))
    }

    /// Spends the pass of a reader, whose number is free again. The one refusal is
    /// `LogError::Last`, where no other consumer is there; the reader comes back, and nothing has
    /// changed then.
    pub fn leave(&mut self, log: &Log, reader: LogReader) -> Result<(), (LogReader, LogError)>
        requires fits { IsOf log.now self.old.held }
        requires reader { IsReaderOf log.now reader }
        requires alone { IsAlone log.now reader }
        ensures leaves { OnOk result (Leaves self.old reader.number self.new) }
        ensures last { IsErr result ↔ IsLast (there_of self.old) reader.number }
        ensures back { IfErr result (λ refused. (refused.0 ≡ reader) × (refused.1 ≡ LogError.Last)) }
        ensures refused { OnErr result (self.new ≡ self.old) }
    {
        let number = reader.number();
        if !self.has_other(number) {
            return Err((reader, LogError::Last));
        }
        take_back(log, self, reader);
        end_consumer(log, self, number, 0);
        Ok(())
    }
}
