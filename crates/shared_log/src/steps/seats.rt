//! A log opens with the one pass that has all; passes are dealt, joined, and told of themselves.

ghost use Rattle.std.specs.Prelude.{◌≡◌, ◌%◌, ◌<◌, ◌≤◌, ◌++◌, ◌∷◌, [], IfOk, map};
ghost use Rattle.theory.specs.Position.{IsGeometry, max_position};
ghost use Rattle.position.specs.Openings.{IsConsumerCount};
ghost use Rattle.log_rule.specs.Claims.Closing.{both, handed_over};
ghost use Rattle.log_rule.specs.Claims.Plays.{dealer, dealt, newcomer, no_keeping};
ghost use Rattle.log_rule.specs.Meetings.{Steadies};
ghost use Rattle.log_rule.specs.Shares.{Weighs};
ghost use Rattle.log_rule.specs.Table.{first_reading, knowledge_of, knows_all, other_readings};
ghost use Rattle.shared_log.specs.Steps.Handles.{IsLogOf, IsOf, IsWholeNew};
ghost use Rattle.shared_log.specs.Steps.Readers.{SameSeat};
ghost use Rattle.shared_log.specs.Steps.Seats.{HasGathered, IsReaderAlone, MayTakeOver, new_pass, without_keeper};

use crate::steps::log::Log;
use crate::steps::pass::LogPass;
use log_memory::{
    deal_keeper, deal_knowledge, deal_news, deal_publisher, deal_reader, open, renumber,
    take_consumer, take_over, take_seat, tell, weigh,
};
use log_rule::Key;
use region::Region;
use std::alloc::{AllocError, Global};
use std::sync::Arc;

impl Log {
    /// A log that opens at a position, unconnected, with its limit and its consumers there; its one
    /// pass, which has all; and what shows that its region is there.
    pub(crate) fn open(alloc: Global, key: &Key) -> Result<(Log, LogPass, Arc<Region>), AllocError>
        requires geometry { IsGeometry key.now.identity.geometry }
        requires unit { key.now.start % 32 ≡ 0 }
        requires below { key.now.start < max_position key.now.identity.geometry }
        requires count { IsConsumerCount key.now.consumers }
        ensures log { IfOk result (λ r. IsLogOf key.now.identity key.now.start key.now.consumers
            r.0) }
        ensures pass { IfOk result (λ r. IsWholeNew r.0 r.1) }
        ensures home { IfOk result (λ r. r.2.value.identity ≡ r.0.table.region) }
    {
        let (memory, seat) = open(alloc, key)?;
        let Ok(home) = Arc::try_clone(&memory.region) else {
            return Err(AllocError);
        };
        let pass = LogPass {
            seat,
            key: memory.region.key(),
        };
        let log = Log {
            memory,
            identity: key.identity,
            start: key.start,
            consumers: key.consumers,
        };
        Ok((log, pass, home))
    }

    /// What shows that the log's region is there, once more.
    pub(crate) fn home(&self) -> Result<Arc<Region>, AllocError>
        ensures { IfOk result (λ home. home.value.identity ≡ self.now.table.region) }
    {
        match Arc::try_clone(&self.memory.region) {
            Ok(home) => Ok(home),
            Err(_) => Err(AllocError),
        }
    }

    /// A publisher goes to a pass of its own.
    pub(crate) fn deal_publisher(&self, pass: &mut LogPass) -> LogPass
        requires fits { IsOf self.now pass.old }
        requires unarmed { pass.old.pass.right.armed ≡ 0 }
        requires unclaimed { pass.old.pass.right.claims ≡ [] }
        requires parts { 120 < pass.old.pass.right.parts }
        ensures left { pass.new ≡ record pass.old { pass = dealer pass.old.pass; sure = 0 } }
        ensures dealt { result ≡ new_pass (dealt pass.old.pass) result.seat pass.old }
    {
        LogPass {
            seat: deal_publisher(&self.memory.table.shared, &mut pass.seat),
            key: self.memory.region.key(),
        }
    }

    /// The first consumer goes to a pass of its own.
    pub(crate) fn deal_reader(&self, pass: &mut LogPass) -> LogPass
        requires fits { IsOf self.now pass.old }
        ensures left { pass.new ≡ record pass.old {
          pass = record pass.old.pass {
            reading =
                other_readings pass.old.pass.reading;
          };
        } }
        ensures dealt { result ≡ new_pass (record (newcomer pass.old.pass.identity
            pass.old.pass.start
            0 0) { reading = first_reading pass.old.pass.reading }) result.seat pass.old }
    {
        LogPass {
            seat: deal_reader(&self.memory.table.shared, &mut pass.seat),
            key: self.memory.region.key(),
        }
    }

    /// The keeper goes to a pass of its own.
    pub(crate) fn deal_keeper(&self, pass: &mut LogPass) -> LogPass
        requires fits { IsOf self.now pass.old }
        requires unarmed { pass.old.pass.right.armed ≡ 0 }
        requires unclaimed { pass.old.pass.right.claims ≡ [] }
        requires parts { 8 < pass.old.pass.right.parts }
        ensures left { pass.new ≡ record pass.old { pass = without_keeper pass.old.pass; sure = 0 } }
        ensures dealt { result ≡ new_pass (record (newcomer pass.old.pass.identity
            pass.old.pass.start
            0 8) { keeping = pass.old.pass.keeping }) result.seat pass.old }
    {
        LogPass {
            seat: deal_keeper(&self.memory.table.shared, &mut pass.seat),
            key: self.memory.region.key(),
        }
    }

    /// The pass, which has all parts, claims under this number from then on.
    pub(crate) fn renumber(&self, pass: &mut LogPass, number: u64)
        requires fits { IsOf self.now pass.old }
        requires number { number < 8 }
        requires whole { pass.old.pass.right.parts ≡ 1024 }
        ensures { pass.new ≡ record pass.old { pass = record pass.old.pass { number = number } } }
    {
        renumber(&self.memory.table.shared, &mut pass.seat, number);
    }

    /// The consumers of a pass are told each frame that another one has committed.
    pub(crate) fn learn(&self, reader: &mut LogPass, publisher: &mut LogPass)
        requires fits { IsOf self.now reader.old }
        requires publisher { IsOf self.now publisher.old }
        ensures told { reader.new ≡ record reader.old {
          pass = record reader.old.pass {
            reading = map (knows_all (publisher.old.pass.work.frames
                ++ [])) reader.old.pass.reading;
          };
        } }
        ensures same { publisher.new ≡ publisher.old }
    {
        let table = &self.memory.table.shared;
        let news = deal_news(table, &mut publisher.seat);
        tell(table, &mut reader.seat, news);
    }

    /// A pass is told each frame that the consumers of another one know.
    pub(crate) fn remember(&self, pass: &mut LogPass, reader: &mut LogPass)
        requires fits { IsOf self.now pass.old }
        requires reader { IsOf self.now reader.old }
        ensures told { pass.new ≡ record pass.old {
          pass = record pass.old.pass {
            reading = knowledge_of reader.old.pass
                ∷ pass.old.pass.reading;
          };
        } }
        ensures same { reader.new ≡ reader.old }
    {
        let table = &self.memory.table.shared;
        let knowledge = deal_knowledge(table, &mut reader.seat);
        take_consumer(table, &mut pass.seat, knowledge);
    }

    /// The consumer that another pass is, and nothing else, goes to a pass, as the first of those
    /// that it is.
    pub(crate) fn take_consumer(&self, pass: &mut LogPass, reader: LogPass)
        requires fits { IsOf self.now pass.old }
        requires reader { IsOf self.now reader }
        requires alone { IsReaderAlone self.now reader.pass }
        ensures { pass.new ≡ record pass.old {
          pass = record pass.old.pass {
            reading = reader.pass.reading
                ++ pass.old.pass.reading;
          };
        } }
    {
        take_consumer(&self.memory.table.shared, &mut pass.seat, reader.seat);
    }

    /// What another pass has that has nothing open goes to a pass.
    pub(crate) fn gather(&self, pass: &mut LogPass, other: LogPass)
        requires fits { IsOf self.now pass.old }
        requires other { IsOf self.now other }
        requires unarmed { (pass.old.pass.right.armed ≡ 0) × (other.pass.right.armed ≡ 0) }
        requires parts { 0 < pass.old.pass.right.parts }
        requires ended { other.pass.work.drafts ≡ [] }
        ensures { pass.new ≡ record pass.old { pass = both pass.old.pass other.pass; sure = 0 } }
    {
        take_seat(&self.memory.table.shared, &mut pass.seat, other.seat);
    }

    /// What another pass has goes to a pass, whose own the other's claims are then, the open ones
    /// too: by one step.
    pub(crate) fn take_over(&self, pass: &mut LogPass, other: LogPass)
        requires fits { IsOf self.now pass.old }
        requires other { IsOf self.now other }
        requires may { MayTakeOver pass.old.pass other.pass }
        ensures { HasGathered (handed_over pass.old.pass other.pass) pass.old pass.new }
    {
        take_over(&self.memory.table.shared, &mut pass.seat, other.seat);
    }

    /// A pass is told how much it has claimed, by one step.
    pub(crate) fn weigh(&self, pass: &mut LogPass)
        requires { IsOf self.now pass.old }
        ensures seat { SameSeat pass.old pass.new }
        ensures weighs { Weighs pass.old.pass pass.new.pass }
    {
        weigh(&self.memory.table.shared, &mut pass.seat);
    }
}
