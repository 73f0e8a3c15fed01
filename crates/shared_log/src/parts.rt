//! A log that opens, with all its passes.

ghost use Rattle.std.specs.Prelude.{◌≡◌, ℕ, ◌+◌, ◌<◌, ◌≤◌, ◌↔◌, [], IfErr, IfOk, IsErrOf, length, map, vec_capacity, vec_len};
ghost use Rattle.theory.specs.Position.{max_position};
ghost use Rattle.position.specs.Openings.{IsConsumerCount, IsStart};
ghost use Rattle.log_rule.specs.Table.{first_there as first_flags};
ghost use Rattle.shared_log.specs.Faults.{OfOpening};
ghost use Rattle.shared_log.specs.Handles.{AreNew};
ghost use Rattle.shared_log.specs.Steps.Handles.{IsLogOf, IsWholeNew};
ghost use Rattle.shared_log.specs.Keepers.{flag_of};
ghost use Rattle.shared_log.specs.Parts.{AreDealt, AreReaders, IsDealing, IsDealer, IsNewKeeper, IsNewReader, IsNewPublisher};

use crate::fault::LogError;
use crate::handle::Handle;
use crate::home::Home;
use crate::keeper::Keeper;
use crate::opening::open_whole;
use crate::publisher::Publisher;
use crate::reader::LogReader;
use crate::steps::log::Log;
use position::Geometry;
use region::Region;
use std::alloc::{AllocError, AllocFailed, Global};
use std::sync::Arc;

/// All passes of a log that was just opened.
#[derive(Drop)]
pub struct Parts {
    /// By their numbers, 0 to 7.
    pub publishers: [Publisher; 8],
    /// As many as were asked for, by their numbers, all at the start.
    pub readers: Vec<LogReader>,
    pub keeper: Keeper,
}

/// So many consumers are there, with the first numbers.
pub fn first_there(consumers: u64) -> [bool; 8]
    requires { consumers ≤ 8 }
    ensures flags { map flag_of result ≡ first_flags consumers }
    ensures many { length result ≡ 8 }
{
    let mut there = [false; 8];
    for number in 0..consumers {
        there[number as usize] = true;
    }
    there
}

/// The keeper goes to a seat of its own.
fn deal_keeper(log: &Log, region: Arc<Region>, pass: &mut Publisher) -> Keeper
    requires pass { IsWholeNew log.now pass.old }
    requires region { region.value.identity ≡ log.now.table.region }
    ensures dealing { IsDealing log.now 0 pass.new }
    ensures keeper { IsNewKeeper log.now result }
{
    let start = log.start();
    let there = first_there(log.consumers());
    let handle = Handle {
        pass: log.deal_keeper(&mut pass.handle.pass),
        home: Some(Home { region }),
        freed: pass.handle.freed,
        identity: log.identity(),
        start,
    };
    Keeper {
        handle,
        limit: start,
        cleaned: start,
        there,
    }
}

/// A consumer goes to a seat of its own.
fn deal_reader(log: &Log, pass: &mut Publisher, number: u64) -> LogReader
    requires dealing { IsDealing log.now number pass.old }
    requires inside { number < log.now.consumers }
    requires below { log.now.start < max_position log.now.identity.geometry }
    ensures dealing { IsDealing log.now (number + 1) pass.new }
    ensures reader { IsNewReader log.now number result }
{
    let start = log.start();
    let handle = Handle {
        pass: log.deal_reader(&mut pass.handle.pass),
        home: None,
        freed: pass.handle.freed,
        identity: log.identity(),
        start,
    };
    LogReader {
        handle,
        place: 0,
        number,
        position: start,
        read_to: start,
    }
}

/// All consumers do, by their numbers.
fn deal_readers(log: &Log, pass: &mut Publisher, mut readers: Vec<LogReader>) -> Vec<LogReader>
    requires dealing { IsDealing log.now 0 pass.old }
    requires below { log.now.start < max_position log.now.identity.geometry }
    requires none { readers.items ≡ [] }
    requires room { log.now.consumers ≤ vec_capacity readers }
    ensures dealing { IsDealing log.now log.now.consumers pass.new }
    ensures readers { AreReaders log.now 0 result.items }
    ensures all { vec_len result ≡ log.now.consumers }
{
    for number in 0..log.consumers() {
        readers.push(deal_reader(log, pass, number)).unwrap();
    }
    readers
}

/// The last of the publishers that are left goes to a seat of its own.
fn deal_publisher(log: &Log, region: Arc<Region>, pass: &mut Publisher) -> Publisher
    requires dealer { IsDealer log.now pass.old }
    requires region { region.value.identity ≡ log.now.table.region }
    requires number { 0 < pass.old.pass.number }
    ensures dealer { IsDealer log.now pass.new }
    ensures fewer { pass.new.pass.number + 1 ≡ pass.old.pass.number }
    ensures dealt { IsNewPublisher log.now pass.old.pass.number result }
{
    let number = pass.number;
    let dealt = log.deal_publisher(&mut pass.handle.pass);
    pass.number = number - 1;
    let handle = Handle {
        pass: dealt,
        home: Some(Home { region }),
        freed: pass.handle.freed,
        identity: pass.handle.identity,
        start: pass.handle.start,
    };
    Publisher {
        handle,
        number,
        share: 0,
    }
}

/// All publishers do, by their numbers.
fn deal_publishers(log: &Log, mut last: Publisher) -> Result<[Publisher; 8], AllocError>
    requires { IsDealing log.now log.now.consumers last }
    ensures { IfOk result (AreNew log.now 0) }
{
    let seven = deal_publisher(log, log.home()?, &mut last);
    let six = deal_publisher(log, log.home()?, &mut last);
    let five = deal_publisher(log, log.home()?, &mut last);
    let four = deal_publisher(log, log.home()?, &mut last);
    let three = deal_publisher(log, log.home()?, &mut last);
    let two = deal_publisher(log, log.home()?, &mut last);
    let one = deal_publisher(log, log.home()?, &mut last);
    Ok([last, one, two, three, four, five, six, seven])
}

/// A log that opens at a position, unconnected, with its limit and so many consumers at the start,
/// and all its passes. The start is judged first, then the number of consumers; then memory is
/// asked for.
pub fn open(
    alloc: Global,
    geometry: Geometry,
    session: i32,
    stream: i32,
    start: u64,
    consumers: usize,
) -> Result<(Log, Parts), LogError>
    ensures log { IfOk result (λ r. IsLogOf (record {
      geometry = geometry;
      session = session;
      stream
          = stream;
    }) start consumers r.0) }
    ensures parts { IfOk result (λ r. AreDealt r.0 r.1.publishers r.1.readers.items r.1.keeper) }
    ensures start { IsErrOf result LogError.Start ↔ (¬ IsStart geometry start) }
    ensures consumers { IsErrOf result LogError.Consumers ↔ (IsStart geometry start × (¬
        IsConsumerCount consumers)) }
    ensures in_range { IfOk result (λ _. IsStart geometry start × IsConsumerCount consumers) }
    ensures memory { IsErrOf result LogError.Memory → IsStart geometry start × IsConsumerCount
        consumers }
    ensures opens { IfErr result OfOpening }
{
    let (log, mut pass) = open_whole(alloc, geometry, session, stream, start, consumers)?;
    let readers = Vec::with_capacity(alloc, consumers)?;
    let region = log.home()?;
    let keeper = deal_keeper(&log, region, &mut pass);
    let readers = deal_readers(&log, &mut pass, readers);
    let publishers = deal_publishers(&log, pass)?;
    let parts = Parts {
        publishers,
        readers,
        keeper,
    };
    Ok((log, parts))
}
