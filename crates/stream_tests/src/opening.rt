//! Logs that open.

ghost use Rattle.std.specs.Prelude.{IfOk, OnOk};
ghost use Rattle.std.specs.List.{AllByRecursion};
ghost use Rattle.shared_log.specs.Handles.{AreNew};
ghost use Rattle.shared_log.specs.Steps.Handles.{IsOf};
ghost use Rattle.stream_tests.specs.Parties.{IsParty, IsUnread};

use crate::parties::Party;
use crate::streams::{LONGEST, PUBLISHERS};
use log_messages::LogMessages;
use position::Geometry;
use shared_log::{Keeper, Log, LogReader, Parts, Publisher, open, set_connected};
use std::alloc::{AllocError, Global};
use std::test::Fail;

/// What threads have that publish.
fn publishing(log: &Log, publishers: [Publisher; 8]) -> [Party; 8]
    requires { AreNew log.now 0 publishers }
    ensures { AllByRecursion (IsParty log.now) result }
{
    let [zero, one, two, three, four, five, six, seven] = publishers;
    [
        Party::Publishing(zero),
        Party::Publishing(one),
        Party::Publishing(two),
        Party::Publishing(three),
        Party::Publishing(four),
        Party::Publishing(five),
        Party::Publishing(six),
        Party::Publishing(seven),
    ]
}

/// What a thread has that reads.
fn reading(alloc: Global, log: &Log, reader: LogReader) -> Result<Party, AllocError>
    requires { IsUnread log.now reader }
    ensures { IfOk result (λ party. IsParty log.now party) }
{
    let _ = log.start();
    match LogMessages::new(alloc, reader, LONGEST) {
        Ok(messages) => Ok(Party::Reading(messages)),
        Err(_) => Err(AllocError),
    }
}

/// Adds those that read.
fn add_readers(
    alloc: Global,
    log: &Log,
    mut readers: Vec<LogReader>,
    parties: &mut Vec<Party>,
) -> Result<(), Fail>
    requires readers { AllByRecursion (IsUnread log.now) readers.items }
    requires parties { AllByRecursion (IsParty log.now) parties.old.items }
    ensures { OnOk result (AllByRecursion (IsParty log.now) parties.new.items) }
{
    while let Some(reader) = readers.pop() {
        let party = reading(alloc, log, reader)?;
        parties.push(party)?;
    }
    Ok(())
}

/// For four publishers, the keeper and the readers what each has.
fn parties_of(
    alloc: Global,
    log: &Log,
    publishers: [Publisher; 8],
    keeper: Keeper,
    readers: Vec<LogReader>,
) -> Result<Vec<Party>, Fail>
    requires publishers { AreNew log.now 0 publishers }
    requires keeper { IsOf log.now keeper.held }
    requires readers { AllByRecursion (IsUnread log.now) readers.items }
    ensures { IfOk result (λ parties. AllByRecursion (IsParty log.now) parties.items) }
{
    let mut parties = Vec::from_array(alloc, publishing(log, publishers))?;
    parties.truncate(PUBLISHERS);
    parties.push(Party::Keeping(keeper))?;
    add_readers(alloc, log, readers, &mut parties)?;
    Ok(parties)
}

/// A log with short terms, connected, and for four publishers, two readers and the keeper what each has.
pub(crate) fn open_streams(alloc: Global) -> Result<(Log, Vec<Party>), Fail>
    ensures { IfOk result (λ r. AllByRecursion (IsParty r.0) r.1.items) }
{
    let geometry = Geometry::new(65_536, 1408, 7)?;
    let (log, parts) = open(alloc, geometry, 1, 1001, 0, 2)?;
    let Parts {
        publishers,
        readers,
        mut keeper,
    } = parts;
    set_connected(&log, &mut keeper, true);
    let parties = parties_of(alloc, &log, publishers, keeper, readers)?;
    Ok((log, parties))
}
