//! The end of a log.

ghost use Rattle.std.specs.Prelude.{◌≡◌, ◌+◌, ◌^◌, ◌≤◌, []};
ghost use Rattle.log_rule.specs.Shares.{Weighs, claimed_bytes};
ghost use Rattle.std.specs.List.{AllByRecursion};
ghost use Rattle.theory.specs.Position.{IsGeometry};
ghost use Rattle.log_rule.specs.Table.{all_known};
ghost use Rattle.shared_log.specs.Books.{AreAll, Gathers, HasEntries, IsCommitted, IsCommittedBy, IsDone, IsIdle, Remembers, ShowsBook};
ghost use Rattle.shared_log.specs.Readers.{IsReaderOf, known_of};

use crate::book::Book;
use crate::keeper::Keeper;
use crate::publisher::Publisher;
use crate::reader::LogReader;
use crate::steps::log::Log;

/// The keeper is told how much it has claimed.
fn weigh(log: &Log, keeper: &mut Keeper)
    requires { IsIdle log.now keeper.old.held }
    ensures geometry { IsGeometry log.now.identity.geometry }
    ensures weighs { Weighs keeper.old.held.pass keeper.new.held.pass }
    ensures idle { IsIdle log.now keeper.new.held }
{
    let _ = log.identity();
    log.weigh(&mut keeper.handle.pass);
}

/// What a publisher has goes to the keeper. The answer is its number and its share.
fn gather(log: &Log, keeper: &mut Keeper, publisher: Publisher) -> (usize, u64)
    requires keeper { IsIdle log.now keeper.old.held }
    requires publisher { IsDone log.now publisher }
    ensures idle { IsIdle log.now keeper.new.held }
    ensures gathers { Gathers keeper.old.held.pass publisher keeper.new.held.pass result }
    ensures entries { HasEntries publisher }
    ensures committed { IsCommitted publisher }
    ensures low { keeper.new.held.pass.start + claimed_bytes keeper.new.held.pass ≤ 2 ^ 55 }
{
    let Publisher {
        mut handle,
        number,
        share,
    } = publisher;
    log.weigh(&mut handle.pass);
    log.gather(&mut keeper.handle.pass, handle.pass);
    log.weigh(&mut keeper.handle.pass);
    (number as usize, share)
}

/// All publishers are gathered to the keeper, and their shares are counted.
fn gathered(log: Log, mut publishers: Vec<Publisher>, mut keeper: Keeper) -> Book
    requires { AreAll log publishers.items keeper }
    ensures shows { ShowsBook log publishers.items result }
    ensures known { AllByRecursion (IsCommittedBy publishers.items) (all_known
        keeper.held.pass.reading) }
{
    weigh(&log, &mut keeper);
    let start = log.start();
    let mut tail = start;
    let mut shares = [0; 8];
    while let Some(publisher) = publishers.pop() {
        let (number, share) = gather(&log, &mut keeper, publisher);
        shares[number] += share;
        tail += share;
    }
    Book {
        start,
        tail,
        shares,
    }
}

/// Ends a log. All its publishers have to be handed in, with nothing left open.
pub fn close(log: Log, publishers: Vec<Publisher>, _readers: Vec<LogReader>, keeper: Keeper) -> Book
    requires { AreAll log publishers.items keeper }
    ensures { ShowsBook log publishers.items result }
{
    gathered(log, publishers, keeper)
}

/// The keeper is told each frame that a reader knows.
fn remember(log: &Log, keeper: &mut Keeper, reader: &mut LogReader)
    requires keeper { IsIdle log.now keeper.old.held }
    requires reader { IsReaderOf log.now reader.old }
    ensures idle { IsIdle log.now keeper.new.held }
    ensures remembers { Remembers keeper.old.held.pass reader.old.held.pass keeper.new.held.pass }
{
    log.remember(&mut keeper.handle.pass, &mut reader.handle.pass);
}

/// Ends a log as `close` does, with one of its readers: the frames that this knows are such as the
/// publishers committed.
pub fn close_read(
    log: Log,
    publishers: Vec<Publisher>,
    mut reader: LogReader,
    mut keeper: Keeper,
) -> Book
    requires all { AreAll log publishers.items keeper }
    requires reader { IsReaderOf log reader }
    ensures shows { ShowsBook log publishers.items result }
    ensures known { AllByRecursion (IsCommittedBy publishers.items) (known_of reader) }
{
    remember(&log, &mut keeper, &mut reader);
    gathered(log, publishers, keeper)
}
