//! Consumers that join and leave, on one thread.

ghost use Rattle.std.specs.Prelude.{◌≡◌, ◌≤◌, [], IfOk, length};
ghost use Rattle.std.specs.List.{AllByRecursion};
ghost use Rattle.shared_log.specs.Steps.Handles.{IsOf, parts_in};
ghost use Rattle.log_rule.specs.Claims.Sums.{total};
ghost use Rattle.shared_log.specs.Handles.{AreNew};
ghost use Rattle.shared_log.specs.Readers.{known_of};
ghost use Rattle.stream_tests.specs.Consumers.{IsSingle};
ghost use Rattle.claims_tests.specs.Passes.{IsKeeping, IsPart};
ghost use Rattle.consumer_tests.specs.Passes.{ArePasses};

use crate::passes::Passes;
use block::Block;
use claims::{Claimant, Parts, close, offer, open};
use log_messages::LogMessages;
use position::{BEGIN, FrameHead, Geometry};
use publication::Refusal;
use shared_log::{
    Book, Keeper, Log, LogError, LogReader, advance, clean_and_limit, next, set_connected,
};
use std::alloc::{AllocError, Global};
use std::process::Abort;
use std::test::*;

/// The numbers that are free where the second consumer alone is there.
const FREE: [u64; 7] = [0, 2, 3, 4, 5, 6, 7];

/// All passes of a log, its publishers apart.
fn passes_of(log: &Log, claimants: [Claimant; 8], reader: LogReader, keeper: Keeper) -> Passes
    requires claimants { AreNew log.now 0 claimants }
    requires reader { IsSingle log.now reader }
    requires keeper { IsKeeping log.now keeper }
    ensures { ArePasses log.now result }
{
    let _ = log.start();
    let [publisher, one, two, three, four, five, six, seven] = claimants;
    Passes {
        publisher,
        others: [one, two, three, four, five, six, seven],
        reader,
        keeper,
    }
}

/// A log with short terms and short frames, connected, with one consumer, and all its passes.
#[tactic(auto, using(crate::proofs::Singles::new_single))]
fn open_passes(alloc: Global) -> Result<(Log, Passes), Fail>
    ensures { IfOk result (λ r. ArePasses r.0 r.1) }
{
    let geometry = Geometry::new(65_536, 256, 7)?;
    let (log, parts) = open(alloc, geometry, 1, 1001, 0, 1)?;
    let Parts {
        claimants,
        mut readers,
        mut keeper,
    } = parts;
    set_connected(&log, &mut keeper, true);
    clean_and_limit(&log, &mut keeper);
    let passes = passes_of(&log, claimants, readers.remove(0), keeper);
    Ok((log, passes))
}

/// All publishers, by their numbers.
fn claimants_of(log: &Log, publisher: Claimant, others: [Claimant; 7]) -> [Claimant; 8]
    requires publisher { IsPart log.now 176 publisher }
    requires others { AllByRecursion (IsPart log.now 120) others }
    ensures of { AllByRecursion (IsOf log.now) result }
    ensures parts { total parts_in result ≡ 1016 }
{
    let _ = log.start();
    let [one, two, three, four, five, six, seven] = others;
    [publisher, one, two, three, four, five, six, seven]
}

/// Closes a log with all its passes.
fn close_all(
    alloc: Global,
    log: Log,
    publisher: Claimant,
    others: [Claimant; 7],
    readers: Vec<LogReader>,
    keeper: Keeper,
) -> Result<Book, AllocError>
    requires publisher { IsPart log 176 publisher }
    requires others { AllByRecursion (IsPart log 120) others }
    requires keeper { IsKeeping log keeper }
{
    let claimants = Vec::from_array(alloc, claimants_of(&log, publisher, others))?;
    let memory = Vec::with_capacity(alloc, 8)?;
    Ok(close(log, claimants, readers, keeper, memory))
}

/// Offers a message.
fn publish(log: &Log, publisher: &mut Claimant, message: &[u8]) -> Result<u64, Refusal>
    requires { IsPart log.now 176 publisher.old }
    ensures { IsPart log.now 176 publisher.new }
{
    let most = log.identity().geometry().max_message() as usize;
    offer(log, publisher, &message[..message.len().min(most)])
}

/// Memory for a frame's payload.
fn block_for(alloc: Global, log: &Log) -> Result<Block, AllocError>
    ensures { IfOk result (λ block. log.now.identity.geometry.mtu ≤ length block) }
{
    Block::new(alloc, log.identity().geometry().mtu() as usize)
}

/// The next frame, which the reader goes behind.
fn read<R: Abort>(rt: &R, log: &Log, reader: &mut LogReader, block: &mut Block) -> FrameHead
    requires reader { IsSingle log.now reader.old }
    requires room { log.now.identity.geometry.mtu ≤ length block.old }
    ensures reader { IsSingle log.now reader.new }
    ensures room { log.now.identity.geometry.mtu ≤ length block.new }
{
    match next(log, reader, block) {
        Some(head) => {
            advance(log, reader);
            head
        }
        None => panic!(rt; "no frame is there"),
    }
}

/// The messages of a reader that has read nothing, from where it stands on.
fn messages_of(alloc: Global, reader: LogReader) -> Result<LogMessages, AllocError>
    requires { known_of reader ≡ [] }
    ensures { IfOk result (λ messages. messages.reader ≡ reader) }
{
    match LogMessages::new(alloc, reader, 8192) {
        Ok(messages) => Ok(messages),
        Err(_) => Err(AllocError),
    }
}

/// A consumer joins, with this number, at this position. It has read nothing.
#[tactic(auto, using(crate::proofs::Singles::joined_unread))]
fn join_as<R: Abort>(
    rt: &R,
    log: &Log,
    keeper: &mut Keeper,
    number: u64,
    position: u64,
) -> LogReader
    requires { IsKeeping log.now keeper.old }
    ensures keeper { IsKeeping log.now keeper.new }
    ensures reader { IsSingle log.now result }
    ensures nothing { known_of result ≡ [] }
{
    match keeper.join(log) {
        Ok(reader) => {
            assert!(rt; (reader.number(), reader.position()) == (number, position));
            reader
        }
        Err(error) => panic!(rt; "refused with {error}"),
    }
}

/// No other consumer can join.
fn join_none<R: Abort>(rt: &R, log: &Log, keeper: &mut Keeper)
    requires { IsKeeping log.now keeper.old }
    ensures { IsKeeping log.now keeper.new }
{
    match keeper.join(log) {
        Ok(_) => panic!(rt; "more than eight are there"),
        Err(error) => assert!(rt; error == LogError::Full),
    }
}

/// A consumer leaves.
fn leave<R: Abort>(rt: &R, log: &Log, keeper: &mut Keeper, reader: LogReader)
    requires keeper { IsKeeping log.now keeper.old }
    requires reader { IsSingle log.now reader }
    ensures { IsKeeping log.now keeper.new }
{
    if let Err((_, error)) = keeper.leave(log, reader) {
        panic!(rt; "refused with {error}");
    }
}

/// The last consumer can't leave, and comes back.
fn leave_none<R: Abort>(rt: &R, log: &Log, keeper: &mut Keeper, reader: LogReader) -> LogReader
    requires keeper { IsKeeping log.now keeper.old }
    requires reader { IsSingle log.now reader }
    ensures keeper { IsKeeping log.now keeper.new }
    ensures reader { result ≡ reader }
{
    match keeper.leave(log, reader) {
        Ok(()) => panic!(rt; "nobody is there"),
        Err((reader, error)) => {
            assert!(rt; error == LogError::Last);
            reader
        }
    }
}

/// Consumers join until eight are there.
fn join_all<R: Abort>(rt: &R, alloc: Global, log: &Log, keeper: &mut Keeper) -> Vec<LogReader>
    requires { IsKeeping log.now keeper.old }
    ensures keeper { IsKeeping log.now keeper.new }
    ensures readers { AllByRecursion (IsSingle log.now) result.items }
{
    let mut readers = Vec::new(alloc);
    for number in FREE {
        let reader = join_as(rt, log, keeper, number, 384);
        readers.push(reader).expect(rt, "memory");
    }
    readers
}

/// The second consumer and the last of the others leave, and then as many join: they have the two numbers again.
fn join_again<R: Abort>(
    rt: &R,
    log: &Log,
    keeper: &mut Keeper,
    second: LogReader,
    mut readers: Vec<LogReader>,
) -> Vec<LogReader>
    requires keeper { IsKeeping log.now keeper.old }
    requires second { IsSingle log.now second }
    requires readers { AllByRecursion (IsSingle log.now) readers.items }
    ensures { IsKeeping log.now keeper.new }
{
    let last = readers.pop().expect(rt, "seven are there");
    assert!(rt; (second.number(), last.number()) == (1, 7));
    leave(rt, log, keeper, last);
    leave(rt, log, keeper, second);
    for number in [1, 7] {
        let reader = join_as(rt, log, keeper, number, 384);
        readers.push(reader).expect(rt, "memory");
    }
    join_none(rt, log, keeper);
    readers
}

/// A consumer joins where the least one stands, in the middle of a message, of which it gets nothing, and reads on from
/// there. The last one can't leave, and no ninth can join.
#[test]
fn joins_and_leaves(rt: HostRuntime) -> Result<(), Fail> {
    let (log, passes) = open_passes(rt.alloc())?;
    let Passes {
        mut publisher,
        others,
        mut reader,
        mut keeper,
    } = passes;
    let mut block = block_for(rt.alloc(), &log)?;
    assert!(rt; publish(&log, &mut publisher, &[b'x'; 225]) == Ok(320));
    let head = read(&rt, &log, &mut reader, &mut block);
    assert!(rt; (head.start, head.flags, reader.position()) == (0, BEGIN, 256));
    let second = join_as(&rt, &log, &mut keeper, 1, 256);
    leave(&rt, &log, &mut keeper, reader);
    let second = leave_none(&rt, &log, &mut keeper, second);
    let mut messages = messages_of(rt.alloc(), second)?;
    assert!(rt; messages.next(&log)?.is_none());
    assert!(rt; messages.position() == 320);
    assert!(rt; publish(&log, &mut publisher, b"abc") == Ok(384));
    let message = messages.next(&log)?;
    assert!(rt; message.is_some_and(|message| message.bytes.as_slice() == b"abc".as_slice()));
    let readers = join_all(&rt, rt.alloc(), &log, &mut keeper);
    join_none(&rt, &log, &mut keeper);
    let readers = join_again(&rt, &log, &mut keeper, messages.into_reader(), readers);
    let book = close_all(rt.alloc(), log, publisher, others, readers, keeper)?;
    let whole = Book {
        start: 0,
        tail: 384,
        shares: [384, 0, 0, 0, 0, 0, 0, 0],
    };
    assert!(rt; book == whole);
    Ok(())
}
