//! Consumers that join and leave while publishers publish, readers read and the keeper cleans, in threads of their own.

ghost use Rattle.std.specs.Prelude.{◌≤◌, IfOk};
ghost use Rattle.std.specs.List.{AllByRecursion};
ghost use Rattle.shared_log.specs.Steps.Handles.{IsOf};
ghost use Rattle.shared_log.specs.Readers.{IsAlone, IsReaderOf};
ghost use Rattle.stream_tests.specs.Consumers.{IsNewcomer, IsSingle};
ghost use Rattle.stream_tests.specs.Parties.{IsParty};

use crate::opening::open_streams;
use crate::parties::Party;
use crate::streams::{LONGEST, PUBLISHERS, size_of, write};
use log_messages::LogMessages;
use publication::{Refusal, offer};
use shared_log::{Keeper, Log, LogReader, OnLog, Publisher, clean_and_limit};
use std::alloc::{AllocError, Global};
use std::sync::atomic::{AtomicU64, Ordering};
use std::test::*;
use std::thread;
use std::thread::{Threads, join, yield_now};

/// How often two consumers join and leave.
const PAIRS: u32 = 50;

/// How many messages each of them reads.
const MESSAGES: u32 = 100;

/// Bytes of a term, and the most that a message's frame covers: a padding is shorter.
const TERM: u64 = 65_536;

const COVERED: u64 = 960;

/// How often a thread tries, at the most.
const TRIES: u32 = 100_000_000;

/// What is wrong.
#[derive(Clone, Copy, Debug, PartialEq, Eq)]
enum Fault {
    /// An offer was refused for good.
    Refused,
    /// A message doesn't begin where the one before ended, or behind a padding there, at a term's start.
    Gap,
    /// A message is another than its publisher's next one.
    Message,
    /// One was lost.
    Lost,
    /// A consumer was refused.
    Join,
    /// One has another number, or stands above one that was there.
    Place,
    /// A consumer can't leave.
    Leave,
    /// One has read too few messages.
    Few,
    /// Memory was refused.
    Memory,
}

/// How many messages a thread published or read, or how many consumers joined and left; or what was wrong.
type Outcome = Result<u32, Fault>;

/// How far the threads are.
#[derive(Drop)]
struct Progress {
    stopped: AtomicU64,
    over: AtomicU64,
}

impl Progress {
    fn new() -> Progress {
        Progress {
            stopped: AtomicU64::new(0),
            over: AtomicU64::new(0),
        }
    }

    /// Nobody publishes any more from now on.
    fn stop(&self) {
        self.stopped.store(1, Ordering::SeqCst);
    }

    fn is_stopped(&self) -> bool {
        self.stopped.load(Ordering::SeqCst) > 0
    }

    /// A publisher is through.
    fn end(&self) {
        self.over.fetch_add(1, Ordering::SeqCst);
    }

    /// Whether all publishers are.
    fn is_over(&self) -> bool {
        self.over.load(Ordering::SeqCst) >= PUBLISHERS as u64
    }
}

/// What a consumer reads: where its last message ended, and of each publisher the count of the next message, once that is
/// known.
#[derive(Clone, Copy)]
struct Course {
    position: u64,
    counts: [Option<u32>; PUBLISHERS],
    messages: u32,
    fault: Option<Fault>,
}

/// The number that stands in a message's bytes from an index on.
fn number_at(message: &[u8], index: usize) -> u32
    requires { index ≤ 4 }
{
    match message.get(index..index + 4) {
        Some([one, two, three, four]) => u32::from_le_bytes([*one, *two, *three, *four]),
        _ => u32::MAX,
    }
}

impl Course {
    /// From a position on, where each publisher's next message has this count.
    fn new(position: u64, count: Option<u32>) -> Course {
        Course {
            position,
            counts: [count; PUBLISHERS],
            messages: 0,
            fault: None,
        }
    }

    fn fail(&mut self, fault: Fault) {
        self.fault = self.fault.or(Some(fault));
    }

    /// Takes the next message, whose only frame ends there.
    fn take(&mut self, message: &[u8], end: u64) {
        let covered = (message.len() as u64).wrapping_add(63) / 32 * 32;
        let start = end.wrapping_sub(covered);
        let padded = start.wrapping_sub(self.position);
        if padded > 0 && (padded >= COVERED || !start.is_multiple_of(TERM)) {
            self.fail(Fault::Gap);
        }
        self.position = end;
        if !self.take_message(message) {
            self.fail(Fault::Message);
        }
    }

    /// Takes the next message of its publisher. Whether it is that.
    fn take_message(&mut self, found: &[u8]) -> bool {
        let (number, count) = (number_at(found, 0), number_at(found, 4));
        let Some(known) = self.counts.get_mut(number as usize) else {
            return false;
        };
        let awaited = known.unwrap_or(count);
        *known = Some(awaited.wrapping_add(1));
        self.messages = self.messages.wrapping_add(1);
        let mut message = [0; LONGEST];
        write(&mut message, number, awaited);
        found == &message[..size_of(number, awaited)]
    }

    fn outcome(&self) -> Outcome {
        match self.fault {
            Some(fault) => Err(fault),
            None => Ok(self.messages),
        }
    }
}

/// Publishes messages until the log's users stop.
fn publish(log: &Log, publisher: &mut Publisher, progress: &Progress) -> Outcome
    requires { IsOf log.now publisher.old }
{
    let number = (publisher.number() % 8) as u32;
    let most = log.identity().geometry().max_message() as usize;
    let mut message = [0; LONGEST];
    let mut count: u32 = 0;
    for _ in 0..TRIES {
        if progress.is_stopped() {
            break;
        }
        write(&mut message, number, count);
        let size = size_of(number, count).min(most);
        match offer(&mut OnLog::new(log), publisher, &message[..size]) {
            Ok(_) => count = count.wrapping_add(1),
            Err(Refusal::AdminAction) => {}
            Err(Refusal::BackPressured) => yield_now(),
            Err(_) => {
                progress.stop();
                progress.end();
                return Err(Fault::Refused);
            }
        }
    }
    progress.end();
    Ok(count)
}

/// Takes the next message. Whether one is there.
fn read_next(log: &Log, messages: &mut LogMessages, course: &mut Course) -> bool
    requires { IsReaderOf log.now messages.old.reader }
    ensures fits { IsReaderOf log.now messages.new.reader }
    ensures alone { IsAlone log.now messages.old.reader → IsAlone log.now messages.new.reader }
{
    match messages.next(log) {
        Ok(Some(message)) => course.take(&message.bytes, messages.position()),
        Ok(None) => return false,
        Err(_) => course.fail(Fault::Lost),
    }
    true
}

/// Reads until all publishers are through and no message is left.
fn read_all(log: &Log, messages: &mut LogMessages, progress: &Progress) -> Outcome
    requires { IsReaderOf log.now messages.old.reader }
{
    let mut course = Course::new(log.start(), Some(0));
    for _ in 0..TRIES {
        let over = progress.is_over();
        if read_next(log, messages, &mut course) {
            continue;
        }
        if over {
            break;
        }
        yield_now();
    }
    if course.fault.is_some() {
        progress.stop();
    }
    course.outcome()
}

/// What a consumer leaves that has joined and read.
#[derive(Drop)]
struct Visit {
    reader: LogReader,
    outcome: Outcome,
}

/// Reads so many messages, unless all stop before.
fn follow(
    log: &Log,
    mut messages: LogMessages,
    course: &mut Course,
    progress: &Progress,
) -> LogReader
    requires { IsSingle log.now messages.reader }
    ensures { IsSingle log.now result }
{
    for _ in 0..TRIES {
        if course.messages >= MESSAGES || progress.is_stopped() {
            break;
        }
        if !read_next(log, &mut messages, course) {
            yield_now();
        }
    }
    messages.into_reader()
}

/// Reads so many messages from where the reader joined, unless all stop before.
fn read_some(
    alloc: Global,
    log: &Log,
    reader: LogReader,
    progress: &Progress,
    over: &AtomicU64,
) -> Visit
    requires { IsNewcomer log.now reader }
    ensures { IsSingle log.now result.reader }
{
    let mut course = Course::new(reader.position(), None);
    let reader = match LogMessages::new(alloc, reader, LONGEST) {
        Ok(messages) => follow(log, messages, &mut course, progress),
        Err(denied) => {
            course.fail(Fault::Memory);
            denied.reader
        }
    };
    if course.messages < MESSAGES {
        course.fail(Fault::Few);
    }
    over.fetch_add(1, Ordering::SeqCst);
    Visit {
        reader,
        outcome: course.outcome(),
    }
}

/// Cleans and raises the limit until two consumers are through.
fn keep(log: &Log, mut keeper: Keeper, over: &AtomicU64) -> Keeper
    requires { IsOf log.now keeper.held }
    ensures { IsOf log.now result.held }
{
    for _ in 0..TRIES {
        clean_and_limit(log, &mut keeper);
        if over.load(Ordering::SeqCst) >= 2 {
            break;
        }
        yield_now();
    }
    keeper
}

/// Two consumers read, each in a thread of its own.
fn read_both<R: Threads>(
    rt: &R,
    alloc: Global,
    log: &Log,
    one: LogReader,
    other: LogReader,
    progress: &Progress,
    over: &AtomicU64,
) -> (Visit, Visit)
    requires one { IsNewcomer log.now one }
    requires other { IsNewcomer log.now other }
    ensures one { IsSingle log.now result.0.reader }
    ensures other { IsSingle log.now result.1.reader }
{
    join(
        rt,
        || -> Visit
            requires { IsNewcomer log.now one }
            ensures { IsSingle log.entry.now result.reader }
        { read_some(alloc, log, one, progress, over) },
        || -> Visit
            requires { IsNewcomer log.now other }
            ensures { IsSingle log.entry.now result.reader }
        { read_some(alloc, log, other, progress, over) },
    )
}

/// Two consumers read while the keeper cleans, in three threads.
fn read_and_keep<R: Threads + Sync>(
    rt: &R,
    alloc: Global,
    log: &Log,
    keeper: Keeper,
    one: LogReader,
    other: LogReader,
    progress: &Progress,
) -> (Keeper, Visit, Visit)
    requires keeper { IsOf log.now keeper.held }
    requires one { IsNewcomer log.now one }
    requires other { IsNewcomer log.now other }
    ensures keeper { IsOf log.now result.0.held }
    ensures one { IsSingle log.now result.1.reader }
    ensures other { IsSingle log.now result.2.reader }
{
    let over = AtomicU64::new(0);
    let both = &over;
    let ((one, other), keeper) = join(
        rt,
        || -> (Visit, Visit)
            requires { IsNewcomer log.now one × IsNewcomer log.now other }
            ensures { IsSingle log.entry.now result.0.reader × IsSingle log.entry.now result.1.reader }
        { read_both(rt, alloc, log, one, other, progress, both) },
        || -> Keeper
            requires { IsOf log.now keeper.held }
            ensures { IsOf log.entry.now result.held }
        { keep(log, keeper, both) },
    );
    (keeper, one, other)
}

/// A consumer joins.
#[tactic(auto, using(crate::proofs::Unread::joined_unread))]
fn join_one(log: &Log, keeper: &mut Keeper) -> Result<LogReader, Fault>
    requires { IsOf log.now keeper.old.held }
    ensures keeper { IsOf log.now keeper.new.held }
    ensures reader { IfOk result (λ reader. IsNewcomer log.now reader) }
{
    match keeper.join(log) {
        Ok(reader) => Ok(reader),
        Err(_) => Err(Fault::Join),
    }
}

/// Two consumers leave.
fn leave_both(log: &Log, keeper: &mut Keeper, one: LogReader, other: LogReader) -> Result<(), Fault>
    requires keeper { IsOf log.now keeper.old.held }
    requires one { IsSingle log.now one }
    requires other { IsSingle log.now other }
    ensures { IsOf log.now keeper.new.held }
{
    if keeper.leave(log, one).is_err() || keeper.leave(log, other).is_err() {
        return Err(Fault::Leave);
    }
    Ok(())
}

/// Two consumers join, read and leave. The second one joins while the first stands still, and not above it.
fn join_and_leave<R: Threads + Sync>(
    rt: &R,
    alloc: Global,
    log: &Log,
    mut keeper: Keeper,
    progress: &Progress,
) -> (Keeper, Result<(), Fault>)
    requires { IsOf log.now keeper.held }
    ensures { IsOf log.now result.0.held }
{
    let Ok(one) = join_one(log, &mut keeper) else {
        return (keeper, Err(Fault::Join));
    };
    let Ok(other) = join_one(log, &mut keeper) else {
        return (keeper, Err(Fault::Join));
    };
    let below = other.position() <= one.position();
    let placed = below && (one.number(), other.number()) == (2, 3);
    let (mut keeper, one, other) = read_and_keep(rt, alloc, log, keeper, one, other, progress);
    let left = leave_both(log, &mut keeper, one.reader, other.reader);
    let faults = one.outcome.err().or(other.outcome.err()).or(left.err());
    match faults {
        Some(fault) => (keeper, Err(fault)),
        None if placed => (keeper, Ok(())),
        None => (keeper, Err(Fault::Place)),
    }
}

/// Consumers join and leave, and then all stop.
fn keep_and_join<R: Threads + Sync>(
    rt: &R,
    alloc: Global,
    log: &Log,
    mut keeper: Keeper,
    progress: &Progress,
) -> Outcome
    requires { IsOf log.now keeper.held }
{
    let mut joined: u32 = 0;
    for _ in 0..PAIRS {
        let (back, left) = join_and_leave(rt, alloc, log, keeper, progress);
        keeper = back;
        if let Err(fault) = left {
            progress.stop();
            return Err(fault);
        }
        joined = joined.wrapping_add(2);
    }
    progress.stop();
    Ok(joined)
}

fn work<R: Threads + Sync>(
    rt: &R,
    alloc: Global,
    log: &Log,
    party: Party,
    progress: &Progress,
) -> Outcome
    requires { IsParty log.now party }
{
    match party {
        Party::Publishing(mut publisher) => publish(log, &mut publisher, progress),
        Party::Reading(mut messages) => read_all(log, &mut messages, progress),
        Party::Keeping(keeper) => keep_and_join(rt, alloc, log, keeper, progress),
    }
}

/// All parties, each in a thread of its own.
fn work_all<R: Threads + Sync>(
    rt: &R,
    alloc: Global,
    log: &Log,
    parties: Vec<Party>,
) -> Result<Vec<Outcome>, AllocError>
    requires { AllByRecursion (IsParty log.now) parties.items }
{
    let progress = Progress::new();
    let all = &progress;
    thread::map_vec(
        rt,
        parties,
        &|party: Party|
            requires { IsParty log.now party }
        { work(rt, alloc, log, party, all) },
    )
}

/// A hundred consumers join and leave while all others go on. Each finds message behind message from where it joined on, and
/// each publisher's one after another; and two readers, which stay, find all messages.
#[test]
fn join_and_leave_among_threads(rt: HostRuntime) -> Result<(), Fail> {
    let (log, parties) = open_streams(rt.alloc())?;
    let outcomes = work_all(&rt, rt.alloc(), &log, parties)?;
    let mut numbers = Vec::new(rt.alloc());
    for outcome in outcomes {
        match outcome {
            Ok(number) => numbers.push(number)?,
            Err(fault) => panic!(rt; "{fault:?}"),
        }
    }
    let published = numbers
        .iter()
        .take(PUBLISHERS)
        .fold(0u32, |sum, number| sum.wrapping_add(*number));
    let others = [2 * PAIRS, published, published];
    assert!(rt; numbers.get(PUBLISHERS..) == Some(others.as_slice()));
    Ok(())
}
