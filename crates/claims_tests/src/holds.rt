//! A publisher that is held between the halves of a claim, in a thread of its own, holds nobody up.

ghost use Rattle.shared_log.specs.Readers.{IsReaderOf};
ghost use Rattle.claims_tests.specs.Passes.{IsKeeping, IsPart};
ghost use Rattle.claims_tests.specs.OtherPasses.{AreFour, IsFollower};

use crate::other_passes::{Follower, Four, OtherPasses};
use crate::stalled::{close_passes, open_passes};
use crate::stalls::{add_late, offer_one};
use claims::{Claimant, arm};
use log_messages::LogMessages;
use publication::Refusal;
use shared_log::{Book, Keeper, Log, clean_and_limit};
use std::alloc::Global;
use std::sync::atomic::{AtomicU64, Ordering};
use std::test::*;
use std::thread::{Threads, join, yield_now};

/// How many messages each of the others publishes: as many as fill a term.
const MESSAGES: u32 = 64;

/// How often a thread tries, at the most.
const TRIES: u32 = 100_000_000;

/// How often the one who is held looks whether it may go on.
const PATIENCE: u32 = 20_000_000;

/// Who goes on beside the one who is held.
#[derive(Clone, Copy, Debug, PartialEq, Eq)]
enum Role {
    /// The publisher with this number: it goes on by an offer that is accepted.
    Publisher(u64),
    /// By a message that it reads.
    Reader,
    /// By a call that has ended.
    Keeper,
}

const ROLES: [Role; 5] = [
    Role::Publisher(1),
    Role::Publisher(2),
    Role::Publisher(3),
    Role::Reader,
    Role::Keeper,
];

/// Holds a publisher that has armed until another party has gone on twice since then.
#[derive(Drop)]
struct Hold {
    awaited: Role,
    /// Whether it has armed, or can't.
    looked: AtomicU64,
    /// How often the awaited one has gone on since.
    steps: AtomicU64,
    /// Whether the one who was held could go on.
    went_on: AtomicU64,
    /// How many publishers are through.
    over: AtomicU64,
}

impl Hold {
    fn new(awaited: Role) -> Hold {
        Hold {
            awaited,
            looked: AtomicU64::new(0),
            steps: AtomicU64::new(0),
            went_on: AtomicU64::new(0),
            over: AtomicU64::new(0),
        }
    }

    /// The publisher has armed, and goes on once the awaited party has gone on twice.
    fn hold(&self) {
        self.looked.store(1, Ordering::SeqCst);
        for _ in 0..PATIENCE {
            if self.steps.load(Ordering::SeqCst) >= 2 {
                self.went_on.store(1, Ordering::SeqCst);
                return;
            }
            yield_now();
        }
    }

    /// Waits until the publisher has armed.
    fn wait(&self) {
        for _ in 0..TRIES {
            if self.looked.load(Ordering::SeqCst) > 0 {
                return;
            }
            yield_now();
        }
    }

    fn step(&self, role: Role) {
        if role == self.awaited {
            self.steps.fetch_add(1, Ordering::SeqCst);
        }
    }

    /// A publisher is through.
    fn end(&self) {
        self.looked.store(1, Ordering::SeqCst);
        self.over.fetch_add(1, Ordering::SeqCst);
    }

    /// Whether all four are.
    fn is_over(&self) -> bool {
        self.over.load(Ordering::SeqCst) >= 4
    }
}

/// Arms for a message of 100 bytes, is held, and then adds and commits. The answer is the position behind it.
fn claim_held(log: &Log, claimant: Claimant, hold: &Hold) -> (Claimant, Result<u64, Refusal>)
    requires { IsPart log.now 176 claimant }
    ensures { IsPart log.now 176 result.0 }
{
    let most = log.identity().geometry().max_payload();
    let left = match arm(log, claimant, most.min(100)) {
        Ok(armed) => {
            hold.hold();
            add_late(log, armed)
        }
        Err(denied) => (denied.claimant, Err(denied.refusal)),
    };
    hold.end();
    left
}

/// Publishes all messages of a publisher while the other is held, and on. The number is that of the accepted ones.
fn publish(log: &Log, mut claimant: Claimant, role: Role, hold: &Hold) -> (Claimant, u32)
    requires { IsPart log.now 120 claimant }
    ensures { IsPart log.now 120 result.0 }
{
    hold.wait();
    let mut accepted: u32 = 0;
    for _ in 0..TRIES {
        if accepted >= MESSAGES {
            break;
        }
        match offer_one(log, &mut claimant) {
            Ok(_) => {
                accepted = accepted.wrapping_add(1);
                hold.step(role);
            }
            Err(_) => yield_now(),
        }
    }
    hold.end();
    (claimant, accepted)
}

/// Reads until all publishers are through and no message is left. The number is that of the messages.
fn read(log: &Log, mut messages: LogMessages, hold: &Hold) -> (LogMessages, u32)
    requires { IsReaderOf log.now messages.reader }
    ensures { IsReaderOf log.now result.0.reader }
{
    let mut count: u32 = 0;
    for _ in 0..TRIES {
        let over = hold.is_over();
        match messages.next(log) {
            Ok(Some(_)) => {
                count = count.wrapping_add(1);
                hold.step(Role::Reader);
            }
            Ok(None) if over => break,
            Ok(None) => yield_now(),
            // It isn't counted.
            Err(_) => {}
        }
    }
    (messages, count)
}

/// Cleans and raises the limit until all publishers are through.
fn keep(log: &Log, mut keeper: Keeper, hold: &Hold) -> Keeper
    requires { IsKeeping log.now keeper }
    ensures { IsKeeping log.now result }
{
    for _ in 0..TRIES {
        clean_and_limit(log, &mut keeper);
        hold.step(Role::Keeper);
        if hold.is_over() {
            break;
        }
        yield_now();
    }
    keeper
}

/// Reader and keeper follow, each in a thread of its own. The number is that of the messages that were read.
fn follow<R: Threads>(rt: &R, log: &Log, follower: Follower, hold: &Hold) -> (Follower, u32)
    requires { IsFollower log.now follower }
    ensures { IsFollower log.now result.0 }
{
    let Follower { messages, keeper } = follower;
    let ((messages, count), keeper) = join(
        rt,
        || -> (LogMessages, u32)
            requires { IsReaderOf log.now messages.reader }
            ensures { IsReaderOf log.entry.now result.0.reader }
        { read(log, messages, hold) },
        || -> Keeper
            requires { IsKeeping log.now keeper }
            ensures { IsKeeping log.entry.now result }
        { keep(log, keeper, hold) },
    );
    (Follower { messages, keeper }, count)
}

/// The publisher that is held and another one, each in a thread of its own.
fn publish_held<R: Threads>(
    rt: &R,
    log: &Log,
    first: Claimant,
    one: Claimant,
    hold: &Hold,
) -> ((Claimant, Result<u64, Refusal>), (Claimant, u32))
    requires first { IsPart log.now 176 first }
    requires one { IsPart log.now 120 one }
    ensures first { IsPart log.now 176 result.0.0 }
    ensures one { IsPart log.now 120 result.1.0 }
{
    join(
        rt,
        || -> (Claimant, Result<u64, Refusal>)
            requires { IsPart log.now 176 first }
            ensures { IsPart log.entry.now 176 result.0 }
        { claim_held(log, first, hold) },
        || -> (Claimant, u32)
            requires { IsPart log.now 120 one }
            ensures { IsPart log.entry.now 120 result.0 }
        { publish(log, one, Role::Publisher(1), hold) },
    )
}

/// Two more publishers, each in a thread of its own.
fn publish_both<R: Threads>(
    rt: &R,
    log: &Log,
    two: Claimant,
    three: Claimant,
    hold: &Hold,
) -> ((Claimant, u32), (Claimant, u32))
    requires two { IsPart log.now 120 two }
    requires three { IsPart log.now 120 three }
    ensures two { IsPart log.now 120 result.0.0 }
    ensures three { IsPart log.now 120 result.1.0 }
{
    join(
        rt,
        || -> (Claimant, u32)
            requires { IsPart log.now 120 two }
            ensures { IsPart log.entry.now 120 result.0 }
        { publish(log, two, Role::Publisher(2), hold) },
        || -> (Claimant, u32)
            requires { IsPart log.now 120 three }
            ensures { IsPart log.entry.now 120 result.0 }
        { publish(log, three, Role::Publisher(3), hold) },
    )
}

/// What the publisher that was held was answered, and how many messages of each other were accepted.
#[derive(Clone, Copy)]
struct Answers {
    held: Result<u64, Refusal>,
    accepted: [u32; 3],
}

/// All four publishers, each in a thread of its own.
fn publish_all<R: Threads + Sync>(rt: &R, log: &Log, four: Four, hold: &Hold) -> (Four, Answers)
    requires { AreFour log.now four }
    ensures { AreFour log.now result.0 }
{
    let Four {
        first,
        one,
        two,
        three,
    } = four;
    let (held, both) = join(
        rt,
        || -> ((Claimant, Result<u64, Refusal>), (Claimant, u32))
            requires { IsPart log.now 176 first × IsPart log.now 120 one }
            ensures { IsPart log.entry.now 176 result.0.0 × IsPart log.entry.now 120 result.1.0 }
        { publish_held(rt, log, first, one, hold) },
        || -> ((Claimant, u32), (Claimant, u32))
            requires { IsPart log.now 120 two × IsPart log.now 120 three }
            ensures { IsPart log.entry.now 120 result.0.0 × IsPart log.entry.now 120 result.1.0 }
        { publish_both(rt, log, two, three, hold) },
    );
    let ((first, answer), (one, by_one)) = held;
    let ((two, by_two), (three, by_three)) = both;
    let four = Four {
        first,
        one,
        two,
        three,
    };
    let answers = Answers {
        held: answer,
        accepted: [by_one, by_two, by_three],
    };
    (four, answers)
}

/// All of them, with the reader and the keeper behind them. The number is that of the messages that were read.
fn run_held<R: Threads + Sync>(
    rt: &R,
    log: &Log,
    four: Four,
    follower: Follower,
    hold: &Hold,
) -> (Four, Follower, Answers, u32)
    requires four { AreFour log.now four }
    requires follower { IsFollower log.now follower }
    ensures four { AreFour log.now result.0 }
    ensures follower { IsFollower log.now result.1 }
{
    let ((four, answers), (follower, messages)) = join(
        rt,
        || -> (Four, Answers)
            requires { AreFour log.now four }
            ensures { AreFour log.entry.now result.0 }
        { publish_all(rt, log, four, hold) },
        || -> (Follower, u32)
            requires { IsFollower log.now follower }
            ensures { IsFollower log.entry.now result.0 }
        { follow(rt, log, follower, hold) },
    );
    (four, follower, answers, messages)
}

/// What is left of a log, and of the threads that had a part of it.
#[derive(Drop)]
struct Left {
    book: Book,
    answers: Answers,
    messages: u32,
    went_on: bool,
}

/// A publisher is held until a party has gone on twice, and then all end.
fn hold_until<R: Threads + Sync>(rt: &R, alloc: Global, awaited: Role) -> Result<Left, Fail> {
    let (log, first, others) = open_passes(alloc)?;
    let OtherPasses {
        one,
        two,
        three,
        idle,
        follower,
    } = others;
    let four = Four {
        first,
        one,
        two,
        three,
    };
    let hold = Hold::new(awaited);
    let (four, follower, answers, messages) = run_held(rt, &log, four, follower, &hold);
    let Four {
        first,
        one,
        two,
        three,
    } = four;
    let others = OtherPasses {
        one,
        two,
        three,
        idle,
        follower,
    };
    Ok(Left {
        book: close_passes(alloc, log, first, others)?,
        answers,
        messages,
        went_on: hold.went_on.load(Ordering::SeqCst) > 0,
    })
}

/// Whether the book has these publishers' messages: of the one that was held its claim, or nothing where its term was full;
/// of each other what fills a term, and besides at most two paddings of less than a message.
fn is_fair(book: &Book, claimed: bool) -> bool {
    let [first, one, two, three, ..] = book.shares;
    let all = book
        .shares
        .iter()
        .fold(0u64, |sum, share| sum.wrapping_add(*share));
    let fair = |share: u64| (65_536..65_536 + 2048).contains(&share);
    all == book.tail
        && first == if claimed { 160 } else { 0 }
        && fair(one)
        && fair(two)
        && fair(three)
}

/// Whatever party is awaited, it goes on while a publisher is held between the halves of its claim; then that adds and
/// commits, or finds its term full, and all messages were accepted and read.
#[test]
fn each_goes_on(rt: HostRuntime) -> Result<(), Fail> {
    for awaited in ROLES {
        let left = hold_until(&rt, rt.alloc(), awaited)?;
        let claimed = left.answers.held.is_ok();
        assert!(rt; left.went_on, "{awaited:?}");
        assert!(rt;
            claimed || left.answers.held == Err(Refusal::AdminAction),
            "{awaited:?}"
        );
        assert!(rt; left.answers.accepted == [MESSAGES; 3], "{awaited:?}");
        assert!(rt;
            left.messages == 3 * MESSAGES + u32::from(claimed),
            "{awaited:?}"
        );
        assert!(rt; is_fair(&left.book, claimed), "{awaited:?}");
    }
    Ok(())
}
