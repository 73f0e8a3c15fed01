//! A publisher that stalls between the two halves of a claim, while terms turn.

ghost use Rattle.std.specs.Prelude.{◌≡◌, IfOk};
ghost use Rattle.claims_tests.specs.Passes.{IsPart};
ghost use Rattle.claims_tests.specs.OtherPasses.{AreOtherPasses, IsFollower};

use crate::other_passes::{Follower, OtherPasses};
use crate::stalled::{LONGEST, close_passes, open_passes};
use claims::{Armed, Claimant, arm, offer};
use publication::Refusal;
use shared_log::{Book, Log, clean_and_limit};
use std::alloc::Global;
use std::process::Abort;
use std::test::*;

/// Offers a message of 992 bytes.
pub(crate) fn offer_one(log: &Log, claimant: &mut Claimant) -> Result<u64, Refusal>
    requires { IsPart log.now 120 claimant.old }
    ensures { IsPart log.now 120 claimant.new }
{
    let most = log.identity().geometry().max_message() as usize;
    let message = [97; LONGEST];
    offer(log, claimant, &message[..most.min(LONGEST)])
}

/// The reader reads a message, if one is there, and the keeper follows.
pub(crate) fn follow(log: &Log, follower: &mut Follower)
    requires { IsFollower log.now follower.old }
    ensures { IsFollower log.now follower.new }
{
    let _ = follower.messages.next(log);
    clean_and_limit(log, &mut follower.keeper);
}

/// Fills a term, and turns to the next one.
fn fill<R: Abort>(rt: &R, log: &Log, others: &mut OtherPasses, term: u64)
    requires { AreOtherPasses log.now others.old }
    ensures { AreOtherPasses log.now others.new }
{
    for count in 1..=64_u64 {
        let answer = offer_one(log, &mut others.one);
        follow(log, &mut others.follower);
        let end = term.wrapping_mul(65_536).wrapping_add(1024 * count);
        assert!(rt; answer == Ok(end));
    }
    assert!(rt; offer_one(log, &mut others.one) == Err(Refusal::AdminAction));
}

/// Fills so many terms, and turns from each to the next.
fn fill_all<R: Abort>(rt: &R, log: &Log, others: &mut OtherPasses, terms: u64)
    requires { AreOtherPasses log.now others.old }
    ensures { AreOtherPasses log.now others.new }
{
    for term in 0..terms {
        fill(rt, log, others, term);
    }
}

/// Adds what was armed for, and commits it. The answer is the position behind it.
pub(crate) fn add_late(log: &Log, armed: Armed) -> (Claimant, Result<u64, Refusal>)
    requires { IsPart log.now 176 armed.publisher }
    ensures { IsPart log.now 176 result.0 }
{
    match armed.add(log) {
        Ok(claim) => {
            let (claimant, end) = claim.commit(log);
            (claimant, Ok(end))
        }
        Err(denied) => (denied.claimant, Err(denied.refusal)),
    }
}

/// Arms for a message of 100 bytes.
pub(crate) fn arm_early(log: &Log, claimant: Claimant) -> Result<Armed, Fail>
    requires { IsPart log.now 176 claimant }
    ensures { IfOk result (λ a. IsPart log.now 176 a.publisher) }
{
    let most = log.identity().geometry().max_payload();
    match arm(log, claimant, most.min(100)) {
        Ok(armed) => Ok(armed),
        Err(_) => Err("no room".into()),
    }
}

/// The active count, and the raw tails of the three partitions.
fn count_and_tails(log: &mut Log) -> [u64; 4]
    ensures { log.new ≡ log.old }
{
    let control = 3 * (log.identity().geometry().term_length() as usize / 32);
    [
        log.peek(control + 1),
        log.peek(control + 2),
        log.peek(control + 3),
        log.peek(control + 4),
    ]
}

/// How many terms others fill, and what comes of a publisher that stalled meanwhile.
struct Row {
    terms: u64,
    answer: Result<u64, Refusal>,
    /// The active count and the raw tails then.
    words: [u64; 4],
    book: Book,
}

const ROWS: [Row; 2] = [
    // Its term is used up: no padding, since others had passed its end.
    Row {
        terms: 1,
        answer: Err(Refusal::AdminAction),
        words: [1, 0x7_0001_00a0, 0x8_0000_0000, 0x6_0000_0000],
        book: Book {
            start: 0,
            tail: 65_536,
            shares: [0, 65_536, 0, 0, 0, 0, 0, 0],
        },
    },
    // Its partition has a later term, three terms on.
    Row {
        terms: 3,
        answer: Ok(196_768),
        words: [3, 0xa_0000_00a0, 0x8_0001_0000, 0x9_0001_0000],
        book: Book {
            start: 0,
            tail: 196_768,
            shares: [160, 196_608, 0, 0, 0, 0, 0, 0],
        },
    },
];

/// Lets others fill terms between the halves of a claim.
fn stall<R: Abort>(rt: &R, alloc: Global, row: &Row) -> Result<(), Fail> {
    let (mut log, claimant, mut others) = open_passes(alloc)?;
    let armed = arm_early(&log, claimant)?;
    fill_all(rt, &log, &mut others, row.terms);
    let (claimant, answer) = add_late(&log, armed);
    assert!(rt; answer == row.answer);
    let words = count_and_tails(&mut log);
    assert!(rt; words == row.words);
    let book = close_passes(alloc, log, claimant, others)?;
    assert!(rt; book == row.book);
    Ok(())
}

#[test]
fn stalled(rt: HostRuntime) -> Result<(), Fail> {
    for row in &ROWS {
        stall(&rt, rt.alloc(), row)?;
    }
    Ok(())
}
