//! A publisher that stalls, while others publish in threads of their own.

ghost use Rattle.claims_tests.specs.Passes.{IsPart};
ghost use Rattle.claims_tests.specs.OtherPasses.{AreOtherPasses, IsFollower};

use crate::other_passes::{Follower, OtherPasses};
use crate::stalled::{close_passes, open_passes};
use crate::stalls::{add_late, arm_early, follow, offer_one};
use claims::Claimant;
use publication::Refusal;
use shared_log::{Book, Log};
use std::sync::atomic::{AtomicU64, Ordering};
use std::test::*;
use std::thread::{Threads, join, yield_now};

/// How many messages fill a term.
const MESSAGES: u32 = 64;

/// How often a thread tries, at the most.
const TRIES: u32 = 100_000_000;

/// Publishes as many messages as fill a term; refusals aren't counted. The number is that of the accepted ones.
fn publish(log: &Log, mut claimant: Claimant, over: &AtomicU64) -> (Claimant, u32)
    requires { IsPart log.now 120 claimant }
    ensures { IsPart log.now 120 result.0 }
{
    let mut accepted: u32 = 0;
    for _ in 0..TRIES {
        if accepted >= MESSAGES {
            break;
        }
        match offer_one(log, &mut claimant) {
            Ok(_) => accepted = accepted.wrapping_add(1),
            Err(_) => yield_now(),
        }
    }
    over.fetch_add(1, Ordering::SeqCst);
    (claimant, accepted)
}

/// Follows until three publishers are through.
fn follow_all(log: &Log, mut follower: Follower, over: &AtomicU64) -> Follower
    requires { IsFollower log.now follower }
    ensures { IsFollower log.now result }
{
    for _ in 0..TRIES {
        follow(log, &mut follower);
        if over.load(Ordering::SeqCst) >= 3 {
            break;
        }
        yield_now();
    }
    follower
}

/// Two publishers publish, each in a thread of its own.
fn publish_both<R: Threads>(
    rt: &R,
    log: &Log,
    one: Claimant,
    other: Claimant,
    over: &AtomicU64,
) -> ((Claimant, u32), (Claimant, u32))
    requires one { IsPart log.now 120 one }
    requires other { IsPart log.now 120 other }
    ensures one { IsPart log.now 120 result.0.0 }
    ensures other { IsPart log.now 120 result.1.0 }
{
    join(
        rt,
        || -> (Claimant, u32)
            requires { IsPart log.now 120 one }
            ensures { IsPart log.entry.now 120 result.0 }
        { publish(log, one, over) },
        || -> (Claimant, u32)
            requires { IsPart log.now 120 other }
            ensures { IsPart log.entry.now 120 result.0 }
        { publish(log, other, over) },
    )
}

/// A publisher publishes, and the reader and the keeper follow, in two threads.
fn publish_and_follow<R: Threads>(
    rt: &R,
    log: &Log,
    three: Claimant,
    follower: Follower,
    over: &AtomicU64,
) -> ((Claimant, u32), Follower)
    requires three { IsPart log.now 120 three }
    requires follower { IsFollower log.now follower }
    ensures three { IsPart log.now 120 result.0.0 }
    ensures follower { IsFollower log.now result.1 }
{
    join(
        rt,
        || -> (Claimant, u32)
            requires { IsPart log.now 120 three }
            ensures { IsPart log.entry.now 120 result.0 }
        { publish(log, three, over) },
        || -> Follower
            requires { IsFollower log.now follower }
            ensures { IsFollower log.entry.now result }
        { follow_all(log, follower, over) },
    )
}

/// The others, once three publishers have published, in threads of their own beside the one that follows; and how many
/// messages of each were accepted.
fn publish_all<R: Threads + Sync>(rt: &R, log: &Log, others: OtherPasses) -> (OtherPasses, [u32; 3])
    requires { AreOtherPasses log.now others }
    ensures { AreOtherPasses log.now result.0 }
{
    let over = AtomicU64::new(0);
    let all = &over;
    let OtherPasses {
        one,
        two,
        three,
        idle,
        follower,
    } = others;
    let (both, more) = join(
        rt,
        || -> ((Claimant, u32), (Claimant, u32))
            requires { IsPart log.now 120 one × IsPart log.now 120 two }
            ensures { IsPart log.entry.now 120 result.0.0 × IsPart log.entry.now 120 result.1.0 }
        { publish_both(rt, log, one, two, all) },
        || -> ((Claimant, u32), Follower)
            requires { IsPart log.now 120 three × IsFollower log.now follower }
            ensures { IsPart log.entry.now 120 result.0.0 × IsFollower log.entry.now result.1 }
        { publish_and_follow(rt, log, three, follower, all) },
    );
    let ((one, first), (two, second)) = both;
    let ((three, third), follower) = more;
    let others = OtherPasses {
        one,
        two,
        three,
        idle,
        follower,
    };
    (others, [first, second, third])
}

/// Three terms are filled meanwhile, and its partition has a later one.
#[test]
fn stalled_among_threads(rt: HostRuntime) -> Result<(), Fail> {
    let (log, claimant, others) = open_passes(rt.alloc())?;
    let armed = arm_early(&log, claimant)?;
    let (mut others, accepted) = publish_all(&rt, &log, others);
    assert!(rt; accepted == [MESSAGES; 3]);
    assert!(rt; offer_one(&log, &mut others.one) == Err(Refusal::AdminAction));
    let (claimant, answer) = add_late(&log, armed);
    assert!(rt; answer == Ok(196_768));
    let book = close_passes(rt.alloc(), log, claimant, others)?;
    let whole = Book {
        start: 0,
        tail: 196_768,
        shares: [160, 65_536, 65_536, 65_536, 0, 0, 0, 0],
    };
    assert!(rt; book == whole);
    Ok(())
}
