//! Publishers that meet, and one that retires.

ghost use Rattle.std.specs.Prelude.{IfOk};
ghost use Rattle.shared_log.specs.Handles.{AreNew};
ghost use Rattle.log_tests.specs.Stays.{IsRested};

use crate::opening::open_ready;
use crate::rows::offer_letters;
use crate::walk::shown;
use position::Geometry;
use shared_log::{Log, Publisher, meet, retire};
use std::alloc::Global;
use std::test::*;
use std::thread::{Threads, join};

/// How many messages each publishes.
const MESSAGES: u64 = 100;

/// The first two of a log's publishers.
#[tactic(auto, using(crate::proofs::Each::new_rests))]
fn first_two(
    alloc: Global,
    log: &Log,
    publishers: [Publisher; 8],
) -> Result<(Publisher, Publisher), Fail>
    requires { AreNew log.now 0 publishers }
    ensures { IfOk result (λ r. IsRested log.now r.0 × IsRested log.now r.1) }
{
    let mut publishers = Vec::from_array(alloc, publishers)?;
    let first = publishers.remove(0);
    Ok((first, publishers.remove(0)))
}

/// Publishes messages of three letters.
#[tactic(auto, using(crate::proofs::Each::rests_on))]
fn publish(log: &Log, mut publisher: Publisher) -> Publisher
    requires { IsRested log.now publisher }
    ensures { IsRested log.now result }
{
    for _ in 0..MESSAGES {
        offer_letters(log, &mut publisher, 3);
    }
    publisher
}

/// Two publishers publish, each in a thread of its own.
fn publish_both<R: Threads>(
    rt: &R,
    log: &Log,
    one: Publisher,
    other: Publisher,
) -> (Publisher, Publisher)
    requires one { IsRested log.now one }
    requires other { IsRested log.now other }
    ensures one { IsRested log.now result.0 }
    ensures other { IsRested log.now result.1 }
{
    join(
        rt,
        || -> Publisher
            requires { IsRested log.now one }
            ensures { IsRested log.entry.now result }
        { publish(log, one) },
        || -> Publisher
            requires { IsRested log.now other }
            ensures { IsRested log.entry.now result }
        { publish(log, other) },
    )
}

/// Where they meet, they know where the stream ends, and what they claimed is all of it; and who retires leaves it all to the
/// other.
#[test]
#[tactic(auto, using(crate::proofs::Each::back_rests))]
fn two_meet(rt: HostRuntime) -> Result<(), Fail> {
    let geometry = Geometry::new(65_536, 1408, 7)?;
    let (mut log, publishers, _) = open_ready(rt.alloc(), geometry, 0)?;
    let (one, other) = first_two(rt.alloc(), &log, publishers)?;
    let (one, other) = publish_both(&rt, &log, one, other);
    let (one, other, tail) = meet(&log, one, other);
    assert!(rt; (one.number(), one.share()) == (0, 64 * MESSAGES));
    assert!(rt; (other.number(), other.share()) == (1, 64 * MESSAGES));
    let one = retire(&log, one, other);
    assert!(rt; (one.number(), one.share()) == (0, tail));
    let end = shown(&mut log);
    assert!(rt; tail == end);
    Ok(())
}
