//! A log that opens, and one that ends.

ghost use Rattle.std.specs.Prelude.{◌≡◌, [], IfOk};
ghost use Rattle.std.specs.List.{AllByRecursion};
ghost use Rattle.shared_log.specs.Steps.Handles.{IsOf, parts_in};
ghost use Rattle.log_rule.specs.Claims.Sums.{total};
ghost use Rattle.shared_log.specs.Handles.{AreNew};
ghost use Rattle.shared_log.specs.Readers.{known_of};
ghost use Rattle.claims_tests.specs.Passes.{IsPart};
ghost use Rattle.claims_tests.specs.OtherPasses.{AreOtherPasses, IsFollower};

use crate::other_passes::{Follower, OtherPasses};
use claims::{Claimant, Parts, close, open};
use log_messages::LogMessages;
use position::Geometry;
use shared_log::{Book, Log, LogReader, clean_and_limit, set_connected};
use std::alloc::{AllocError, Global};
use std::test::Fail;

/// The longest message.
pub(crate) const LONGEST: usize = 992;

/// The first publisher, and those that go on.
fn set_apart(claimants: [Claimant; 8], follower: Follower, log: &Log) -> (Claimant, OtherPasses)
    requires claimants { AreNew log.now 0 claimants }
    requires follower { IsFollower log.now follower }
    ensures first { IsPart log.now 176 result.0 }
    ensures others { AreOtherPasses log.now result.1 }
{
    let [zero, one, two, three, four, five, six, seven] = claimants;
    let others = OtherPasses {
        one,
        two,
        three,
        idle: [four, five, six, seven],
        follower,
    };
    (zero, others)
}

/// The messages of a reader that has read nothing.
fn messages_of(alloc: Global, reader: LogReader) -> Result<LogMessages, AllocError>
    requires { known_of reader ≡ [] }
    ensures { IfOk result (λ messages. messages.reader ≡ reader) }
{
    match LogMessages::new(alloc, reader, LONGEST) {
        Ok(messages) => Ok(messages),
        Err(_) => Err(AllocError),
    }
}

/// A log with short terms, connected, its first publisher, and all others with its reader and its keeper.
#[tactic(auto, using(crate::proofs::Unread::new_unread))]
pub(crate) fn open_passes(alloc: Global) -> Result<(Log, Claimant, OtherPasses), Fail>
    ensures { IfOk result (λ r. IsPart r.0 176 r.1 × AreOtherPasses r.0 r.2) }
{
    let geometry = Geometry::new(65_536, 1408, 7)?;
    let (log, parts) = open(alloc, geometry, 1, 1001, 0, 1)?;
    let Parts {
        claimants,
        mut readers,
        mut keeper,
    } = parts;
    set_connected(&log, &mut keeper, true);
    clean_and_limit(&log, &mut keeper);
    let follower = Follower {
        messages: messages_of(alloc, readers.remove(0))?,
        keeper,
    };
    let (stalled, others) = set_apart(claimants, follower, &log);
    Ok((log, stalled, others))
}

/// All claimants, by their numbers.
fn claimants_of(
    log: &Log,
    stalled: Claimant,
    one: Claimant,
    two: Claimant,
    three: Claimant,
    idle: [Claimant; 4],
) -> [Claimant; 8]
    requires stalled { IsPart log.now 176 stalled }
    requires one { IsPart log.now 120 one }
    requires two { IsPart log.now 120 two }
    requires three { IsPart log.now 120 three }
    requires idle { AllByRecursion (IsPart log.now 120) idle }
    ensures of { AllByRecursion (IsOf log.now) result }
    ensures parts { total parts_in result ≡ 1016 }
{
    // What always holds of it, for the proof.
    let _ = log.start();
    let [four, five, six, seven] = idle;
    [stalled, one, two, three, four, five, six, seven]
}

/// Closes a log with all its passes.
pub(crate) fn close_passes(
    alloc: Global,
    log: Log,
    stalled: Claimant,
    others: OtherPasses,
) -> Result<Book, AllocError>
    requires stalled { IsPart log 176 stalled }
    requires others { AreOtherPasses log others }
{
    let OtherPasses {
        one,
        two,
        three,
        idle,
        follower,
    } = others;
    let claimants = claimants_of(&log, stalled, one, two, three, idle);
    let claimants = Vec::from_array(alloc, claimants)?;
    let memory = Vec::with_capacity(alloc, 8)?;
    Ok(close(log, claimants, Vec::new(alloc), follower.keeper, memory))
}
