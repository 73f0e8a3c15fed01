//! What follows the publishers of a log: a reader that takes samples, and the keeper behind it.

ghost use Rattle.std.specs.Prelude.{◌≡◌, ◌≤◌, IfOk, OnOk, vec_len};
ghost use Rattle.shared_log.specs.Parts.{IsNewReader};
ghost use Rattle.shared_log.specs.Steps.Handles.{IsOf, LogValue};
ghost use Rattle.run_parties.specs.Passes.{IsKept};
ghost use Rattle.run_parties.specs.RunLogs.{IsRunLog};
ghost use Rattle.latency.specs.Followers.{IsFollower};

use crate::fault::LatencyError;
use crate::publisher_threads::Offers;
use crate::samples::Samples;
use crate::stamps::stamp_in;
use block::Block;
use position::{BEGIN, END, FrameHead, FrameKind};
use shared_log::{Keeper, Log, LogReader, advance, clean_and_limit, next, set_connected};
use std::alloc::Global;
use std::sync::Wait;
use std::thread;
use std::time::Clock;

/// A reader and the keeper of a log.
#[derive(Drop)]
pub struct Follower {
    pub reader: LogReader,
    pub keeper: Keeper,
    pub block: Block,
    /// How far the reader goes until the keeper follows, in bytes, and where it stood when the keeper did.
    step: u64,
    kept: u64,
    /// The stamp of the message that has begun.
    stamp: u64,
}

/// Connects the log.
fn connect(log: &Log, keeper: &mut Keeper)
    requires { IsOf log.now keeper.old.held }
    ensures { IsOf log.now keeper.new.held }
{
    set_connected(log, keeper, true);
}

/// Lets the keeper clean and raise the limit.
fn clean(log: &Log, keeper: &mut Keeper)
    requires { IsOf log.now keeper.old.held }
    ensures { IsOf log.now keeper.new.held }
{
    clean_and_limit(log, keeper);
}

/// A reader and the keeper of a log that was just opened, which is connected then. It fails only where memory is refused.
#[tactic(auto, using(crate::proofs::NewReaders::is_reader))]
pub fn follower_of(
    alloc: Global,
    log: &Log,
    reader: LogReader,
    mut keeper: Keeper,
) -> Result<Follower, LatencyError>
    requires log { IsRunLog log.now }
    requires reader { IsNewReader log.now 0 reader }
    requires keeper { IsKept log.now keeper }
    ensures { IfOk result (λ f. IsFollower log.now f) }
{
    let geometry = log.identity().geometry();
    let block = Block::new(alloc, geometry.mtu() as usize)?;
    connect(log, &mut keeper);
    clean(log, &mut keeper);
    Ok(Follower {
        reader,
        keeper,
        block,
        step: u64::from(geometry.term_length()) / 64,
        kept: 0,
        stamp: 0,
    })
}

/// Lets the keeper follow, if the reader has gone a step since it did.
fn keep(log: &Log, follower: &mut Follower)
    requires { IsFollower log.now follower.old }
    ensures { IsFollower log.now follower.new }
{
    let position = follower.reader.position();
    if position.saturating_sub(follower.kept) >= follower.step {
        clean(log, &mut follower.keeper);
        follower.kept = position;
    }
}

/// Reads the frame where the reader stands, and goes behind it, if there is one.
fn read_frame(log: &Log, follower: &mut Follower) -> Option<FrameHead>
    requires { IsFollower log.now follower.old }
    ensures { IsFollower log.now follower.new }
{
    let head = next(log, &mut follower.reader, &mut follower.block)?;
    advance(log, &mut follower.reader);
    Some(head)
}

/// Takes notice of the frame that was read. The answer is the stamp of the message that it ends, if it ends one.
fn notice(follower: &mut Follower, head: &FrameHead) -> Option<u64>
    ensures { (l : LogValue) → IsFollower l follower.old → IsFollower l follower.new }
{
    if head.kind == FrameKind::Pad {
        return None;
    }
    if head.flags & BEGIN != 0 {
        follower.stamp = stamp_in(follower.block.bytes()).unwrap_or(0);
    }
    if head.flags & END == 0 {
        return None;
    }
    Some(follower.stamp)
}

/// Reads up to the end of a message. The answer is its stamp; there is none where all ends.
fn read_message<R: Wait>(offers: &Offers<'_, R>, follower: &mut Follower) -> Option<u64>
    requires { IsFollower offers.now.log.now follower.old }
    ensures { IsFollower offers.now.log.now follower.new }
{
    for _ in offers.rt.forever() {
        match read_frame(offers.log, follower) {
            Some(head) => {
                if let Some(stamp) = notice(follower, &head) {
                    return Some(stamp);
                }
            }
            None if offers.course.is_stopped() => return None,
            None => thread::yield_now(),
        }
    }
    unreachable!()
}

/// Reads so many messages, and takes a sample of each once it is whole; fewer where all ends before.
pub fn read_all<R: Wait + Clock>(
    offers: &Offers<'_, R>,
    wanted: u64,
    follower: &mut Follower,
    samples: &mut Samples,
) -> Result<(), LatencyError>
    requires follower { IsFollower offers.now.log.now follower.old }
    requires none { vec_len samples.old.taken ≡ 0 }
    ensures { OnOk result (vec_len samples.new.taken ≤ wanted) }
{
    for _ in 0..wanted {
        let Some(stamp) = read_message(offers, follower) else {
            break;
        };
        let now = offers.course.moment(offers.rt)?;
        samples.take(stamp, now)?;
        keep(offers.log, follower);
    }
    Ok(())
}
