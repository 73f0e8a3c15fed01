//! A reader goes past a frame, by the pass that has all readers.

ghost use Rattle.std.specs.Prelude.{◌≡◌, ◌≤◌, length};
ghost use Rattle.one_hand.specs.Passings.{HasHere, Passed};
ghost use Rattle.one_hand.specs.Readers.{Reads};

use crate::log_hand::consumer::Consumer;
use block::Block;
use shared_log::{Log, Publisher, advance, next};

/// Moves a reader past the frame where it stands, which is read to the block's front. The answer is its new
/// position.
pub(crate) fn advance_as(
    log: &Log,
    all: Publisher,
    consumer: Consumer,
    block: &mut Block,
) -> (Publisher, u64)
    requires may { Reads log.now all consumer }
    requires room { log.now.identity.geometry.mtu ≤ length block.old }
    requires has { HasHere all consumer.position }
    ensures passed { Passed log.now all consumer block.old result.0 result.1 }
    ensures same_length { length block.new ≡ length block.old }
{
    let (owner, share) = (all.number(), all.share());
    let mut reader = all.into_reader(consumer.place, consumer.number, consumer.position);
    let Some(_) = next(log, &mut reader, block) else {
        unreachable!();
    };
    let end = advance(log, &mut reader);
    (reader.into_publisher(owner, share), end)
}
