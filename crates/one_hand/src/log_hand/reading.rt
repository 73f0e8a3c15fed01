//! The calls of one reader after another, by the pass that has all of them.

ghost use Rattle.std.specs.Prelude.{◌≡◌, ◌<◌, ◌≤◌, IfNone, IfSome, length};
ghost use Rattle.one_hand.specs.Readers.{Found, FoundNone, Reads, Reread, reader_of};
ghost use Rattle.shared_log.specs.Readers.{MayReread};

use crate::log_hand::consumer::Consumer;
use block::Block;
use position::FrameHead;
use shared_log::{Log, Publisher, next, reread};

/// Reads the frame where a reader stands.
pub(crate) fn next_as(
    log: &Log,
    all: Publisher,
    consumer: Consumer,
    block: &mut Block,
) -> (Publisher, Option<FrameHead>)
    requires may { Reads log.now all consumer }
    requires room { log.now.identity.geometry.mtu ≤ length block.old }
    ensures found { IfSome result.1 (λ head. Found log.now all consumer head block.old result.0 block.new) }
    ensures none { IfNone result.1 (FoundNone all consumer block.old result.0 block.new) }
    ensures same_length { length block.new ≡ length block.old }
{
    let (owner, share) = (all.number(), all.share());
    let mut reader = all.into_reader(consumer.place, consumer.number, consumer.position);
    let head = next(log, &mut reader, block);
    (reader.into_publisher(owner, share), head)
}

/// Reads a frame again for a reader.
pub(crate) fn reread_as(
    log: &Log,
    all: Publisher,
    consumer: Consumer,
    at: u64,
    block: &mut Block,
) -> (Publisher, FrameHead)
    requires may { Reads log.now all consumer }
    requires room { log.now.identity.geometry.mtu ≤ length block.old }
    requires has { MayReread log.now (reader_of all consumer) at }
    ensures again { Reread log.now all consumer at result.1 block.old result.0 block.new }
    ensures same_length { length block.new ≡ length block.old }
{
    let (owner, share) = (all.number(), all.share());
    let mut reader = all.into_reader(consumer.place, consumer.number, consumer.position);
    let head = reread(log, &mut reader, at, block);
    (reader.into_publisher(owner, share), head)
}
