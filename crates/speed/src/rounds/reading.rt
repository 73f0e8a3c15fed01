//! What follows the publishers: a reader, and the keeper behind it.

ghost use Rattle.std.specs.Prelude.{◌≡◌, ◌+◌, ◌≤◌, length, unwrap_or};
ghost use Rattle.shared_log.specs.Readers.{IsReaderOf};
ghost use Rattle.speed.specs.Rounds.{IsKept, read_by};

use block::Block;
use position::FrameKind;
use shared_log::{Keeper, Log, LogReader, advance, clean_and_limit, next};
use std::thread;

/// Reads the frame where the reader stands, and goes behind it. The answer is 1 for a message and 0 for a padding, if
/// there is one.
fn read_frame(log: &Log, reader: &mut LogReader, block: &mut Block) -> Option<u64>
    requires fits { IsReaderOf log.now reader.old }
    requires room { log.now.identity.geometry.mtu ≤ length block.old }
    ensures fits { IsReaderOf log.now reader.new }
    ensures counted { read_by reader.new ≡ read_by reader.old + unwrap_or result 0 }
    ensures one { unwrap_or result 0 ≤ 1 }
    ensures same_length { length block.new ≡ length block.old }
{
    let head = next(log, reader, block)?;
    advance(log, reader);
    match head.kind {
        FrameKind::Data => Some(1),
        FrameKind::Pad => Some(0),
    }
}

/// Lets the keeper clean and raise the limit.
fn keep(log: &Log, keeper: &mut Keeper)
    requires { IsKept log.now keeper.old }
    ensures { IsKept log.now keeper.new }
{
    clean_and_limit(log, keeper);
}

/// Reads until it has read so many messages, or has tried 2^32 - 1 times, and counts them. The keeper follows each 64th of a
/// term.
pub(crate) fn follow(
    log: &Log,
    reader: &mut LogReader,
    keeper: &mut Keeper,
    block: &mut Block,
    wanted: u64,
) -> u64
    requires fits { IsReaderOf log.now reader.old }
    requires keeper { IsKept log.now keeper.old }
    requires room { log.now.identity.geometry.mtu ≤ length block.old }
    ensures counted { read_by reader.new ≡ read_by reader.old + result }
    ensures low { result ≤ wanted }
    ensures keeper { IsKept log.now keeper.new }
{
    let step = u64::from(log.identity().geometry().term_length()) / 64;
    let mut read: u64 = 0;
    let mut kept: u64 = 0;
    for _ in 0..u32::MAX {
        if read >= wanted {
            break;
        }
        match read_frame(log, reader, block) {
            None => thread::yield_now(),
            Some(count) => {
                read += count;
                let position = reader.position();
                if position.saturating_sub(kept) >= step {
                    keep(log, keeper);
                    kept = position;
                }
            }
        }
    }
    read
}
