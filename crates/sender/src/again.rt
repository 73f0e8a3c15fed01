//! Frames of a stream that go out again.

ghost use Rattle.std.specs.Prelude.{◌≡◌, length, Some};
ghost use Rattle.sender.specs.Giving.{CanSendAgain, SendsAgain};

use crate::packing::Packing;
use crate::stream_frame::frame_end;
use block::Block;
use frame_source::FrameSource;
use frames::Outbox;
use position::{Gap, Identity};

/// How many datagrams go out again in a cycle at the most.
const RESENT_DATAGRAMS: usize = 15;

/// Gives out the frames that start in the range, up to the first that has no place in 15 datagrams.
pub fn send_again<L, R: FrameSource<L>>(
    reads: &mut R,
    log: &mut L,
    identity: &Identity,
    block: &mut Block,
    range: Gap,
    outbox: &mut Outbox,
)
    requires stands { R.stands reads.old log.old }
    requires can { CanSendAgain identity.now (R.source reads.old log.old) (record { start = range.start; length = range.length }) block.old outbox.old }
    ensures sends { SendsAgain identity.now (R.source reads.old log.old).frames (Some (record { start = range.start; length = range.length })) outbox.old outbox.new }
    ensures stays { R.source reads.new log.new ≡ R.source reads.old log.old }
    ensures stands { R.stands reads.new log.new }
    ensures leaves { R.leaves reads.old log.old reads.new log.new }
    ensures same_length { length block.new ≡ length block.old }
{
    let mut packing = Packing::new(RESENT_DATAGRAMS);
    let mut at = range.start;
    while at - range.start < range.length {
        let head = reads.reread(log, at, block);
        if !packing.put(identity, &head, block, outbox) {
            return;
        }
        at = frame_end(identity, &head);
    }
}
