//! Frames that follow each other, in as few datagrams as hold them.

ghost use Rattle.std.specs.Prelude.{◌≡◌, ◌≤◌, ◌↔◌, IsTrue, false, length};
ghost use Rattle.position.specs.Heads.{IsStreamFrame};
ghost use Rattle.sender.specs.Packed.{HasPacked, MayJoin, Puts, placed_in};

use crate::stream_frame::{frame_of, is_data, wire_size};
use block::Block;
use frames::Outbox;
use position::{FrameHead, Identity};

/// Puts frames into datagrams, up to a number of them.
#[derive(Drop)]
pub struct Packing {
    /// How many more may be begun.
    left: usize,
    /// Where the term of the last datagram's frames begins.
    term: u64,
    /// The last datagram's bytes.
    size: u32,
    /// Whether there is a last datagram and no padding ends it.
    takes_more: bool,
}

impl Packing {
    /// None begun yet, and so many to be begun at the most.
    pub fn new(most: usize) -> Packing
        ensures { result ≡ record { left = most; term = 0; size = 0; takes_more = false } }
    {
        Packing {
            left: most,
            term: 0,
            size: 0,
            takes_more: false,
        }
    }

    /// Puts the frame that was read behind the others: into the last datagram, where it fits there, or into one of its
    /// own. It has no place where no more datagrams may be begun; nothing has changed then.
    pub fn put(
        &mut self,
        identity: &Identity,
        head: &FrameHead,
        block: &Block,
        outbox: &mut Outbox,
    ) -> bool
        requires room { identity.now.geometry.mtu ≤ length block.now }
        requires head { IsStreamFrame identity.now.geometry head.now }
        requires packs { HasPacked identity.now self.old outbox.old }
        ensures { Puts identity.now self.old outbox.old (placed_in head.now block.now) result self.new outbox.new }
    {
        let geometry = identity.geometry();
        let frame = frame_of(identity, head, block);
        if self.fits(identity, head) {
            outbox.extend(&frame);
            self.size += wire_size(head);
            self.takes_more = is_data(head);
            return true;
        }
        if self.left == 0 {
            return false;
        }
        outbox.push(&frame);
        *self = Packing {
            left: self.left - 1,
            term: geometry.term_start(head.start),
            size: wire_size(head),
            takes_more: is_data(head),
        };
        true
    }

    /// Whether the frame fits into the last datagram.
    fn fits(&self, identity: &Identity, head: &FrameHead) -> bool
        requires head { IsStreamFrame identity.now.geometry head.now }
        requires small { self.now.size ≤ identity.now.geometry.mtu }
        ensures { IsTrue result ↔ MayJoin identity.now.geometry self.now head.now }
    {
        let geometry = identity.geometry();
        let size = self.size + wire_size(head);
        self.takes_more && self.term == geometry.term_start(head.start) && size <= geometry.mtu()
    }
}
