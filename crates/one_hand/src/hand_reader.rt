//! A reader of a log in one hand, as a source of frames.

ghost use Rattle.std.specs.Prelude.{⊤, refl};
ghost use Rattle.one_hand.specs.HandReads.{AreSame, MovesReader, frames_keep, frames_on, reader_goes_on, reader_stays};
ghost use Rattle.one_hand.specs.Reads.{source_of};
ghost use Rattle.one_hand.specs.Stream.{HasConsumer};

use crate::log_hand::LogHand;
use block::Block;
use frame_source::{Alone, FrameSource};
use position::FrameHead;

/// A reader of a log that one hand holds, by its number. The log is lent to it at each call.
#[derive(Clone, Copy, Debug, PartialEq, Eq)]
pub struct HandReader {
    pub number: usize,
}

impl FrameSource<LogHand> for HandReader {
    ghost source = { λ r l. source_of l r.number };

    ghost grown = { AreSame };

    ghost stands = { λ r l. HasConsumer l r.number };

    ghost has_read = { λ r l. ⊤ };

    ghost leaves = { λ r l q m. MovesReader r.number l q.number m };

    fn next(&mut self, log: &mut LogHand, block: &mut Block) -> Option<FrameHead> {
        log.next(self.number, block)
    }

    fn advance(&mut self, log: &mut LogHand) -> u64 {
        log.advance(self.number)
    }

    fn reread(&mut self, log: &mut LogHand, position: u64, block: &mut Block) -> FrameHead {
        log.reread(self.number, position, block)
    }

    ghost grown_same = { λ frames. refl };

    ghost grown_on = { frames_on };

    ghost grown_keeps = { frames_keep };

    ghost leaves_same = { λ r l h. reader_stays r.number l h };

    ghost leaves_on = { λ r l q m p n h k. reader_goes_on r.number l q.number m p.number n h k };
}

impl Alone<LogHand> for HandReader {
    ghost exact = { λ old new same. same };
}
