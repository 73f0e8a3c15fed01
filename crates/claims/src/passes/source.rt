//! A reader with its log, as a source of frames.

ghost use Rattle.std.specs.Prelude.{◌≡◌, ◌<◌, ⊤, refl, suc};
ghost use Rattle.std.specs.Arc.{arc_value};
ghost use Rattle.shared_log.specs.Readers.{misses_of};
ghost use Rattle.shared_log.specs.Sourced.{Grows, StaysOn, frames_stay, grows_on, source_of, stays_on};

use crate::passes::reading::ReaderPass;
use block::Block;
use frame_source::FrameSource;
use position::FrameHead;
use shared_log::{advance, next, reread};

impl<L> FrameSource<L> for ReaderPass {
    ghost source = { λ s l. source_of (arc_value s.log) s.reader };

    ghost grown = { Grows };

    ghost stands = { λ s l. ⊤ };

    ghost has_read = { λ s l. s.reader.position < s.reader.read_to };

    ghost leaves = { λ s l t m. StaysOn (arc_value s.log) s.reader (arc_value t.log) t.reader × (m ≡ l) };

    // The word where the reader stands was loaded once more, and found zero.
    ghost looked = { λ s t. misses_of t.reader ≡ suc (misses_of s.reader) };

    fn next(&mut self, log: &mut L, block: &mut Block) -> Option<FrameHead> {
        let log = &*self.log;
        self.is_new = false;
        next(log, &mut self.reader, block)
    }

    fn advance(&mut self, log: &mut L) -> u64 {
        let log = &*self.log;
        let _shape = log.identity().geometry();
        self.is_new = false;
        advance(log, &mut self.reader)
    }

    fn reread(&mut self, log: &mut L, position: u64, block: &mut Block) -> FrameHead {
        let log = &*self.log;
        self.is_new = false;
        reread(log, &mut self.reader, position, block)
    }

    ghost grown_same = { λ frames f among. among };

    ghost grown_on = { grows_on };

    ghost grown_keeps = { λ a b h. h };

    ghost leaves_same = { λ s l h. (frames_stay (arc_value s.log) s.reader, refl) };

    ghost leaves_on = { λ s l t m u n h k. stays_on (arc_value s.log) s.reader (arc_value t.log) t.reader (arc_value u.log) u.reader l m n h k };
}
