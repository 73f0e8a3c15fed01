//! A reader of a log that threads share, as a source of frames.

ghost use Rattle.std.specs.Prelude.{◌≡◌, ◌<◌, refl, suc};
ghost use Rattle.shared_log.specs.Readers.{IsReaderOf, misses_of};
ghost use Rattle.shared_log.specs.Sourced.{Grows, StaysOn, frames_stay, grows_on, source_of, stays_on};

use crate::reader::LogReader;
use crate::steps::log::Log;
use block::Block;
use frame_source::FrameSource;
use position::FrameHead;

/// The committed frames of a log that threads share, as one of its readers gets them. Nothing is
/// lent to it at a call.
#[derive(Drop)]
pub struct LogFrames<'a> {
    pub log: &'a Log,
    pub reader: LogReader,
}

impl<'a, L> FrameSource<L> for LogFrames<'a> {
    ghost source = { λ s l. source_of s.log.now s.reader };

    ghost grown = { Grows };

    ghost stands = { λ s l. IsReaderOf s.log.now s.reader };

    ghost has_read = { λ s l. s.reader.position < s.reader.read_to };

    ghost leaves = { λ s l t m. StaysOn s.log.now s.reader t.log.now t.reader × (m ≡ l) };

    // The word where the reader stands was loaded once more, and found zero.
    ghost looked = { λ s t. misses_of t.reader ≡ suc (misses_of s.reader) };

    fn next(&mut self, log: &mut L, block: &mut Block) -> Option<FrameHead> {
        crate::reader::next(self.log, &mut self.reader, block)
    }

    fn advance(&mut self, log: &mut L) -> u64 {
        let log = self.log;
        let _ = log.identity();
        crate::reader::advance(log, &mut self.reader)
    }

    fn reread(&mut self, log: &mut L, position: u64, block: &mut Block) -> FrameHead {
        crate::reader::reread(self.log, &mut self.reader, position, block)
    }

    ghost grown_same = { λ frames f among. among };

    ghost grown_on = { grows_on };

    ghost grown_keeps = { λ a b h. h };

    ghost leaves_same = { λ s l h. (frames_stay s.log.now s.reader, refl) };

    ghost leaves_on = { λ s l t m u n h k. stays_on s.log.now s.reader t.log.now t.reader u.log.now u.reader l m n h k };
}
