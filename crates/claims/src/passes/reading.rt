//! A reader with its log.

ghost use Rattle.std.specs.Prelude.{◌≡◌, [], true, false, IfErr, IfOk, length};
ghost use Rattle.std.specs.Arc.{arc_value};
ghost use Rattle.shared_log.specs.Readers.{IsReaderOf, known_of};

use position::FrameHead;
use shared_log::{Log, LogReader, Unread, advance, next_whole};
use std::alloc::Global;
use std::sync::Arc;

/// A reader and its share of the log.
#[derive(Drop)]
pub struct ReaderPass {
    pub log: Arc<Log, Global>,
    pub reader: LogReader,
    /// Whether it has found no frame yet, as one that was taken, or has joined.
    pub is_new: bool,
    ghost fits: { IsReaderOf (arc_value log) reader },
    ghost nothing: { is_new ≡ true → known_of reader ≡ [] },
}

impl ReaderPass {
    ghost use Rattle.claims.specs.Passes.Reading.{GoesOn, Reads, Unreads};

    /// Whatever the reader has found.
    pub fn new(log: Arc<Log, Global>, reader: LogReader) -> ReaderPass
        requires { IsReaderOf (arc_value log) reader }
        ensures log { arc_value result.log ≡ arc_value log }
        ensures reader { result.reader ≡ reader }
        ensures is_new { result.is_new ≡ false }
    {
        ReaderPass {
            log,
            reader,
            is_new: false,
        }
    }

    /// The reader has found nothing yet.
    pub fn begin(log: Arc<Log, Global>, reader: LogReader) -> ReaderPass
        requires fits { IsReaderOf (arc_value log) reader }
        requires nothing { known_of reader ≡ [] }
        ensures log { arc_value result.log ≡ arc_value log }
        ensures reader { result.reader ≡ reader }
        ensures is_new { result.is_new ≡ true }
    {
        ReaderPass {
            log,
            reader,
            is_new: true,
        }
    }

    /// Reads the frame where the reader stands, straight to the front of the room; the reader stays.
    pub fn next(&mut self, room: &mut [u8]) -> Result<FrameHead, Unread>
        ensures read { IfOk result (λ head. Reads self.old head room.old self.new room.new) }
        ensures unread { IfErr result (λ why. Unreads self.old why room.old self.new room.new) }
        ensures same_length { length room.new ≡ length room.old }
    {
        let log = &*self.log;
        let read = next_whole(log, &mut self.reader, room);
        match read {
            Err(Unread::None) => {}
            Ok(_) | Err(Unread::Longer(_)) => self.is_new = false,
        }
        read
    }

    /// Goes behind the frame that was read. Whether one was.
    pub fn advance(&mut self) -> bool
        ensures { GoesOn self.old result self.new }
    {
        if !self.reader.has_read() {
            return false;
        }
        let log = &*self.log;
        advance(log, &mut self.reader);
        self.is_new = false;
        true
    }
}
