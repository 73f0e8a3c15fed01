//! A reader of a log, and its steps.

ghost use Rattle.std.specs.Prelude.{◌≡◌, ◌+◌, ◌<◌, ◌≤◌, IfNone, IfSome, length};
ghost use Rattle.theory.specs.Position.{aligned};
ghost use Rattle.std.specs.Int.{w64, to_le_bytes};
ghost use Rattle.position.specs.Contents.{head_by};
ghost use Rattle.shared_log.specs.Steps.Readers.{CopiesHad, CopiesKnown, MayRereadAt, ReadsAgain, SameSeat, part_bytes};
ghost use Rattle.log_rule.specs.Readings.{Looks};
ghost use Rattle.shared_log.specs.Readers.{Advances, FindsPart, IsAlone, IsReaderOf, IsReading, MayReread, ReadsFrame, ReadsNone, Rereads, Rests, consumer_of};

pub(crate) mod learning;
pub(crate) mod source;
pub(crate) mod whole;

use crate::handle::Handle;
use crate::steps::log::Log;
use block::Block;
use log_memory::Consumer;
use position::{FrameHead, Identity, align32, head_in};
use std::marker::Model;

/// A reader of a log's committed frames, one of its consumers.
#[derive(Drop)]
pub struct LogReader {
    pub(crate) handle: Handle,
    /// The place of this consumer among those of its pass.
    pub(crate) place: u64,
    pub(crate) number: u64,
    pub(crate) position: u64,
    /// Where the frame ends that it has read here; its position, if it has read none.
    pub(crate) read_to: u64,
}

impl Model for LogReader {
    ghost use Rattle.shared_log.specs.Readers.{IsReader, ReaderValue};

    ghost Value = { ReaderValue };

    ghost view = { λ r. record {
      held = r.handle.pass;
      place = r.place;
      number = r.number;
      position = r.position;
      read_to = r.read_to;
    } };

    ghost invariant = { λ r. IsReader r.handle.pass r.handle.home r.handle.freed r.place r.number r.position r.read_to r.handle.identity r.handle.start };
}

impl LogReader {
    /// Its number among the log's consumers, 0 to 7.
    pub fn number(&self) -> u64
        ensures { result ≡ self.now.number }
    {
        self.number
    }

    /// Where it stands.
    pub fn position(&self) -> u64
        ensures { result ≡ self.now.position }
    {
        self.position
    }

    /// Which stream its log carries.
    pub fn identity(&self) -> Identity
        ensures { result ≡ self.now.held.pass.identity }
    {
        self.handle.identity
    }

    /// The position at which that begins.
    pub fn start(&self) -> u64
        ensures { result ≡ self.now.held.pass.start }
    {
        self.handle.start
    }

    /// The consumer that it is.
    #[inline(always)]
    fn consumer(&self) -> Consumer
        ensures { result ≡ record {
          place = self.now.place;
          number = self.now.number;
          position = self.now.position;
        } }
    {
        Consumer {
            place: self.place,
            number: self.number,
            position: self.position,
        }
    }
}

/// Finds the frame that is committed where the reader stands. Its payload is copied to the front of
/// the bytes, where it fits.
#[inline(always)]
pub(crate) fn look(log: &Log, reader: &mut LogReader, bytes: &mut [u8]) -> Option<FrameHead>
    requires fits { IsReaderOf log.now reader.old }
    ensures found { IfSome result (λ head. FindsPart log.now reader.old head bytes.old reader.new
        bytes.new) }
    ensures end { IfSome result (λ head. reader.new.read_to ≡ reader.old.position
        + aligned head.frame_length) }
    ensures none { IfNone result (ReadsNone reader.old bytes.old reader.new bytes.new) }
    ensures same_length { length bytes.new ≡ length bytes.old }
{
    let _ = log.identity();
    let start = reader.position;
    let consumer = reader.consumer();
    let word = log.look(&mut reader.handle.pass, &consumer, bytes);
    if word == 0 {
        return None;
    }
    let head = head_in(word, start);
    reader.read_to = start + u64::from(align32(head.frame_length));
    Some(head)
}

/// Reads the frame that is committed where the reader stands: a message's part is copied to the
/// block's front, and the reader stays. There is none where nothing is committed yet.
#[inline(always)]
pub fn next(log: &Log, reader: &mut LogReader, block: &mut Block) -> Option<FrameHead>
    requires fits { IsReaderOf log.now reader.old }
    requires room { log.now.identity.geometry.mtu ≤ length block.old }
    ensures found { IfSome result (λ head. ReadsFrame log.now reader.old head block.old reader.new
        block.new) }
    ensures read { IfSome result (λ _. reader.new.position < reader.new.read_to) }
    ensures fits { IsReaderOf log.now reader.new }
    ensures alone { IsAlone log.now reader.old → IsAlone log.now reader.new }
    ensures none { IfNone result (ReadsNone reader.old block.old reader.new block.new) }
    ensures same_length { length block.new ≡ length block.old }
{
    let head = look(log, reader, block.bytes_mut())?;
    Some(head)
}

/// Moves the reader behind the frame that it has read. The answer is its new position.
#[inline(always)]
pub fn advance(log: &Log, reader: &mut LogReader) -> u64
    requires fits { IsReaderOf log.now reader.old }
    requires read { reader.old.position < reader.old.read_to }
    ensures advances { Advances reader.old reader.new }
    ensures fits { IsReaderOf log.now reader.new }
    ensures alone { IsAlone log.now reader.old → IsAlone log.now reader.new }
    ensures answer { result ≡ reader.new.position }
{
    let consumer = reader.consumer();
    log.consume(&mut reader.handle.pass, &consumer, reader.read_to);
    reader.position = reader.read_to;
    reader.read_to
}

/// Reads a frame again that the reader has: a message's part is copied to the block's front. The
/// frame begins at the reader's position or below it, by three quarters of a term at the most.
pub fn reread(log: &Log, reader: &mut LogReader, position: u64, block: &mut Block) -> FrameHead
    requires fits { IsReaderOf log.now reader.old }
    requires room { log.now.identity.geometry.mtu ≤ length block.old }
    requires may { MayReread log.now reader.old position }
    ensures again { Rereads log.now reader.old position result block.old reader.new block.new }
    ensures alone { IsAlone log.now reader.old → IsAlone log.now reader.new }
    ensures same_length { length block.new ≡ length block.old }
{
    let _ = log.identity();
    let consumer = reader.consumer();
    let word = log.reread(
        &mut reader.handle.pass,
        &consumer,
        position,
        block.bytes_mut(),
    );
    head_in(word, position)
}
