//! A reader's steps.

ghost use Rattle.std.specs.Prelude.{◌≡◌, ◌<◌, length};
ghost use Rattle.std.specs.Int.{w64, to_le_bytes};
ghost use Rattle.position.specs.Contents.{head_by};
ghost use Rattle.log_rule.specs.Readings.{Consumes, Looks, MayPass};
ghost use Rattle.shared_log.specs.Steps.Handles.{IsOf};
ghost use Rattle.shared_log.specs.Steps.Readers.{CopiesHad, CopiesKnown, IsAt, MayRereadAt, ReadsAgain, SameSeat, part_bytes};

use crate::steps::log::Log;
use crate::steps::pass::LogPass;
use log_memory::{Consumer, consume, copy_part, give_back, look, parts_are_found, reread};
use position::{FrameKind, head_in};
use std::marker::Brand;

/// How many bytes of a frame's payload are copied where there is so much room: all, or none where
/// they are more. A padding has none.
#[inline(always)]
fn part_in(word: u64, start: u64, room: usize) -> usize
    ensures { result ≡ part_bytes (head_by start (to_le_bytes w64 word)) room }
{
    let head = head_in(word, start);
    match head.kind {
        FrameKind::Data => {
            let count = (head.frame_length as usize).saturating_sub(32);
            if count <= room { count } else { 0 }
        }
        FrameKind::Pad => 0,
    }
}

impl Log {
    /// Loads the word where a consumer stands, which knows the frame that begins there from then
    /// on. Its payload is copied to the front of the bytes, where it fits.
    #[inline(always)]
    pub(crate) fn look(&self, pass: &mut LogPass, consumer: &Consumer, bytes: &mut [u8]) -> u64
        requires fits { IsOf self.now pass.old }
        requires consumer { IsAt pass.old.pass consumer.now }
        ensures seat { SameSeat pass.old pass.new }
        ensures told { Looks pass.old.pass consumer.now.place result pass.new.pass }
        ensures none { result ≡ 0 → bytes.new ≡ bytes.old }
        ensures copied { 0 < result → CopiesKnown pass.new.pass consumer.now (part_bytes (head_by
            consumer.now.position (to_le_bytes w64 result)) (length bytes.old)) bytes.old bytes.new }
        ensures same_length { length bytes.new ≡ length bytes.old }
    {
        parts_are_found();
        let start = consumer.position;
        let word = look::<Brand>(&self.memory, &mut pass.seat, consumer);
        if word == 0 {
            return 0;
        }
        let (head, at) = (self.memory.head(start), self.memory.byte(start));
        let count = part_in(word, start, bytes.len());
        copy_part(
            &self.memory,
            &mut pass.seat,
            start,
            consumer.number,
            at,
            &mut bytes[..count],
        );
        give_back(&self.memory, &mut pass.seat, head);
        word
    }

    /// Loads the word of a frame that a consumer has, a term below it at the most. Its payload is
    /// copied to the front of the bytes, where it fits.
    #[inline(always)]
    pub(crate) fn reread(
        &self,
        pass: &mut LogPass,
        consumer: &Consumer,
        start: u64,
        bytes: &mut [u8],
    ) -> u64
        requires fits { IsOf self.now pass.old }
        requires may { MayRereadAt pass.old.pass consumer.now start }
        ensures seat { SameSeat pass.old pass.new }
        ensures same { pass.new.pass ≡ pass.old.pass }
        ensures told { ReadsAgain pass.old.pass consumer.now start result }
        ensures copied { CopiesHad pass.old.pass consumer.now start (part_bytes (head_by
            start (to_le_bytes w64 result)) (length bytes.old)) bytes.old bytes.new }
        ensures same_length { length bytes.new ≡ length bytes.old }
    {
        parts_are_found();
        let (head, at) = (self.memory.head(start), self.memory.byte(start));
        let word = reread::<Brand>(&self.memory, &mut pass.seat, consumer, start);
        let count = part_in(word, start, bytes.len());
        copy_part(
            &self.memory,
            &mut pass.seat,
            start,
            consumer.number,
            at,
            &mut bytes[..count],
        );
        give_back(&self.memory, &mut pass.seat, head);
        word
    }

    /// Stores where the frame ends that a consumer has read.
    #[inline(always)]
    pub(crate) fn consume(&self, pass: &mut LogPass, consumer: &Consumer, end: u64)
        requires fits { IsOf self.now pass.old }
        requires consumer { IsAt pass.old.pass consumer.now }
        requires may { MayPass pass.old.pass consumer.now.place end }
        ensures seat { SameSeat pass.old pass.new }
        ensures told { Consumes pass.old.pass consumer.now.place end pass.new.pass }
    {
        consume::<Brand>(&self.memory, &mut pass.seat, consumer, end);
    }
}
