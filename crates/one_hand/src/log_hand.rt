//! One hand over a log.

ghost use Rattle.std.specs.Prelude.{◌≡◌, ◌<◌, ◌≤◌, ◌+◌, true, false, IfErr, IfNone, IfOk, IfSome, IsErrOf, IsTrue, length, sum, ◌↔◌};
ghost use Rattle.frame_source.specs.Sources.{HasFrame, MayReread};
ghost use Rattle.position.specs.Openings.{IsConsumerCount, IsStart};
ghost use Rattle.shared_log.specs.Faults.{OfOpening};
ghost use Rattle.one_hand.specs.Reads.{Advances, ShowsFrame, ShowsNone, source_of};
ghost use Rattle.one_hand.specs.Stream.{HasConsumer, HasOther, IsVacant, cleaned_and_limited, lowest, opened, position_of, raised, with_consumer, without_consumer};

pub(crate) mod acting;
pub(crate) mod consumer;
pub(crate) mod held;
pub(crate) mod joining;
pub(crate) mod keeping;
pub(crate) mod passing;
pub(crate) mod reading;

use crate::claims::Claims;
use crate::log_hand::acting::{abort_as, claim_as, commit_as, offer_as};
use crate::log_hand::consumer::{consumer_of, place_of};
use crate::log_hand::held::Held;
use crate::log_hand::joining::{begin_as, end_as};
use crate::log_hand::keeping::{clean_as, set_closed_as, set_connected_as};
use crate::log_hand::passing::advance_as;
use crate::log_hand::reading::{next_as, reread_as};
use block::Block;
use position::{FrameHead, Geometry};
use publication::Refusal;
use shared_log::{Book, Log, LogError, PUBLISHERS, Publisher, first_there, open_whole};
use std::alloc::Global;
use std::marker::Model;

/// A log with all its eight publishers, its readers and its keeper.
#[derive(Drop)]
pub struct LogHand {
    log: Log,
    /// The pass that has all. It is out only within a call.
    all: Option<Publisher>,
    /// By the publishers' numbers.
    held: [Option<Held>; PUBLISHERS],
    shares: [u64; PUBLISHERS],
    /// The consumers' positions, by their numbers.
    positions: [u64; 8],
    /// The limit word, and the position below which nothing is readable any more.
    limit: u64,
    cleaned: u64,
    /// Which consumers are there, by their numbers.
    there: [bool; 8],
    /// The frame that a reader goes past.
    block: Block,
}

impl Model for LogHand {
    ghost use Rattle.std.specs.Prelude.{length};
    ghost use Rattle.one_hand.specs.Stream.{Stream};
    ghost use Rattle.one_hand.specs.Parts.{IsHand, stream_at};

    ghost Value = { Stream };

    ghost view = { λ h. stream_at h.all h.held };

    ghost invariant = { λ h. IsHand h.log h.all h.held (record { shares = h.shares; positions = h.positions; limit = h.limit; cleaned = h.cleaned; there = h.there; block = length h.block }) };
}

impl LogHand {
    /// A log at a start, unconnected, with its limit at the start, and all its passes. The start is judged first, then
    /// the number of consumers; then memory is asked for.
    pub fn open(
        alloc: Global,
        geometry: Geometry,
        session: i32,
        stream: i32,
        start: u64,
        consumers: usize,
    ) -> Result<LogHand, LogError>
        ensures opened { IfOk result (λ h. h ≡ opened (record { geometry = geometry; session = session; stream = stream }) start consumers) }
        ensures start { IsErrOf result LogError.Start ↔ (¬ IsStart geometry start) }
        ensures consumers { IsErrOf result LogError.Consumers ↔ (IsStart geometry start × (¬ IsConsumerCount consumers)) }
        ensures in_range { IfOk result (λ _. IsStart geometry start × IsConsumerCount consumers) }
        ensures memory { IsErrOf result LogError.Memory → IsStart geometry start × IsConsumerCount consumers }
        ensures opens { IfErr result OfOpening }
    {
        let (log, all) = open_whole(alloc, geometry, session, stream, start, consumers)?;
        let block = Block::new(alloc, geometry.mtu() as usize)?;
        let there = first_there(log.consumers());
        Ok(LogHand {
            log,
            all: Some(all),
            held: [None; PUBLISHERS],
            shares: [0; PUBLISHERS],
            positions: [start; 8],
            limit: start,
            cleaned: start,
            there,
            block,
        })
    }

    /// Whether a consumer has this number, 0 to 7.
    pub fn has_consumer(&self, reader: usize) -> bool
        requires { reader < 8 }
        ensures there { IsTrue result → HasConsumer self.now reader }
        ensures none { result ≡ false → IsVacant self.now reader }
    {
        self.there[reader]
    }

    /// Opens a consumer with a number that nobody has, 0 to 7, at the least position of those that are there. It reads every
    /// frame from there on. The answer is its position.
    pub fn join(&mut self, reader: usize) -> u64
        requires { IsVacant self.old reader }
        ensures least { result ≡ lowest self.old }
        ensures after { self.new ≡ with_consumer self.old reader (lowest self.old) }
    {
        let Some(all) = self.all.take() else {
            unreachable!();
        };
        let (limit, cleaned, there) = (self.limit, self.cleaned, self.there);
        let seat = (reader as u64, place_of(&there, reader));
        let (all, position) = begin_as(&self.log, all, limit, cleaned, there, seat);
        self.there[reader] = true;
        self.positions[reader] = position;
        self.all = Some(all);
        position
    }

    /// Ends a consumer, where another one is there: nobody has its number then.
    pub fn leave(&mut self, reader: usize)
        requires consumer { HasConsumer self.old reader }
        requires other { HasOther self.old reader }
        ensures { self.new ≡ without_consumer self.old reader }
    {
        let Some(all) = self.all.take() else {
            unreachable!();
        };
        let (limit, cleaned, there) = (self.limit, self.cleaned, self.there);
        let seat = (reader as u64, place_of(&there, reader));
        let all = end_as(&self.log, all, limit, cleaned, there, seat);
        self.there[reader] = false;
        self.all = Some(all);
    }

    /// Reads the frame that is committed where the reader stands: a message's part is copied to the block's front. There is
    /// none where the frame that begins there isn't committed.
    pub fn next(&mut self, reader: usize, block: &mut Block) -> Option<FrameHead>
        requires reader { HasConsumer self.old reader }
        requires room { self.old.identity.geometry.mtu ≤ length block.old }
        ensures same { self.new ≡ self.old }
        ensures same_length { length block.new ≡ length block.old }
        ensures found { IfSome result (λ head. ShowsFrame self.old (position_of self.old reader) head block.old block.new) }
        ensures none { IfNone result (ShowsNone self.old reader block.old block.new) }
    {
        let Some(all) = self.all.take() else {
            unreachable!();
        };
        let consumer = consumer_of(&self.there, &self.positions, reader);
        let (all, head) = next_as(&self.log, all, consumer, block);
        self.all = Some(all);
        head
    }

    /// Moves the reader past the frame that is committed where it stands. The answer is its new position.
    pub fn advance(&mut self, reader: usize) -> u64
        requires reader { HasConsumer self.old reader }
        requires frame { HasFrame (source_of self.old reader) (position_of self.old reader) }
        ensures { Advances self.old reader result self.new }
    {
        let Some(all) = self.all.take() else {
            unreachable!();
        };
        let consumer = consumer_of(&self.there, &self.positions, reader);
        let (all, end) = advance_as(&self.log, all, consumer, &mut self.block);
        self.positions[reader] = end;
        self.all = Some(all);
        end
    }

    /// Reads a frame again that the reader has passed, within three quarters of a term below it.
    pub fn reread(&mut self, reader: usize, position: u64, block: &mut Block) -> FrameHead
        requires reader { HasConsumer self.old reader }
        requires room { self.old.identity.geometry.mtu ≤ length block.old }
        requires may { MayReread (source_of self.old reader) position }
        ensures same { self.new ≡ self.old }
        ensures same_length { length block.new ≡ length block.old }
        ensures found { ShowsFrame self.old position result block.old block.new }
    {
        let Some(all) = self.all.take() else {
            unreachable!();
        };
        let consumer = consumer_of(&self.there, &self.positions, reader);
        let (all, head) = reread_as(&self.log, all, consumer, position, block);
        self.all = Some(all);
        head
    }

    /// Cleans all that is a term or more below the least consumer. Then, if the log is connected and not closed, raises the
    /// limit to half a term above that consumer. The answer is the limit.
    pub fn clean_and_limit(&mut self) -> u64
        ensures limit { result ≡ raised self.old }
        ensures after { self.new ≡ cleaned_and_limited self.old }
    {
        let Some(all) = self.all.take() else {
            unreachable!();
        };
        let (all, word, cleaned, limit) = clean_as(
            &self.log,
            all,
            self.limit,
            self.cleaned,
            self.there,
        );
        self.limit = word;
        self.cleaned = cleaned;
        self.all = Some(all);
        limit
    }

    /// Says whether somebody receives the stream.
    pub fn set_connected(&mut self, connected: bool)
        ensures { self.new ≡ record self.old { connected = connected } }
    {
        let Some(all) = self.all.take() else {
            unreachable!();
        };
        let (limit, cleaned, there) = (self.limit, self.cleaned, self.there);
        let (all, limit) = set_connected_as(&self.log, all, limit, cleaned, there, connected);
        self.limit = limit;
        self.all = Some(all);
    }

    /// Closes the log, for good.
    pub fn set_closed(&mut self)
        ensures { self.new ≡ record self.old { closed = true } }
    {
        let Some(all) = self.all.take() else {
            unreachable!();
        };
        let (all, limit) = set_closed_as(&self.log, all, self.limit, self.cleaned, self.there);
        self.limit = limit;
        self.all = Some(all);
    }

    /// Ends the log, and tells what each publisher claimed of it. A claim that is open counts for its publisher.
    pub fn close(self) -> Book
        ensures start { result.start ≡ self.start }
        ensures tail { result.tail ≡ self.tail }
        ensures shares { result.shares ≡ self.shares }
        ensures whole { result.start + sum result.shares ≡ result.tail }
    {
        let LogHand {
            log,
            all,
            held: _,
            shares,
            positions: _,
            limit: _,
            cleaned: _,
            there: _,
            block: _,
        } = self;
        let Some(all) = all else {
            unreachable!();
        };
        let start = log.start();
        Book {
            start,
            tail: start + all.share(),
            shares,
        }
    }
}

impl Claims for LogHand {
    ghost stream = { λ s. s };

    fn geometry(&self) -> Geometry {
        self.log.identity().geometry()
    }

    fn is_whole(&self) {
        let _ = self.log.start();
    }

    fn claimed(&self, publisher: usize) -> Option<u32> {
        self.held[publisher].map(|held| held.size)
    }

    fn offer(&mut self, publisher: usize, message: &[u8]) -> Result<u64, Refusal> {
        let Some(mut all) = self.all.take() else {
            unreachable!();
        };
        let before = all.share();
        let answer = offer_as(&self.log, &mut all, publisher as u64, message);
        self.shares[publisher] += all.share() - before;
        self.all = Some(all);
        answer
    }

    fn claim(&mut self, publisher: usize, size: u32) -> Result<(u64, u64), Refusal> {
        let covered = self.geometry().framed_length(size);
        let Some(mut all) = self.all.take() else {
            unreachable!();
        };
        let before = all.share();
        let answer = claim_as(&self.log, &mut all, publisher as u64, size);
        self.shares[publisher] += all.share() - before;
        self.all = Some(all);
        let start = answer?;
        self.held[publisher] = Some(Held { start, size });
        Ok((start, start + u64::from(covered)))
    }

    fn commit(&mut self, publisher: usize, payload: &[u8]) -> u64 {
        let Some(mut all) = self.all.take() else {
            unreachable!();
        };
        let Some(held) = self.held[publisher] else {
            unreachable!();
        };
        let end = commit_as(&self.log, &mut all, publisher as u64, held, payload);
        self.held[publisher] = None;
        self.all = Some(all);
        end
    }

    fn abort(&mut self, publisher: usize) -> u64 {
        let Some(mut all) = self.all.take() else {
            unreachable!();
        };
        let Some(held) = self.held[publisher] else {
            unreachable!();
        };
        let end = abort_as(&self.log, &mut all, publisher as u64, held);
        self.held[publisher] = None;
        self.all = Some(all);
        end
    }
}
