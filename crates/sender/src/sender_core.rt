//! The sender's core: a log's frames, what receivers tell, and moments in, datagrams out.

ghost use Rattle.std.specs.Prelude.{◌≡◌, ◌≤◌, ◌<◌, ◌+◌, ◌%◌, ◌&&◌, [], true, length, nat_eq, pos, IfOk, IfErr, Some, if◌then◌else◌};
ghost use Rattle.std.specs.Option.{option_to_list};
ghost use Rattle.theory.specs.Position.{max_position, position_of};
ghost use Rattle.theory.specs.Timing.{is_heartbeat_due};
ghost use Rattle.frames.specs.Frames.{nak_of, status_of};
ghost use Rattle.sender.specs.Resending.Answers.{nak_result};
ghost use Rattle.sender.specs.Resending.Handler.{after_due as after_answer, due_range, nak_answer_of};
ghost use Rattle.sender.specs.Naming.{after_due, is_due};
ghost use Rattle.sender.specs.Cycling.{alone, heartbeats, setups};
ghost use Rattle.sender.specs.Giving.{HasSpace, SendsAgain, SendsNew, with_all};
ghost use Rattle.sender.specs.Texts.{answer_text};

use crate::again::send_again;
use crate::identity::{heartbeat_frame, setup_frame};
use crate::naming::SenderSetup;
use crate::news::{News, read_news};
use crate::packing::Packing;
use crate::retransmit::answer::NakResult;
use crate::retransmit::handler::Retransmit;
use crate::stream_frame::sent_to;
use block::Block;
use flow_control::FlowControl;
use frame_source::FrameSource;
use frames::{FrameError, Nak, Outbox, Status};
use position::Identity;
use std::alloc::Global;
use std::fmt;
use std::marker::Model;

/// What happens to a sender.
#[derive(Clone, Copy, Debug)]
pub enum SenderEvent<'a> {
    Tick,
    Datagram(&'a [u8]),
}

/// What a sender says of an event.
#[derive(Clone, Copy, Debug, PartialEq, Eq)]
pub enum SenderAnswer {
    Ticked,
    /// A status message was taken: the flow limit after it.
    Status(i64),
    /// A status message asked for a SETUP.
    Asked,
    /// What became of a negative acknowledgement.
    Missed(NakResult),
    /// The datagram is of another session or stream, or of a kind that no sender takes.
    Other,
    /// The datagram can't be read.
    Refused(FrameError),
}

impl fmt::Display for SenderAnswer {
    ghost output = { λ answer. Some (answer_text answer) };

    fn fmt<W: fmt::Write>(&self, f: &mut fmt::Formatter<W>) -> fmt::Result {
        match *self {
            SenderAnswer::Ticked => f.write_str("ticked"),
            SenderAnswer::Status(limit) => write!(f, "status {limit}"),
            SenderAnswer::Asked => f.write_str("asked"),
            SenderAnswer::Missed(answer) => f.write_str(answer.code()),
            SenderAnswer::Other => f.write_str("other"),
            SenderAnswer::Refused(error) => f.write_str(error.code()),
        }
    }
}

/// Why a sender wasn't made: memory was refused. It gives back what it was given.
#[derive(Drop)]
pub struct Denied<R, F> {
    pub reads: R,
    pub flow: F,
}

/// Nanoseconds after which a heartbeat goes out where nothing else does.
const HEARTBEAT_INTERVAL: u64 = 100_000_000;

/// How many datagrams of new frames go out in a cycle at the most.
const NEW_DATAGRAMS: usize = 16;

/// Sends the committed frames of one log, again what got lost, its SETUPs and heartbeats.
#[derive(Drop)]
pub struct SenderCore<R, F> {
    identity: Identity,
    reads: R,
    flow: F,
    setup: SenderSetup,
    /// Whether a status message has come that doesn't ask for a SETUP.
    heard: bool,
    handler: Retransmit,
    /// The payload of the frame that was read last.
    block: Block,
    /// The moment of the last datagram of frames or heartbeat.
    last: Option<u64>,
    /// The greatest moment that it has seen, in nanoseconds.
    clock: u64,
}

impl<R, F> Model for SenderCore<R, F> {
    ghost use Rattle.std.specs.Prelude.{◌≡◌, length, ◌≤◌, ◌%◌};
    ghost use Rattle.sender.specs.Sending.{Sending};

    ghost Value = { Sending R F };

    ghost view = { λ s. record { identity = s.identity; reads = s.reads; flow = s.flow; naming = s.setup; heard = s.heard; handler = s.handler; last = s.last; clock = s.clock } };

    ghost invariant = { λ s. (s.identity.geometry.mtu ≤ length s.block) × (s.handler.geometry ≡ s.identity.geometry) × (s.handler.at % 32 ≡ 0) };
}

impl<R, F: FlowControl + Drop> SenderCore<R, F> {
    ghost use Rattle.sender.specs.Sending.{BeginsAt, Cycles, GoesOn, HasLooked, HearsDatagram, SendsFrom, Steps, at_moment, asked, begun, named_once, told};

    /// A sender of a log with this stream and this start, a multiple of 32, which it reads by these reads. Where memory was
    /// refused, the reads and the flow control come back as they were.
    pub fn new(
        alloc: Global,
        identity: Identity,
        start: u64,
        reads: R,
        flow: F,
    ) -> Result<SenderCore<R, F>, Denied<R, F>>
        requires start { start ≤ max_position identity.geometry }
        requires unit { start % 32 ≡ 0 }
        requires begins { BeginsAt start (F.reached flow) (F.allowed flow) }
        ensures made { IfOk result (λ s. s ≡ begun identity start reads flow) }
        ensures denied { IfErr result (λ d. d ≡ record { reads = reads; flow = flow }) }
    {
        let geometry = identity.geometry();
        let Ok(block) = Block::new(alloc, geometry.mtu() as usize) else {
            return Err(Denied { reads, flow });
        };
        let Ok(handler) = Retransmit::new(alloc, geometry, start) else {
            return Err(Denied { reads, flow });
        };
        Ok(SenderCore {
            identity,
            reads,
            flow,
            setup: SenderSetup::new(),
            heard: false,
            handler,
            block,
            last: None,
            clock: 0,
        })
    }

    /// Gives the reads back.
    pub fn into_reads(self) -> R
        ensures { result ≡ self.reads }
    {
        let SenderCore {
            identity: _,
            reads,
            flow: _,
            setup: _,
            heard: _,
            handler: _,
            block: _,
            last: _,
            clock: _,
        } = self;
        reads
    }

    /// Goes on by another flow control, which allows no more than what was sent.
    pub fn set_flow(&mut self, flow: F)
        requires begins { BeginsAt self.old.handler.at (F.reached flow) (F.allowed flow) }
        ensures { self.new ≡ record self.old { flow = flow } }
    {
        self.flow = flow;
    }

    /// Whether a status message has come that doesn't ask for a SETUP.
    pub fn has_heard(&self) -> bool
        ensures { result ≡ self.now.heard }
    {
        self.heard
    }

    /// Its position: the end of what it has sent of the stream.
    pub fn position(&self) -> u64
        ensures { result ≡ self.now.handler.at }
    {
        self.handler.position()
    }

    /// Does what an event asks for, at a moment in nanoseconds. The outbox is emptied, and then holds what goes out. A tick
    /// gives out new frames until one would end above the flow limit, or has no place in 16 datagrams, or until the reads
    /// look and find none.
    pub fn step<L>(
        &mut self,
        log: &mut L,
        event: SenderEvent<'_>,
        now: u64,
        outbox: &mut Outbox,
    ) -> SenderAnswer
    where
        R: FrameSource<L>,
        requires stands { R.stands self.old.reads log.old }
        requires from { SendsFrom self.old (R.source self.old.reads log.old) }
        requires size { outbox.old.mtu ≡ self.old.identity.geometry.mtu }
        ensures step { Steps (HasLooked R.leaves R.looked self.old.reads log.old self.new.reads log.new) R.grown F.after_status F.after_tick F.reached F.has_heard (at_moment self.old now) event.entry (R.source self.old.reads log.old) (R.source self.new.reads log.new) result self.new outbox.new.datagrams }
        ensures goes_on { GoesOn self.old self.new (R.source self.new.reads log.new) }
        ensures stands { R.stands self.new.reads log.new }
        ensures leaves { R.leaves self.old.reads log.old self.new.reads log.new }
        ensures size { outbox.new.mtu ≡ outbox.old.mtu }
    {
        outbox.clear();
        self.see(now);
        match event {
            SenderEvent::Tick => {
                self.cycle(log, outbox);
                SenderAnswer::Ticked
            }
            SenderEvent::Datagram(bytes) => self.hear(bytes, outbox),
        }
    }

    /// Sees a moment.
    fn see(&mut self, now: u64)
        ensures { self.new ≡ at_moment self.old now }
    {
        self.clock = self.clock.max(now);
    }

    /// A SETUP if it is due, new frames, the frames of one range that is due, and a heartbeat if nothing else goes out.
    fn cycle<L>(&mut self, log: &mut L, outbox: &mut Outbox)
    where
        R: FrameSource<L>,
        requires stands { R.stands self.old.reads log.old }
        requires from { SendsFrom self.old (R.source self.old.reads log.old) }
        requires empty { outbox.old.datagrams ≡ [] }
        requires size { outbox.old.mtu ≡ self.old.identity.geometry.mtu }
        ensures cycle { Cycles (HasLooked R.leaves R.looked self.old.reads log.old self.new.reads log.new) R.grown F.after_tick F.reached self.old (R.source self.old.reads log.old) (R.source self.new.reads log.new) self.new outbox.new.datagrams }
        ensures goes_on { GoesOn self.old self.new (R.source self.new.reads log.new) }
        ensures stands { R.stands self.new.reads log.new }
        ensures leaves { R.leaves self.old.reads log.old self.new.reads log.new }
        ensures size { outbox.new.mtu ≡ outbox.old.mtu }
    {
        self.flow.tick(self.clock);
        self.name_stream(outbox);
        let named = outbox.len();
        self.send(log, outbox);
        self.resend(log, outbox);
        self.beat(outbox);
        self.note_moment(outbox.len() > named);
    }

    /// Notes the moment, if frames of the stream or a heartbeat go out.
    fn note_moment(&mut self, is_heard: bool)
        ensures { self.new ≡ record self.old { last = if is_heard then Some self.old.clock else self.old.last } }
    {
        if is_heard {
            self.last = Some(self.clock);
        }
    }

    /// Gives out a SETUP, if it is due.
    fn name_stream(&mut self, outbox: &mut Outbox)
        requires room { HasSpace self.old.identity outbox.old }
        ensures state { self.new ≡ record self.old { naming = after_due self.old.naming self.old.clock } }
        ensures out { outbox.new ≡ with_all outbox.old (alone (setups self.old.identity self.old.handler.at (is_due self.old.naming self.old.clock))) }
    {
        if self.setup.due(self.clock) {
            self.give_setup(outbox);
        }
    }

    /// Gives out new frames and notes them: from the reads' position on, up to the first that ends above the flow limit, or has
    /// no place in 16 datagrams, or up to where a look finds none committed.
    fn send<L>(&mut self, log: &mut L, outbox: &mut Outbox)
    where
        R: FrameSource<L>,
        requires stands { R.stands self.old.reads log.old }
        requires from { SendsFrom self.old (R.source self.old.reads log.old) }
        requires size { outbox.old.mtu ≡ self.old.identity.geometry.mtu }
        requires room { length outbox.old.datagrams + 16 ≤ 32 }
        ensures sends { SendsNew (HasLooked R.leaves R.looked self.old.reads log.old self.new.reads log.new) R.grown self.old.identity (F.reached self.old.flow) (R.source self.old.reads log.old) self.old.handler outbox.old (R.source self.new.reads log.new) self.new.handler outbox.new }
        ensures state { self.new ≡ record self.old { reads = self.new.reads; handler = self.new.handler } }
        ensures from { SendsFrom self.new (R.source self.new.reads log.new) }
        ensures stands { R.stands self.new.reads log.new }
        ensures leaves { R.leaves self.old.reads log.old self.new.reads log.new }
    {
        let limit = self.flow.limit() as u64;
        let mut packing = Packing::new(NEW_DATAGRAMS);
        while let Some(head) = self.reads.next(log, &mut self.block) {
            if sent_to(&self.identity, &head) > limit {
                return;
            }
            if !packing.put(&self.identity, &head, &self.block, outbox) {
                return;
            }
            self.handler.note(head.start, self.reads.advance(log));
        }
    }

    /// Gives out the frames of the range that is due, if one is.
    fn resend<L>(&mut self, log: &mut L, outbox: &mut Outbox)
    where
        R: FrameSource<L>,
        requires stands { R.stands self.old.reads log.old }
        requires from { SendsFrom self.old (R.source self.old.reads log.old) }
        requires size { outbox.old.mtu ≡ self.old.identity.geometry.mtu }
        requires room { length outbox.old.datagrams + 15 ≤ 32 }
        ensures sends { SendsAgain self.old.identity (R.source self.old.reads log.old).frames (due_range self.old.handler) outbox.old outbox.new }
        ensures state { self.new ≡ record self.old { reads = self.new.reads; handler = after_answer self.old.handler self.old.clock } }
        ensures stays { R.source self.new.reads log.new ≡ R.source self.old.reads log.old }
        ensures stands { R.stands self.new.reads log.new }
        ensures leaves { R.leaves self.old.reads log.old self.new.reads log.new }
    {
        let Some(range) = self.handler.due(self.clock) else {
            return;
        };
        send_again(
            &mut self.reads,
            log,
            &self.identity,
            &mut self.block,
            range,
            outbox,
        );
    }

    /// Gives out a heartbeat, if nothing else goes out and it is due.
    fn beat(&self, outbox: &mut Outbox)
        requires size { outbox.old.mtu ≡ self.now.identity.geometry.mtu }
        ensures { outbox.new ≡ with_all outbox.old (alone (heartbeats self.now.identity self.now.handler.at (nat_eq (length outbox.old.datagrams) 0 && is_heartbeat_due (option_to_list self.now.last) self.now.heard self.now.clock))) }
    {
        if outbox.len() == 0 && self.is_silent_long() {
            outbox.push(&heartbeat_frame(&self.identity, self.handler.position()));
        }
    }

    /// Whether a status message has come, and it is time for a heartbeat.
    fn is_silent_long(&self) -> bool
        ensures { result ≡ is_heartbeat_due (option_to_list self.now.last) self.now.heard self.now.clock }
    {
        let is_late = match self.last {
            None => true,
            Some(last) => self.clock >= last.saturating_add(HEARTBEAT_INTERVAL),
        };
        self.heard && is_late
    }

    /// Takes a datagram.
    fn hear(&mut self, bytes: &[u8], outbox: &mut Outbox) -> SenderAnswer
        requires empty { outbox.old.datagrams ≡ [] }
        requires size { outbox.old.mtu ≡ self.old.identity.geometry.mtu }
        ensures hears { HearsDatagram F.after_status F.reached F.has_heard self.old bytes.now result self.new outbox.new.datagrams }
        ensures size { outbox.new.mtu ≡ outbox.old.mtu }
    {
        match read_news(bytes, &self.identity) {
            News::Says(status) => self.on_status(&status),
            News::AsksSetup => {
                self.give_setup(outbox);
                SenderAnswer::Asked
            }
            News::Misses(nak) => self.on_nak(&nak),
            News::TellsNothing => SenderAnswer::Other,
            News::Unreadable(error) => SenderAnswer::Refused(error),
        }
    }

    /// Takes a status message that doesn't ask.
    fn on_status(&mut self, status: &Status) -> SenderAnswer
        ensures state { self.new ≡ told F.after_status F.has_heard self.old (status_of status.now) }
        ensures answer { result ≡ SenderAnswer.Status (pos (F.reached self.new.flow)) }
    {
        let geometry = self.identity.geometry();
        let position = geometry.position(status.term_id, status.term_offset);
        self.flow
            .on_status(position, status.window, status.receiver, self.clock);
        self.note_heard();
        self.heard = true;
        SenderAnswer::Status(self.flow.limit())
    }

    /// Names the stream by itself no more, once each receiver that is waited for was heard.
    fn note_heard(&mut self)
        ensures { self.new ≡ record self.old { naming = named_once (F.has_heard self.old.flow) self.old.naming } }
    {
        if self.flow.heard() {
            self.setup.on_status();
        }
    }

    /// Takes a negative acknowledgement.
    fn on_nak(&mut self, nak: &Nak) -> SenderAnswer
        ensures state { self.new ≡ asked self.old (nak_of nak.now) }
        ensures answer { (n : NakResult) × (result ≡ SenderAnswer.Missed n) × (nak_result n ≡ nak_answer_of self.old.handler self.old.clock (position_of self.old.identity.geometry nak.now.term_id nak.now.term_offset) nak.now.length) }
    {
        let geometry = self.identity.geometry();
        let position = geometry.position(nak.term_id, nak.term_offset);
        SenderAnswer::Missed(self.handler.on_nak(self.clock, position, nak.length))
    }

    /// Gives out the SETUP of its position.
    fn give_setup(&self, outbox: &mut Outbox)
        requires room { HasSpace self.now.identity outbox.old }
        ensures { outbox.new ≡ with_all outbox.old (alone (setups self.now.identity self.now.handler.at true)) }
    {
        let position = self.handler.position();
        outbox.push(&setup_frame(&self.identity, position));
    }
}
