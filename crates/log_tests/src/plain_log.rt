//! A log in one hand, as a list.

ghost use Rattle.std.specs.Prelude.{◌≡◌, ◌<◌, ◌≤◌, ◌+◌, ◌*◌, None, Some, IfOk, IfErr, IsErrOf, ◌↔◌, length};
ghost use Rattle.theory.specs.Position.{max_message, max_payload};
ghost use Rattle.position.specs.Openings.{IsStart};
ghost use Rattle.one_hand.specs.Stream.{Fits, case_of, ready, refusal_at_end, room as rest_of, term_of, turned, with_claim, with_message, with_padding};
ghost use Rattle.shared_log.specs.Faults.{OfOpening};
ghost use Rattle.log_tests.specs.Outcomes.{Admits, Refuses};

pub(crate) mod addition;
pub(crate) mod agreement;

use crate::plain_log::addition::{Addition, Content, PlacedClaim};
use one_hand::Claims;
use position::{Geometry, align32};
use publication::Refusal;
use shared_log::{LogError, PUBLISHERS};
use std::alloc::Global;
use std::marker::Model;

/// A log with its eight publishers, connected, with its limit half a term above the start for good. It has no reader, and
/// nothing of it is cleaned.
#[derive(Drop)]
pub struct PlainLog {
    geometry: Geometry,
    session: i32,
    stream: i32,
    start: u64,
    tail: u64,
    /// The count of the active term.
    active: u32,
    shares: [u64; PUBLISHERS],
    additions: Vec<Addition>,
    /// The bytes of the messages, in the order in which they were committed.
    bytes: Vec<u8>,
    /// By the publishers' numbers.
    held: [Option<PlacedClaim>; PUBLISHERS],
}

impl Model for PlainLog {
    ghost use Rattle.std.specs.Prelude.{◌≤◌, ◌/◌, vec_capacity};
    ghost use Rattle.one_hand.specs.Stream.{Stream};
    ghost use Rattle.log_tests.specs.Plain.{IsPlain, stream_of};

    ghost Value = { Stream };

    ghost view = { λ l. stream_of (record { identity = record { geometry = l.geometry; session = l.session; stream = l.stream }; start = l.start; tail = l.tail; active = l.active; shares = l.shares; additions = l.additions.items; bytes = l.bytes.items; held = l.held }) };

    ghost invariant = { λ l. IsPlain (record { identity = record { geometry = l.geometry; session = l.session; stream = l.stream }; start = l.start; tail = l.tail; active = l.active; shares = l.shares; additions = l.additions.items; bytes = l.bytes.items; held = l.held }) × (l.geometry.term_length / 32 ≤ vec_capacity l.additions) × (l.geometry.term_length ≤ vec_capacity l.bytes) };
}

impl PlainLog {
    /// A log at a start. The start is judged first; then memory is asked for, all that the log ever needs.
    pub fn open(
        alloc: Global,
        geometry: Geometry,
        session: i32,
        stream: i32,
        start: u64,
    ) -> Result<PlainLog, LogError>
        ensures opened { IfOk result (λ h. h ≡ ready (record { geometry = geometry; session = session; stream = stream }) start 0) }
        ensures start { IsErrOf result LogError.Start ↔ (¬ IsStart geometry start) }
        ensures memory { IsErrOf result LogError.Memory → IsStart geometry start }
        ensures opens { IfErr result OfOpening }
    {
        if !start.is_multiple_of(32) || start >= geometry.max_position() {
            return Err(LogError::Start);
        }
        let term = geometry.term_length();
        let additions = Vec::with_capacity(alloc, (term / 32) as usize)?;
        let bytes = Vec::with_capacity(alloc, term as usize)?;
        Ok(PlainLog {
            geometry,
            session,
            stream,
            start,
            tail: start,
            active: (start / u64::from(term)) as u32,
            shares: [0; PUBLISHERS],
            additions,
            bytes,
            held: [None; PUBLISHERS],
        })
    }

    /// Where a message of `size` bytes would end, if it is accepted. One that doesn't fit leaves a padding, and where the
    /// active term is at its end the next one's turn comes.
    fn admit(&mut self, publisher: usize, size: u32) -> Result<u64, Refusal>
        requires publisher { publisher < 8 }
        requires short { size ≤ max_message self.old.identity.geometry }
        ensures accepted { IfOk result (λ end. Admits self.old size end self.new) }
        ensures refused { IfErr result (λ why. Refuses self.old publisher size why self.new) }
    {
        let term = u64::from(self.geometry.term_length());
        let room = (u64::from(self.active) + 1) * term - self.tail;
        if room == 0 {
            return Err(self.turn());
        }
        if self.start + term / 2 <= self.tail {
            return Err(Refusal::BackPressured);
        }
        let covered = u64::from(self.geometry.framed_length(size));
        if covered <= room {
            return Ok(self.tail + covered);
        }
        self.pad(publisher, room as u32);
        Err(self.turn())
    }

    /// The next term's turn, if this wasn't the last one.
    fn turn(&mut self) -> Refusal
        requires end { self.old.tail ≡ (self.old.active + 1) * term_of self.old }
        ensures answer { result ≡ refusal_at_end self.old.active }
        ensures after { self.new ≡ turned self.old }
    {
        if self.active == 0x7fff_ffff {
            return Refusal::MaxPositionExceeded;
        }
        self.active += 1;
        Refusal::AdminAction
    }

    /// Fills the rest of the active term with a padding.
    fn pad(&mut self, publisher: usize, room: u32)
        requires publisher { publisher < 8 }
        requires rest { room ≡ rest_of self.old }
        requires some { 0 < room }
        requires bound { self.old.tail + room ≤ self.old.start + term_of self.old }
        ensures { self.new ≡ with_padding self.old publisher room }
    {
        self.additions.push_reserved(Addition {
            start: self.tail,
            owner: publisher,
            size: room,
            content: Content::Padding,
        });
        self.tail += u64::from(room);
        self.shares[publisher] += u64::from(room);
    }

    /// Adds a message that fits.
    fn put(&mut self, publisher: usize, message: &[u8])
        requires publisher { publisher < 8 }
        requires short { length message.now ≤ max_message self.old.identity.geometry }
        requires fits { case_of self.old (length message.now) ≡ Fits }
        ensures { self.new ≡ with_message self.old publisher message.now }
    {
        let size = message.len() as u32;
        let covered = u64::from(self.geometry.framed_length(size));
        self.additions.push_reserved(Addition {
            start: self.tail,
            owner: publisher,
            size,
            content: Content::Message(self.bytes.len()),
        });
        self.bytes.extend_from_slice(message).unwrap();
        self.tail += covered;
        self.shares[publisher] += covered;
    }

    /// Adds a claim that fits, and holds it open.
    fn hold(&mut self, publisher: usize, size: u32)
        requires publisher { publisher < 8 }
        requires short { size ≤ max_payload self.old.identity.geometry }
        requires fits { case_of self.old size ≡ Fits }
        ensures { self.new ≡ with_claim self.old publisher size }
    {
        let covered = u64::from(self.geometry.framed_length(size));
        self.held[publisher] = Some(PlacedClaim {
            place: self.additions.len(),
            start: self.tail,
            size,
        });
        self.additions.push_reserved(Addition {
            start: self.tail,
            owner: publisher,
            size,
            content: Content::Open,
        });
        self.tail += covered;
        self.shares[publisher] += covered;
    }
}

impl Claims for PlainLog {
    ghost stream = { λ s. s };

    fn geometry(&self) -> Geometry {
        self.geometry
    }

    fn is_whole(&self) {
        let _ = &self.tail;
    }

    fn claimed(&self, publisher: usize) -> Option<u32> {
        self.held[publisher].map(|held| held.size)
    }

    fn offer(&mut self, publisher: usize, message: &[u8]) -> Result<u64, Refusal> {
        let end = self.admit(publisher, message.len() as u32)?;
        self.put(publisher, message);
        Ok(end)
    }

    fn claim(&mut self, publisher: usize, size: u32) -> Result<(u64, u64), Refusal> {
        self.is_whole();
        let end = self.admit(publisher, size)?;
        let start = self.tail;
        self.hold(publisher, size);
        Ok((start, end))
    }

    fn commit(&mut self, publisher: usize, payload: &[u8]) -> u64 {
        let Some(held) = self.held[publisher] else {
            unreachable!();
        };
        self.held[publisher] = None;
        self.additions[held.place] = Addition {
            start: held.start,
            owner: publisher,
            size: held.size,
            content: Content::Message(self.bytes.len()),
        };
        self.bytes.extend_from_slice(payload).unwrap();
        held.start + u64::from(align32(held.size + 32))
    }

    fn abort(&mut self, publisher: usize) -> u64 {
        let Some(held) = self.held[publisher] else {
            unreachable!();
        };
        self.held[publisher] = None;
        self.additions[held.place] = Addition {
            start: held.start,
            owner: publisher,
            size: held.size + 32,
            content: Content::Padding,
        };
        held.start + u64::from(align32(held.size + 32))
    }
}
