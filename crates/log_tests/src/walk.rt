//! A log's frames, as a reader finds them and as its words show them.

ghost use Rattle.std.specs.Prelude.{◌≡◌, ◌<◌, ◌^◌};
ghost use Rattle.shared_log.specs.Readers.{IsReaderOf};

use crate::claimed::{Claimed, LONGEST, fill};
use block::Block;
use frames::{Frame, Header, read_frame};
use position::{BEGIN, END, FrameHead, FrameKind, Identity, UNFRAGMENTED};
use shared_log::{Log, LogReader, advance, next};
use std::alloc::{AllocError, Global};

/// More frames than a log has between its start and its limit.
const FRAMES: usize = 4096;

/// The bytes of a log's three terms, as a reader finds its frames, and the first word of each frame, by units of 32 bytes.
#[derive(Drop)]
pub struct Terms {
    identity: Identity,
    bytes: Vec<u8>,
    firsts: Vec<u64>,
    /// Whether the log's words are these.
    agree: bool,
}

/// The greatest position that the raw tails show.
pub fn shown(log: &mut Log) -> u64
    ensures { log.new ≡ log.old }
{
    let geometry = log.identity().geometry();
    let term = geometry.term_length();
    let control = 3 * (term as usize / 32);
    let mut greatest = 0;
    for place in 2..5 {
        let word = log.peek(control + place);
        let id = ((word >> 32) as u32).cast_signed();
        let offset = ((word % (1 << 32)) as u32).min(term);
        greatest = greatest.max(geometry.position(id, offset.cast_signed()));
    }
    greatest.cast_unsigned()
}

fn is_zero(bytes: &[u8]) -> bool {
    bytes.iter().all(|byte| *byte == 0)
}

/// Copies some bytes over others, from a place on.
fn put(bytes: &mut [u8], at: usize, some: &[u8]) {
    for (index, byte) in some.iter().enumerate() {
        if let Some(place) = bytes.get_mut(at.wrapping_add(index)) {
            *place = *byte;
        }
    }
}

impl Terms {
    /// What a reader finds from where it stands on, and the words of the log then.
    pub fn of(alloc: Global, log: &mut Log, reader: LogReader) -> Result<Terms, AllocError>
        requires { IsReaderOf log.old reader }
    {
        let mut terms = Terms::read(alloc, log, reader)?;
        terms.agree = terms.agrees(log);
        Ok(terms)
    }

    /// The frames that a reader finds.
    fn read(alloc: Global, log: &Log, mut reader: LogReader) -> Result<Terms, AllocError>
        requires { IsReaderOf log.now reader }
    {
        let identity = log.identity();
        let term = identity.geometry().term_length() as usize;
        let mut terms = Terms {
            identity,
            bytes: vec![in alloc; 0; 3 * term]?,
            firsts: vec![in alloc; 0; 3 * (term / 32)]?,
            agree: false,
        };
        let mut block = Block::new(alloc, identity.geometry().mtu() as usize)?;
        for _ in 0..FRAMES {
            let Some(head) = next(log, &mut reader, &mut block) else {
                break;
            };
            terms.note(&head, block.bytes());
            advance(log, &mut reader);
        }
        Ok(terms)
    }

    /// A frame, as on the wire.
    fn note(&mut self, head: &FrameHead, payload: &[u8]) {
        let at = (head.start % (3 * self.term())) as usize;
        let header = self.header(head.start);
        let (kind, size): (u16, usize) = match head.kind {
            FrameKind::Data => (1, head.frame_length.saturating_sub(32) as usize),
            FrameKind::Pad => (0, 0),
        };
        let mut first = [0; 8];
        put(&mut first, 0, &head.frame_length.to_le_bytes());
        put(&mut first, 5, &[head.flags]);
        put(&mut first, 6, &kind.to_le_bytes());
        put(self.bytes.as_mut_slice(), at, &first);
        put(
            self.bytes.as_mut_slice(),
            at + 8,
            &header.term_offset.to_le_bytes(),
        );
        put(
            self.bytes.as_mut_slice(),
            at + 12,
            &header.session.to_le_bytes(),
        );
        put(
            self.bytes.as_mut_slice(),
            at + 16,
            &header.stream.to_le_bytes(),
        );
        put(
            self.bytes.as_mut_slice(),
            at + 20,
            &header.term_id.to_le_bytes(),
        );
        put(
            self.bytes.as_mut_slice(),
            at + 32,
            payload.get(..size).unwrap_or(&[]),
        );
        if let Some(place) = self.firsts.as_mut_slice().get_mut(at / 32) {
            *place = u64::from_le_bytes(first);
        }
    }

    /// Whether each word of the log's units is the first of the frame that begins there, or zero where none does.
    fn agrees(&self, log: &mut Log) -> bool {
        let units = 3 * (log.identity().geometry().term_length() as usize / 32);
        for index in 0..units {
            if self.firsts.as_slice().get(index) != Some(&log.peek(index)) {
                return false;
            }
        }
        true
    }

    fn term(&self) -> u64
        ensures some { 0 < result }
        ensures small { result < 2 ^ 32 }
    {
        u64::from(self.identity.geometry().term_length())
    }

    /// The bytes from a position to its term's end.
    pub fn bytes_from(&self, position: u64) -> &[u8] {
        let from = position % (3 * self.term());
        let to = from - from % self.term() + self.term();
        self.bytes.get(from as usize..to as usize).unwrap_or(&[])
    }

    /// The header of a frame at a position.
    fn header(&self, position: u64) -> Header {
        let first = self.identity.geometry().initial_term_id();
        Header {
            term_offset: (position % self.term()) as u32,
            session: self.identity.session(),
            stream: self.identity.stream(),
            term_id: first.wrapping_add((position / self.term() % (1 << 31)) as i32),
            reserved: 0,
        }
    }

    /// Whether a frame stands at a position, and its alignment bytes are zero.
    fn has_frame(&self, position: u64, frame: Frame<'_>) -> bool {
        matches!(read_frame(self.bytes_from(position)), Ok((found, _)) if found == frame)
    }

    /// Whether a padding stands at a position, with nothing inside.
    fn has_padding(&self, position: u64, frame_length: u32) -> bool {
        let header = self.header(position);
        let covered = u64::from(frame_length).div_ceil(32) * 32;
        let inside = self.bytes_from(position).get(32..covered as usize);
        let padding = Frame::Pad {
            header,
            frame_length,
        };
        self.has_frame(position, padding) && inside.is_some_and(|bytes| is_zero(bytes))
    }

    /// Whether a message's frames stand from a position to another.
    fn has_message(&self, start: u64, end: u64, message: &[u8]) -> bool {
        let most = self.identity.geometry().max_payload() as usize;
        let last = message.len().saturating_sub(1) / most;
        let mut rest = message;
        let mut position = start;
        for index in 0..=last {
            let (payload, behind) = rest.split_at(rest.len().min(most));
            let header = self.header(position);
            let flags = match (index == 0, index == last) {
                (true, true) => UNFRAGMENTED,
                (true, false) => BEGIN,
                (false, true) => END,
                (false, false) => 0,
            };
            let frame = Frame::Data {
                header,
                flags,
                payload,
            };
            if !self.has_frame(position, frame) {
                return false;
            }
            position = position.wrapping_add((payload.len() as u64 + 32).div_ceil(32) * 32);
            rest = behind;
        }
        position == end
    }

    /// Whether what was claimed stands in its range.
    fn has_claimed(&self, claimed: &Claimed) -> bool {
        let size = claimed.size.min(LONGEST);
        if claimed.aborted {
            return self.has_padding(claimed.start, size as u32 + 32);
        }
        let mut buffer = [0; LONGEST];
        let message = &mut buffer[..size];
        fill(message, claimed.key);
        self.has_message(claimed.start, claimed.end, message)
    }

    /// Whether all is zero from one position on, round to another.
    fn is_blank(&self, from: u64, to: u64) -> bool {
        let ring = 3 * self.term();
        let (from, to) = ((from % ring) as usize, (to % ring) as usize);
        let bytes = self.bytes.as_slice();
        let (front, behind) = if to <= from {
            (bytes.get(..to), bytes.get(from..))
        } else {
            (bytes.get(from..to), Some([].as_slice()))
        };
        front.is_some_and(|bytes| is_zero(bytes)) && behind.is_some_and(|bytes| is_zero(bytes))
    }

    /// Walks from a position to another, over what was claimed, in the order of the stream, and over paddings up to a
    /// term's end. The answer is how many bytes those paddings cover, or where something else stands.
    pub fn walk(&self, start: u64, tail: u64, claims: &[Claimed]) -> Result<u64, u64> {
        let term = self.term();
        let mut position = start;
        let mut padded: u64 = 0;
        let mut rest = claims;
        for _ in 0..FRAMES {
            if position >= tail {
                break;
            }
            let left = term - position % term;
            match rest.split_first() {
                Some((claimed, others)) if claimed.start == position => {
                    if !self.has_claimed(claimed) {
                        return Err(position);
                    }
                    position = claimed.end;
                    rest = others;
                }
                _ if self.has_padding(position, left as u32) => {
                    position = position.wrapping_add(left);
                    padded = padded.wrapping_add(left);
                }
                _ => return Err(position),
            }
        }
        if position == tail && rest.is_empty() && self.agree && self.is_blank(tail, start) {
            return Ok(padded);
        }
        Err(position)
    }
}
