//! A log's reader of messages.

ghost use Rattle.std.specs.Prelude.{◌≡◌, ◌+◌, ◌≤◌, [], length, false, None, IfErr, IfNone, IfOk, IfSome, option_map};
ghost use Rattle.position.specs.Heads.{frame_in};
ghost use Rattle.shared_log.specs.Readers.{IsAlone, IsReaderOf, known_of};
ghost use Rattle.assembler.specs.Hearing.{RefusesFrame, TakesFrame};

use crate::denied::Denied;
use assembler::{Assembler, AssemblyError, Message};
use block::Block;
use position::{FrameHead, FrameKind};
use shared_log::{Log, LogReader, advance, next};
use std::alloc::Global;
use std::marker::Model;

/// A reader of a log, and the assembler that joins what it reads to messages.
#[derive(Drop)]
pub struct LogMessages {
    reader: LogReader,
    assembler: Assembler<Global>,
    /// Room for a frame's payload.
    block: Block,
    /// The position at which the reader began.
    begun_at: u64,
    /// Whether a frame was refused.
    has_refused: bool,
}

impl Model for LogMessages {
    ghost use Rattle.std.specs.Prelude.{◌≤◌, length, false, ◌≡◌};
    ghost use Rattle.log_messages.specs.Reading.{HasRead, Reading};

    ghost Value = { Reading };

    ghost view = { λ m. record { reader = m.reader; assembler = m.assembler; begun_at = m.begun_at; has_refused = m.has_refused } };

    ghost invariant = { λ m. HasRead m.begun_at m.reader m.assembler m.has_refused × (m.reader.held.pass.identity.geometry.mtu ≤ length m.block) };
}

/// What an assembler makes of a frame: the message that it completes, if it does, or the fault that refuses it.
type Step = Result<Option<Message<Global>>, AssemblyError>;

impl LogMessages {
    ghost use Rattle.log_messages.specs.Reading.{Answers, FindsNone, HasRead, HearsOne, RefusesOne};

    /// The messages that this reader gets from where it stands on, where it has read nothing yet; each of at most `greatest`
    /// bytes. The error comes only where memory was refused, and gives the reader back.
    pub fn new(alloc: Global, reader: LogReader, greatest: usize) -> Result<LogMessages, Denied>
        requires { known_of reader ≡ [] }
        ensures new { IfOk result (λ m. m ≡ record { reader = reader; assembler = record { greatest = greatest; begun = None }; begun_at = reader.position; has_refused = false }) }
        ensures denied { IfErr result (λ d. d.reader ≡ reader) }
    {
        let mtu = reader.identity().geometry().mtu() as usize;
        match Block::new(alloc, mtu) {
            Ok(block) => Ok(LogMessages {
                begun_at: reader.position(),
                reader,
                assembler: Assembler::new(alloc, greatest),
                block,
                has_refused: false,
            }),
            Err(_) => Err(Denied { reader }),
        }
    }

    /// Where its reader stands: behind all that was given.
    pub fn position(&self) -> u64
        ensures { result ≡ self.now.reader.position }
    {
        self.reader.position()
    }

    /// Its reader, which knows just what was read.
    pub fn into_reader(self) -> LogReader
        ensures reader { result ≡ self.reader }
        ensures read { HasRead self.begun_at self.reader self.assembler self.has_refused }
    {
        self.reader
    }

    /// The next message of this log: it reads on up to the frame that completes one, or until no frame is left, and gives none
    /// then. The fault is `A2` exactly where the message would be longer than the greatest, else `A1`; the frame is passed, and what
    /// it was a part of is lost. It takes no lock. A reader that is one consumer and nothing else stays so, and may leave.
    pub fn next(&mut self, log: &Log) -> Result<Option<Message<Global>>, AssemblyError>
        requires { IsReaderOf log.now self.old.reader }
        ensures answers { Answers self.old result self.new }
        ensures stays { IsReaderOf log.now self.new.reader }
        ensures alone { IsAlone log.now self.old.reader → IsAlone log.now self.new.reader }
        ensures small { IfOk result (λ m. IfSome m (λ m. length m.bytes.items ≤ self.old.assembler.greatest)) }
    {
        loop {
            match self.hear(log) {
                None => return Ok(None),
                Some(Ok(None)) => {}
                Some(Ok(Some(message))) => return Ok(Some(message)),
                Some(Err(error)) => return Err(error),
            }
        }
    }

    /// Reads a frame, passes it, and hands it to the assembler.
    fn hear(&mut self, log: &Log) -> Option<Step>
        requires { IsReaderOf log.now self.old.reader }
        ensures none { IfNone result (FindsNone self.old self.new) }
        ensures heard { IfSome result (λ step. IfOk step (λ m. HearsOne self.old (option_map (λ x. x.bytes.items) m) self.new)) }
        ensures small { IfSome result (λ step. IfOk step (λ m. IfSome m (λ m. length m.bytes.items ≤ self.old.assembler.greatest))) }
        ensures refused { IfSome result (λ step. IfErr step (λ fault. RefusesOne self.old fault self.new)) }
        ensures stays { IsReaderOf log.now self.new.reader }
        ensures alone { IsAlone log.now self.old.reader → IsAlone log.now self.new.reader }
    {
        let Some(head) = next(log, &mut self.reader, &mut self.block) else {
            return None;
        };
        advance(log, &mut self.reader);
        let step = join(&mut self.assembler, &self.block, &head);
        self.has_refused |= step.is_err();
        Some(step)
    }
}

/// Hands a frame, whose payload stands at a block's front, to an assembler. A padding is passed over.
fn join(assembler: &mut Assembler<Global>, block: &Block, head: &FrameHead) -> Step
    requires { head.now.kind ≡ FrameKind.Data → (32 ≤ head.now.frame_length) × (head.now.frame_length ≤ 32 + length block.now) }
    ensures taken { IfOk result (λ m. TakesFrame assembler.old (frame_in head.now.kind head.now.flags head.now.frame_length block.now) (option_map (λ x. x.bytes.items) m) assembler.new) }
    ensures small { IfOk result (λ m. IfSome m (λ m. length m.bytes.items ≤ assembler.old.greatest)) }
    ensures refused { IfErr result (λ fault. RefusesFrame assembler.old (frame_in head.now.kind head.now.flags head.now.frame_length block.now) fault assembler.new) }
{
    match head.kind {
        FrameKind::Pad => Ok(None),
        FrameKind::Data => {
            let length = head.frame_length as usize - 32;
            assembler.on_frame(head.flags, &block.bytes()[..length])
        }
    }
}
