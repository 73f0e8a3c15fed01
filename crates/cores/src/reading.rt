//! The messages of a log, with a share of the log.

ghost use Rattle.std.specs.Prelude.{◌≡◌, [], true, IfErr, IfOk};
ghost use Rattle.std.specs.Arc.{arc_value};
ghost use Rattle.shared_log.specs.Readers.{known_of};
ghost use Rattle.cores.specs.Numbers.{assembly_fault};

use crate::fault::Fault;
use crate::rooms::put_front;
use assembler::{AssemblyError, Message};
use claims::ReaderPass;
use log_messages::LogMessages;
use shared_log::Log;
use std::alloc::Global;
use std::marker::Model;
use std::sync::Arc;

/// Why no message was given.
#[derive(Clone, Copy, Debug, PartialEq, Eq)]
pub enum NoMessage {
    /// None is whole yet.
    None,
    /// It has so many bytes, more than the room, and waits for the next call.
    Longer(usize),
    /// One is lost: it would be longer than the greatest, or memory was refused. The next call goes on behind it.
    Lost(Fault),
}

/// The messages of a log, of which one may wait that was longer than a room.
#[derive(Drop)]
pub struct MessagesPass {
    log: Arc<Log, Global>,
    messages: LogMessages,
    waiting: Option<Message<Global>>,
}

impl Model for MessagesPass {
    ghost use Rattle.std.specs.Prelude.{option_map};
    ghost use Rattle.std.specs.Arc.{arc_value};
    ghost use Rattle.shared_log.specs.Readers.{IsReaderOf};
    ghost use Rattle.cores.specs.Messages.{MessagesValue};

    ghost Value = { MessagesValue };

    ghost view = { λ p. record { log = arc_value p.log; reading = p.messages; waiting = option_map (λ m. m.bytes.items) p.waiting } };

    ghost invariant = { λ p. IsReaderOf (arc_value p.log) p.messages.reader };
}

fn fault_of(error: AssemblyError) -> Fault
    ensures { result ≡ assembly_fault error }
{
    match error {
        AssemblyError::Memory => Fault::Memory,
        AssemblyError::TooLong => Fault::TooLong,
    }
}

impl MessagesPass {
    ghost use Rattle.cores.specs.Messages.{Begins, DeclinesMessages, GivesMessage, Takes, WhyNoMessage, WhyNoneTaken};

    /// The messages that a reader gets that has found no frame yet, from where it stands on, each of at most so many bytes.
    /// Where it is declined, the reader comes back: it has found one (`HasRead`), or memory was refused.
    pub fn open(
        alloc: Global,
        reader: ReaderPass,
        greatest: usize,
    ) -> Result<MessagesPass, (Fault, ReaderPass)>
        ensures begun { IfOk result (λ p. Begins reader greatest p) }
        ensures declined { IfErr result (λ d. DeclinesMessages reader d.0 d.1) }
    {
        if !reader.is_new {
            return Err((Fault::HasRead, reader));
        }
        let ReaderPass {
            log,
            reader,
            is_new,
        } = reader;
        match LogMessages::new(alloc, reader, greatest) {
            Ok(messages) => Ok(MessagesPass {
                log,
                messages,
                waiting: None,
            }),
            Err(denied) => {
                let reader = denied.reader;
                Err((
                    Fault::Memory,
                    ReaderPass {
                        log,
                        reader,
                        is_new,
                    },
                ))
            }
        }
    }

    /// The same in a box.
    pub fn open_boxed(
        alloc: Global,
        reader: ReaderPass,
        greatest: usize,
    ) -> Result<Box<MessagesPass, Global>, (Fault, ReaderPass)>
        ensures begun { IfOk result (λ b. Begins reader greatest b.value) }
        ensures declined { IfErr result (λ d. DeclinesMessages reader d.0 d.1) }
    {
        let opened = MessagesPass::open(alloc, reader, greatest)?;
        match Box::new(alloc, opened) {
            Ok(boxed) => Ok(boxed),
            Err(failed) => Err((Fault::Memory, failed.value.into_reader())),
        }
    }

    /// Gives the reader back, which has found nothing yet.
    fn into_reader(self) -> ReaderPass
        requires { known_of self.reading.reader ≡ [] }
        ensures log { arc_value result.log ≡ self.log }
        ensures reader { result.reader ≡ self.reading.reader }
        ensures new { result.is_new ≡ true }
    {
        let MessagesPass { log, messages, .. } = self;
        ReaderPass {
            log,
            reader: messages.into_reader(),
            is_new: true,
        }
    }

    /// Where its reader stands: behind all that was given, and behind the message that waits.
    pub fn position(&self) -> u64
        ensures { result ≡ self.now.reading.reader.position }
    {
        self.messages.position()
    }

    /// The message that waits, or else the next one of the log.
    fn take(&mut self) -> Result<Message<Global>, NoMessage>
        ensures taken { IfOk result (λ m. Takes self.old m.bytes.items self.new) }
        ensures none { IfErr result (λ why. WhyNoneTaken self.old why self.new) }
    {
        if let Some(message) = self.waiting.take() {
            return Ok(message);
        }
        let log = &*self.log;
        match self.messages.next(log) {
            Ok(Some(message)) => Ok(message),
            Ok(None) => Err(NoMessage::None),
            Err(error) => Err(NoMessage::Lost(fault_of(error))),
        }
    }

    /// Writes the next message to the room's front. The answer is its length. One that is longer than the room waits for the next
    /// call.
    pub fn next(&mut self, room: &mut [u8]) -> Result<usize, NoMessage>
        ensures given { IfOk result (λ n. GivesMessage self.old room.old n room.new self.new) }
        ensures none { IfErr result (λ why. WhyNoMessage self.old room.old why room.new self.new) }
    {
        let message = match self.take() {
            Ok(message) => message,
            Err(why) => return Err(why),
        };
        let size = message.bytes.len();
        if size > room.len() {
            self.waiting = Some(message);
            return Err(NoMessage::Longer(size));
        }
        put_front(room, &message.bytes);
        Ok(size)
    }
}
