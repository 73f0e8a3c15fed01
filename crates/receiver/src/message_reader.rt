//! Who reads the messages of an image, beside who rebuilds it.

ghost use Rattle.std.specs.Prelude.{◌≡◌, ◌⊎◌, ◌≤◌, ◌^◌, ◌∷◌, [], length, option_map, IfErr, IfNone, IfOk, IfSome, None};
ghost use Rattle.std.specs.Arc.{arc_value};
ghost use Rattle.image.specs.Handles.{position_of};
ghost use Rattle.receiver.specs.Dealt.{Learns};

use crate::assembling::{Joiner, Step};
use crate::dealing::only_reader;
use crate::denied::Denied;
use crate::readers::Readers;
use crate::receiver_core::ReceiverCore;
use assembler::{Assembler, AssemblyError, Message};
use image::{Image, ImageReader, advance, read_with};
use std::alloc::Global;
use std::marker::Model;
use std::sync::Arc;

/// A reader of an image that threads share without a lock, and the assembler that joins what it reads to messages. It may go to
/// another thread than the image's core.
#[derive(Drop)]
pub struct MessageReader {
    image: Arc<Image, Global>,
    reader: ImageReader,
    joiner: Joiner,
    /// Whether the frame where the reader stands was heard already.
    waits: bool,
}

impl Model for MessageReader {
    ghost use Rattle.std.specs.Arc.{arc_value};
    ghost use Rattle.image.specs.Handles.{IsReaderOf};
    ghost use Rattle.receiver.specs.Reading.{Reading, WaitsSo, heard_to_of};

    ghost Value = { Reading };

    ghost view = { λ m. record { image = arc_value m.image; seat = m.reader; assembler = m.joiner.assembler; heard_to = heard_to_of m.waits m.reader } };

    ghost invariant = { λ m. IsReaderOf (arc_value m.image) m.reader × WaitsSo m.waits m.reader };
}

impl MessageReader {
    ghost use Rattle.receiver.specs.Reading.{Answers, FindsNone, HearsOne, IsImage, Passes, RefusesOne};

    /// Who reads an image that has one reader, which are these. Messages are of at most `greatest` bytes. The error comes only
    /// where memory was refused, and gives the readers back.
    pub fn new(
        alloc: Global,
        taken: Readers,
        greatest: usize,
    ) -> Result<MessageReader, Denied<Readers>>
        requires { length taken.readers.items ≡ 1 }
        ensures image { IfOk result (λ m. m.image ≡ arc_value taken.image) }
        ensures reader { IfOk result (λ m. taken.readers.items ≡ m.seat ∷ []) }
        ensures begins { IfOk result (λ m. m.heard_to ≡ position_of m.seat) }
        ensures assembler { IfOk result (λ m. m.assembler ≡ record { greatest = greatest; begun = None }) }
        ensures denied { IfErr result (λ d. d.given ≡ taken) }
    {
        let Ok(image) = Arc::try_clone(&taken.image) else {
            return Err(Denied { given: taken });
        };
        Ok(MessageReader {
            image,
            reader: only_reader(taken),
            joiner: Joiner::new(Assembler::new(alloc, greatest)),
            waits: false,
        })
    }

    /// Where its reader stands: what the image's core sees as a consumer's position.
    pub fn position(&self) -> u64
        ensures { result ≡ position_of self.now.seat }
    {
        self.reader.position()
    }

    /// Moves its reader behind the message that was given last.
    pub fn pass(&mut self)
        ensures passes { Passes self.old self.new }
        ensures forward { (self.new.seat ≡ self.old.seat) ⊎ (position_of self.new.seat ≤ 2 ^ 61) }
    {
        if self.waits {
            let image = &*self.image;
            let _ = advance(image, &mut self.reader);
            self.waits = false;
        }
    }

    /// Reads on behind the message that was given last, up to the frame that completes the next one, at which its reader then
    /// stands until it passes it, or until no frame is left: none then. The fault is `A2` exactly where the message would be
    /// longer than the greatest, else `A1`; its reader has passed that frame. It takes no lock, and looks once for each frame and,
    /// where it answers none, once more.
    pub fn next(&mut self) -> Result<Option<Message<Global>>, AssemblyError>
        ensures answers { Answers self.old result self.new }
        ensures small { IfOk result (λ m. IfSome m (λ m. length m.bytes.items ≤ self.old.assembler.greatest)) }
    {
        self.pass();
        loop {
            match self.hear() {
                None => return Ok(None),
                Some(Ok(None)) => self.pass(),
                Some(Ok(Some(message))) => return Ok(Some(message)),
                Some(Err(error)) => {
                    self.pass();
                    return Err(error);
                }
            }
        }
    }

    /// Hands the frame where the reader stands to the assembler.
    fn hear(&mut self) -> Option<Step>
        requires { position_of self.old.seat ≡ self.old.heard_to }
        ensures none { IfNone result (FindsNone self.old self.new) }
        ensures heard { IfSome result (λ step. IfOk step (λ m. HearsOne self.old (option_map (λ x. x.bytes.items) m) self.new)) }
        ensures small { IfSome result (λ step. IfOk step (λ m. IfSome m (λ m. length m.bytes.items ≤ self.old.assembler.greatest))) }
        ensures refused { IfSome result (λ step. IfErr step (λ fault. RefusesOne self.old fault self.new)) }
    {
        let image = &*self.image;
        let Some(_) = read_with(image, &mut self.reader, &mut self.joiner) else {
            return None;
        };
        self.waits = true;
        Some(self.joiner.take_step())
    }

    /// Its reader and the image's core meet: the core sees it where it stands, and it knows just the frames that were stored.
    pub fn meet(&mut self, core: &mut ReceiverCore)
        requires { IsImage core.old.image self.old.image }
        ensures learns { Learns core.old.image self.old.seat core.new.image self.new.seat }
        ensures core { core.new ≡ record core.old { image = core.new.image } }
        ensures stays { self.new ≡ record self.old { seat = self.new.seat } }
    {
        core.learn(&mut self.reader);
    }
}
