ghost use Rattle.std.specs.Prelude.{◌≡◌, ◌<◌, ◌≤◌, ◌↔◌, None, Some, true, length, IsOk, IfOk, IfErr, IfSome, IsErrOf, MatchOption, ◌++◌};
ghost use Rattle.theory.specs.Assembly.{on_frame};
ghost use Rattle.assembler.specs.Assembling.{held_with, is_dropped};

use crate::fault::AssemblyError;
use position::{BEGIN, END, UNFRAGMENTED};
use std::alloc::{Allocator, Global};
use std::marker::Model;

/// A message: its bytes.
#[derive(Debug, Drop)]
pub struct Message<A: Allocator> {
    pub bytes: Vec<u8, A>,
}

/// Joins the frames of one consumer to messages of at most so many bytes.
#[derive(Drop)]
pub struct Assembler<A: Allocator> {
    alloc: A,
    greatest: usize,
    begun: Option<Vec<u8, A>>,
}

impl<A: Allocator> Model for Assembler<A> {
    ghost use Rattle.std.specs.Option.{option_map};
    ghost use Rattle.assembler.specs.Assembling.{Assembling};

    ghost Value = { Assembling };

    ghost view = { λ a. record { greatest = a.greatest; begun = option_map (λ v. v.items) a.begun } };
}

impl<A: Allocator + Copy> Assembler<A> {
    /// An assembler that has begun nothing, for messages of at most `greatest` bytes.
    pub fn new(alloc: A, greatest: usize) -> Assembler<A>
        ensures { result ≡ record { greatest = greatest; begun = None } }
    {
        Assembler {
            alloc,
            greatest,
            begun: None,
        }
    }

    /// Takes a DATA frame's flags and payload, and gives the message that it completes. A whole frame or a begin drops
    /// what was begun; a middle or an end with nothing begun is dropped. That wants no memory, nor does an empty payload.
    /// After an error nothing is begun. A message has no more bytes than the greatest.
    pub fn on_frame(
        &mut self,
        flags: u8,
        payload: &[u8],
    ) -> Result<Option<Message<A>>, AssemblyError>
        ensures message { IfOk result (λ m. MatchOption m ((on_frame self.old.begun flags payload.now).message ≡ None) (λ m. (on_frame self.old.begun flags payload.now).message ≡ Some m.bytes.items)) }
        ensures short { IfOk result (λ m. IfSome m (λ m. length m.bytes.items ≤ self.old.greatest)) }
        ensures state { IfOk result (λ _. self.new ≡ record self.old { begun = (on_frame self.old.begun flags payload.now).begun }) }
        ensures refused { IfErr result (λ _. self.new ≡ record self.old { begun = None }) }
        ensures dropped { is_dropped self.old.begun flags ≡ true → IsOk result }
        ensures asked { IsErrOf result AssemblyError.Memory → 0 < length payload.now }
        ensures too_long { IsErrOf result AssemblyError.TooLong ↔ (self.old.greatest < length (held_with self.old.begun flags payload.now)) }
    {
        let front = match self.begun.take() {
            _ if flags == UNFRAGMENTED || flags == BEGIN => Vec::new(self.alloc),
            Some(front) => front,
            None => return Ok(None),
        };
        let bytes = self.joined(front, payload)?;
        if flags == UNFRAGMENTED || flags == END {
            return Ok(Some(Message { bytes }));
        }
        self.begun = Some(bytes);
        Ok(None)
    }

    /// The payload behind the front, if both fit in a message.
    fn joined(&self, mut front: Vec<u8, A>, payload: &[u8]) -> Result<Vec<u8, A>, AssemblyError>
        ensures bytes { IfOk result (λ v. v.items ≡ front.items ++ payload.now) }
        ensures short { IfOk result (λ v. length v.items ≤ self.now.greatest) }
        ensures asked { IsErrOf result AssemblyError.Memory → 0 < length payload.now }
        ensures too_long { IsErrOf result AssemblyError.TooLong ↔ (self.now.greatest < length (front.items ++ payload.now)) }
    {
        if payload.len() > self.greatest || front.len() > self.greatest - payload.len() {
            return Err(AssemblyError::TooLong);
        }
        front
            .extend_from_slice(payload)
            .map_err(|_| AssemblyError::Memory)?;
        Ok(front)
    }
}
