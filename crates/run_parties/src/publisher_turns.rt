//! A publisher's turns.

ghost use Rattle.std.specs.Prelude.{◌≡◌, ◌≤◌, ◌+◌, ◌-◌, ◌++◌, ℕ, IfErr, IfOk, drop, length, replicate};
ghost use Rattle.byteorder.specs.Endian.{little_bytes};
ghost use Rattle.theory.specs.Position.{max_message};
ghost use Rattle.shared_log.specs.Steps.Handles.{PublisherValue};
ghost use Rattle.shared_log.specs.Books.{IsDone};
ghost use Rattle.run_parties.specs.Messages.{HasPublished, message_of};
ghost use Rattle.run_parties.specs.Passes.{Ends};
ghost use Rattle.run_parties.specs.Tallies.{number_of, publisher_of};

use crate::context::Context;
use crate::gate::{Gate, Role};
use agents::IdleStrategy;
use byteorder::{ByteOrder, LittleEndian};
use endpoint::DeviceError;
use publication::{Refusal, offer};
use shared_log::{Log, OnLog, Publisher};
use std::alloc::{AllocError, Global};
use std::time::Clock;

/// What a publisher has to do.
#[derive(Clone, Copy)]
pub struct Task {
    /// How many messages.
    pub messages: u32,
    /// Their length in bytes.
    pub length: usize,
    /// How many offers it may make.
    pub turns: u32,
}

/// A publisher that has published, and how many of its messages were accepted.
#[derive(Drop)]
pub struct Published {
    pub publisher: Publisher,
    pub accepted: u32,
}

/// Writes a publisher's number and its own count in front of a message.
#[tactic(auto, using(crate::proofs::Numbers::first_number, crate::proofs::Numbers::second_number))]
fn write_numbers(message: &mut [u8], number: u32, count: u32)
    requires { 8 ≤ length message.old }
    ensures written { message.new ≡ (little_bytes 4 number ++ little_bytes 4 count) ++ drop 8 message.old }
    ensures publisher { publisher_of message.new ≡ number }
    ensures number { number_of message.new ≡ count }
{
    LittleEndian::write_u32(message, number);
    LittleEndian::write_u32(&mut message[4..], count);
}

/// Offers a message.
fn offer_once(log: &Log, publisher: &mut Publisher, message: &[u8]) -> Result<u64, Refusal>
    requires done { IsDone log.now publisher.old }
    requires short { length message.now ≤ max_message log.now.identity.geometry }
    ensures ends { Ends log.now publisher.old publisher.new }
    ensures accepted { (p : PublisherValue) (n : ℕ) → HasPublished log.now (length message.now) n p publisher.old → message.now ≡ message_of (length message.now) p.pass.number n
        → IfOk result (λ end. HasPublished log.now (length message.now) (n + 1) p publisher.new) }
    ensures refused { (p : PublisherValue) (n : ℕ) → HasPublished log.now (length message.now) n p publisher.old
        → IfErr result (λ why. HasPublished log.now (length message.now) n p publisher.new) }
{
    offer(&mut OnLog::new(log), publisher, message)
}

/// Offers messages one after the other, each until it is accepted. The answer is how many were.
fn publish_on<R: Clock, G: Gate>(
    context: &Context<'_, R, G>,
    task: Task,
    publisher: &mut Publisher,
    message: &mut [u8],
) -> u32
    requires done { IsDone context.now.state.now.log publisher.old }
    requires zeros { message.old ≡ replicate task.length 0 }
    requires whole { 8 ≤ task.length }
    requires short { task.length ≤ max_message context.now.state.now.log.identity.geometry }
    ensures published { HasPublished context.now.state.now.log task.length result publisher.old publisher.new }
    ensures most { result ≤ task.messages }
{
    let (state, gate, number) = (context.state, context.gate, publisher.number());
    let role = Role::Publisher(number);
    let mut count: u32 = 0;
    let mut idle = IdleStrategy::new();
    for turn in 0..task.turns {
        if count >= task.messages || state.is_stopped() {
            return count;
        }
        gate.enter(role, turn);
        write_numbers(message, number as u32, count);
        let answer = offer_once(&state.log, publisher, message);
        gate.leave(role, turn);
        match answer {
            Ok(_) => {
                count += 1;
                idle.stir();
            }
            Err(Refusal::AdminAction) => {}
            Err(Refusal::BackPressured | Refusal::NotConnected) => idle.rest(context.rt),
            Err(Refusal::Closed | Refusal::MaxPositionExceeded) => return count,
        }
    }
    if count < task.messages {
        state.stop();
    }
    count
}

/// A message of zeros.
fn zero_message(alloc: Global, length: usize) -> Result<Vec<u8>, AllocError>
    ensures { IfOk result (λ m. m.items ≡ replicate length 0) }
{
    vec![in alloc; 0; length]
}

/// Offers a publisher's messages one after the other, each until it is accepted: its number and the message's own count,
/// from 0, of four bytes each, the lowest first, and zeros. It ends behind the last one, where the log is closed or used up,
/// when all is to stop, and after its turns, when it stops all. The fault is `Memory`, where memory was refused; it stops
/// all, too.
pub fn publish<R: Clock, G: Gate>(
    context: &Context<'_, R, G>,
    task: Task,
    mut publisher: Publisher,
) -> Result<Published, DeviceError>
    requires done { IsDone context.now.state.now.log publisher }
    requires whole { 8 ≤ task.length }
    requires short { task.length ≤ max_message context.now.state.now.log.identity.geometry }
    ensures published { IfOk result (λ r. HasPublished context.now.state.now.log task.length r.accepted publisher r.publisher) }
    ensures most { IfOk result (λ r. r.accepted ≤ task.messages) }
{
    let Ok(mut message) = zero_message(context.alloc, task.length) else {
        context.state.stop();
        return Err(DeviceError::Memory);
    };
    let accepted = publish_on(context, task, &mut publisher, &mut message);
    Ok(Published {
        publisher,
        accepted,
    })
}
