//! Offers of one thread.

ghost use Rattle.std.specs.Prelude.{◌≡◌, ◌+◌, IfOk, IfErr, length};
ghost use Rattle.theory.specs.Position.{IsGeometry};
ghost use Rattle.speed.specs.Rounds.{Claims, IsSender};

use publication::{Refusal, offer};
use shared_log::{Log, OnLog, Publisher};
use std::thread;

/// The bytes of a message.
pub(crate) const SIZE: usize = 200;

/// What a thread offers.
#[derive(Clone, Copy)]
pub(crate) enum Aim {
    /// Messages until one is refused at the limit, of at most 2^32 - 1 offers.
    Fill,
    /// So many messages, each again and again until it is accepted, or none can be any more; of at most 2^32 - 1 offers.
    Send(u32),
}

/// Offers a message once.
#[inline(always)]
fn offer_once(words: &mut OnLog, publisher: &mut Publisher, message: &[u8]) -> Result<u64, Refusal>
    requires sender { IsSender words.old publisher.old }
    requires legal { IsGeometry words.old.identity.geometry }
    requires size { length message.now ≡ 200 }
    ensures same { words.new ≡ words.old }
    ensures accepted { IfOk result (λ _. Claims words.old publisher.old 1 publisher.new) }
    ensures refused { IfErr result (λ _. Claims words.old publisher.old 0 publisher.new) }
{
    offer(words, publisher, message)
}

/// Offers messages until one is refused, but for an administrative action, or 2^32 - 1 were offered. It counts those that are
/// accepted.
fn fill(log: &Log, publisher: &mut Publisher) -> u32
    requires { IsSender log.now publisher.old }
    ensures { Claims log.now publisher.old result publisher.new }
{
    // What always holds of it, for the proof.
    let _ = log.identity().geometry();
    let message = [97; SIZE];
    let mut words = OnLog::new(log);
    let mut accepted: u32 = 0;
    for _ in 0..u32::MAX {
        match offer_once(&mut words, publisher, &message) {
            Ok(_) => accepted += 1,
            Err(Refusal::AdminAction) => {}
            Err(_) => break,
        }
    }
    accepted
}

/// Offers so many messages, each until it is accepted, and counts them. It ends early where nobody receives the stream, the
/// log is closed or the stream is at its last position, and after 2^32 - 1 offers.
fn send(log: &Log, publisher: &mut Publisher, messages: u32) -> u32
    requires { IsSender log.now publisher.old }
    ensures { Claims log.now publisher.old result publisher.new }
{
    // What always holds of it, for the proof.
    let _ = log.identity().geometry();
    let message = [97; SIZE];
    let mut words = OnLog::new(log);
    let mut accepted: u32 = 0;
    for _ in 0..u32::MAX {
        if accepted >= messages {
            break;
        }
        match offer_once(&mut words, publisher, &message) {
            Ok(_) => accepted += 1,
            Err(Refusal::AdminAction | Refusal::BackPressured) => thread::yield_now(),
            Err(_) => break,
        }
    }
    accepted
}

/// Offers messages, and counts those that are accepted.
pub(crate) fn offer_all(log: &Log, publisher: &mut Publisher, aim: Aim) -> u32
    requires { IsSender log.now publisher.old }
    ensures { Claims log.now publisher.old result publisher.new }
{
    match aim {
        Aim::Fill => fill(log, publisher),
        Aim::Send(messages) => send(log, publisher, messages),
    }
}
