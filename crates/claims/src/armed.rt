//! A claim in two halves.

ghost use Rattle.std.specs.Prelude.{◌≡◌, ◌^◌, ◌<◌, ◌≤◌, IfErr, IfOk, replicate, suc, vec_capacity, vec_len};
ghost use Rattle.theory.specs.Position.{max_payload};
ghost use Rattle.publication.specs.Claims.{Takes, TurnsFrom};
ghost use Rattle.publication.specs.Looks.{EndsTerm};
ghost use Rattle.publication.specs.Steps.{geometry_of};
ghost use Rattle.shared_log.specs.Steps.Handles.{IsOf, PublisherValue};
ghost use Rattle.claims.specs.Claimings.{AddsRange, ArmsFor, DeniesMessage, GoesOn, OpensClaim, TripsTerm};

use crate::claim::Claim;
use crate::claimant::Claimant;
use crate::denied::Denied;
use crate::equipped::Equipped;
use publication::{Look, Refusal, add_range, look_at};
use shared_log::{Log, OnLog, Publisher};
use std::alloc::Global;
use std::marker::Model;

/// A publisher that found room below the limit, and may add to the tail at which it looked, once. It must be spent, by
/// `add`.
pub struct Armed {
    equipped: Box<Equipped, Global>,
    /// The count of the term at which it looked.
    count: u32,
    /// The size of its message in bytes.
    size: u32,
}

impl Model for Armed {
    ghost use Rattle.claims.specs.Holdings.{ArmedValue, MayAdd};
    ghost use Rattle.std.specs.Prelude.{vec_capacity};

    ghost Value = { ArmedValue };

    ghost view = { λ a. record { publisher = a.equipped.value.publisher; count = a.count; size = a.size } };

    ghost invariant = { λ a. MayAdd a.equipped.value.publisher a.count a.size (vec_capacity a.equipped.value.bytes) };
}

/// Looks at a log for a claim of `length` bytes, up to the greatest payload of a frame: the limit, the active count and its
/// raw tail. It is refused at the limit and by a closed log; at the end of a term too, and the log turns to the next one.
#[inline(always)]
pub fn arm(log: &Log, claimant: Claimant, length: u32) -> Result<Armed, Denied>
    requires fits { IsOf log.now claimant }
    requires short { length ≤ max_payload log.now.identity.geometry }
    ensures armed { IfOk result (λ a. ArmsFor log.now claimant length a) }
    ensures denied { IfErr result (λ d. DeniesMessage log.now claimant length d.refusal d.claimant) }
{
    let Claimant { mut equipped } = claimant;
    let mut words = OnLog::new(log);
    let publisher = &mut equipped.as_mut().publisher;
    match look_at(&mut words, publisher) {
        Look::Open(count) => Ok(Armed {
            equipped,
            count,
            size: length,
        }),
        Look::UsedUp(count) => {
            let refusal = turn_from(&mut words, publisher, count);
            Err(Denied::new(refusal, equipped))
        }
        Look::Refused(refusal) => Err(Denied::new(refusal, equipped)),
    }
}

/// The refusal at the end of the term with this count; the log turns to the next one, if this isn't the last.
fn turn_from(words: &mut OnLog, publisher: &mut Publisher, count: u32) -> Refusal
    requires fits { IsOf words.old publisher.old }
    requires full { publisher.old.pass.seen.full ≡ suc count }
    requires last { count < 2 ^ 31 }
    ensures same { words.new ≡ words.old }
    ensures goes_on { GoesOn words.old publisher.old 0 publisher.new }
    ensures turns { Takes (TurnsFrom (geometry_of publisher.old.pass) count) publisher.old.pass publisher.new.pass }
    ensures why { EndsTerm count result }
{
    publication::turn_from(words, publisher, count)
}

impl Armed {
    /// Adds what the message covers to the tail, by one addition, whatever others did since `arm`. Where the message doesn't
    /// fit the rest of the term that the addition found, it is refused, and a padding up to that term's end is left if the
    /// addition began in it.
    #[inline(always)]
    pub fn add(self, log: &Log) -> Result<Claim, Denied>
        requires { IsOf log.now self.publisher }
        ensures added { IfOk result (λ c. AddsRange log.now self c) }
        ensures tripped { IfErr result (λ d. TripsTerm log.now self d.refusal d.claimant) }

        // With the look before it, whichever that was.
        ensures accepted { IfOk result (λ c. (p : PublisherValue) → ArmsFor log.now p self.size self → OpensClaim log.now p self.size c) }
        ensures denied { IfErr result (λ d. (p : PublisherValue) → ArmsFor log.now p self.size self → DeniesMessage log.now p self.size d.refusal d.claimant) }
    {
        let Armed {
            mut equipped,
            count,
            size,
        } = self;
        let covered = log.identity().geometry().framed_length(size);
        let Equipped {
            publisher,
            bytes,
            ..
        } = equipped.as_mut();
        match add_range(&mut OnLog::new(log), publisher, count, size) {
            Ok(start) => {
                fill(bytes, size as usize);
                let end = start + u64::from(covered);
                Ok(Claim::new(equipped, start, end))
            }
            Err(refusal) => Err(Denied::new(refusal, equipped)),
        }
    }
}

/// So many zeros, where they fit.
#[inline(always)]
fn fill(bytes: &mut Vec<u8>, count: usize)
    requires { count ≤ vec_capacity bytes.old }
    ensures zeros { bytes.new.items ≡ replicate count 0 }
    ensures count { vec_len bytes.new ≡ count }
    ensures room { vec_capacity bytes.old ≤ vec_capacity bytes.new }
{
    bytes.clear();
    let _ = bytes.resize(count, 0);
}

/// Claims a range for a message of `length` bytes, up to the greatest payload of a frame. It is accepted where an offer of
/// such a message would be, and refused as that is.
#[inline(always)]
pub fn try_claim(log: &Log, claimant: Claimant, length: u32) -> Result<Claim, Denied>
    requires fits { IsOf log.now claimant }
    requires short { length ≤ max_payload log.now.identity.geometry }
    ensures accepted { IfOk result (λ c. OpensClaim log.now claimant length c) }
    ensures denied { IfErr result (λ d. DeniesMessage log.now claimant length d.refusal d.claimant) }
{
    match arm(log, claimant, length) {
        Ok(armed) => armed.add(log),
        Err(denied) => Err(denied),
    }
}
