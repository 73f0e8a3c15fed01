//! An open claim.

ghost use Rattle.std.specs.Prelude.{◌≡◌, ◌+◌, ◌∷◌, [], vec_capacity, vec_len};
ghost use Rattle.std.specs.Borrow.{sem};
ghost use Rattle.theory.specs.Placed.{Data, Pad};
ghost use Rattle.shared_log.specs.Steps.Handles.{IsOf};
ghost use Rattle.claims.specs.Claimings.{EndsClaim};
ghost use Rattle.claims.specs.Holdings.{HasOpen, end_of, size_of};

use crate::claimant::Claimant;
use crate::equipped::Equipped;
use publication::{abort, commit};
use shared_log::{Log, OnLog};
use std::alloc::Global;
use std::marker::Model;

/// A range of the stream that is a publisher's, for one frame of a message, whose bytes are made in the publisher's block.
/// It must be spent, by `commit` or by `abort`: readers wait before it.
pub struct Claim {
    /// Its bytes are those of the message, as many as were claimed.
    equipped: Box<Equipped, Global>,
    start: u64,
    end: u64,
}

impl Model for Claim {
    ghost use Rattle.std.specs.Prelude.{vec_capacity, vec_len};
    ghost use Rattle.claims.specs.Holdings.{ClaimValue, HasOpen};

    ghost Value = { ClaimValue };

    ghost view = { λ c. record { publisher = c.equipped.value.publisher; start = c.start; bytes = c.equipped.value.bytes.items } };

    ghost invariant = { λ c. HasOpen c.equipped.value.publisher c.start c.end (vec_len c.equipped.value.bytes) (vec_capacity c.equipped.value.bytes) };
}

impl Claim {
    ghost use Rattle.claims.specs.Lending.{LendsBytes};

    #[inline(always)]
    pub(crate) fn new(equipped: Box<Equipped, Global>, start: u64, end: u64) -> Claim
        requires { HasOpen equipped.value.publisher start end (vec_len equipped.value.bytes) (vec_capacity equipped.value.bytes) }
        ensures { result ≡ record { publisher = equipped.value.publisher; start = start; bytes = equipped.value.bytes.items } }
    {
        Claim {
            equipped,
            start,
            end,
        }
    }

    /// The position at which it begins.
    pub fn start(&self) -> u64
        ensures { result ≡ self.now.start }
    {
        self.start
    }

    /// The position behind it.
    pub fn end(&self) -> u64
        ensures { result ≡ end_of self.now }
    {
        self.end
    }

    /// The bytes of its message, as many as were claimed.
    pub fn bytes(&self) -> &[u8]
        ensures { result.now ≡ self.now.bytes }
    {
        self.equipped.bytes.as_slice()
    }

    /// The bytes of its message, to be written.
    #[inline(always)]
    pub fn bytes_mut(&mut self) -> &mut [u8]
        ensures* writes_back { sem 𝓛 (LendsBytes self.entry result) }
        ensures value { result.now ≡ self.old.bytes }
    {
        self.equipped.bytes.as_mut_slice()
    }

    /// Commits the message. The answer is the claimant and the position behind the claim.
    #[inline(always)]
    pub fn commit(self, log: &Log) -> (Claimant, u64)
        requires { IsOf log.now self.publisher }
        ensures committed { EndsClaim log.now self (Data 192 self.bytes) result.0 }
        ensures end { result.1 ≡ end_of self }
    {
        let Claim {
            mut equipped,
            start,
            end,
        } = self;
        let Equipped {
            publisher,
            bytes,
            ..
        } = equipped.as_mut();
        commit(&mut OnLog::new(log), publisher, start, bytes.as_slice());
        (Claimant { equipped }, end)
    }

    /// Makes the claim a padding of the same range. The answer is the claimant and the position behind the claim.
    pub fn abort(self, log: &Log) -> (Claimant, u64)
        requires { IsOf log.now self.publisher }
        ensures aborted { EndsClaim log.now self (Pad (32 + size_of self)) result.0 }
        ensures end { result.1 ≡ end_of self }
    {
        let Claim {
            mut equipped,
            start,
            end,
        } = self;
        // What always holds of it, for the proof.
        let _ = log.identity().geometry();
        let Equipped {
            publisher,
            bytes,
            ..
        } = equipped.as_mut();
        let size = bytes.len() as u32;
        abort(&mut OnLog::new(log), publisher, start, size);
        (Claimant { equipped }, end)
    }
}
