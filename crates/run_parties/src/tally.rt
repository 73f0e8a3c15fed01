//! The tally.

ghost use Rattle.std.specs.Prelude.{◌≡◌, ◌+◌, ◌<◌, ◌≤◌, ◌^◌, ◌++◌, ℕ, List, [], ◌∷◌, IfNone, IfSome, length, slice_index};
ghost use Rattle.run_parties.specs.Tallies.{Continues, IsTallyOf, number_of, publisher_of};

use byteorder::{ByteOrder, LittleEndian};
use std::marker::Model;

/// How many publishers there are at the most.
pub const PUBLISHERS: usize = 8;

/// A tally of the messages that were polled.
#[derive(Debug, Drop)]
pub struct Tally {
    polled: u64,
    kept: bool,
    counts: [u64; PUBLISHERS],
}

impl Model for Tally {
    ghost use Rattle.std.specs.Prelude.{◌≡◌, length};
    ghost use Rattle.run_parties.specs.Tallies.{Counted};

    ghost Value = { Counted };

    ghost view = { λ t. record { polled = t.polled; kept = t.kept; counts = t.counts } };

    ghost invariant = { λ t. length t.counts ≡ 8 };
}

impl Tally {
    /// The tally of no message.
    pub fn new() -> Tally
        ensures { IsTallyOf [] result }
    {
        Tally {
            polled: 0,
            kept: true,
            counts: [0; PUBLISHERS],
        }
    }

    /// Whose message this is, if it is the next one of its publisher.
    fn continued(&self, message: &[u8]) -> Option<usize>
        ensures some { IfSome result (λ publisher. (publisher ≡ publisher_of message.now) × Continues self.now message.now) }
        ensures none { IfNone result (Continues self.now message.now → ⊥) }
    {
        if message.len() < 8 {
            return None;
        }
        let publisher = LittleEndian::read_u32(message) as usize;
        let number = LittleEndian::read_u32(&message[4..]);
        if publisher < PUBLISHERS && u64::from(number) == self.counts[publisher] {
            return Some(publisher);
        }
        None
    }

    /// Takes the next message. More than 2^63 of them can't be counted.
    #[tactic(auto, using(crate::proofs::Orders::goes_on, crate::proofs::Orders::breaks))]
    pub fn take(&mut self, message: &[u8])
        ensures counted { self.old.polled < 2 ^ 63 → self.new.polled ≡ self.old.polled + 1 }
        ensures tally { (messages : List (List ℕ)) → length messages < 2 ^ 63 → IsTallyOf messages self.old → IsTallyOf (messages ++ message.now ∷ []) self.new }
    {
        match self.continued(message) {
            Some(publisher) => {
                self.counts[publisher] = self.counts[publisher].wrapping_add(1);
            }
            None => self.kept = false,
        }
        self.polled = self.polled.wrapping_add(1);
    }

    /// The same once more.
    pub(crate) fn again(&self) -> Tally
        ensures { result ≡ self.now }
    {
        Tally {
            polled: self.polled,
            kept: self.kept,
            counts: self.counts,
        }
    }

    /// How many messages were taken.
    pub fn polled(&self) -> u64
        ensures { result ≡ self.now.polled }
    {
        self.polled
    }

    /// Whether each publisher's messages are its 0, 1, 2 and so on.
    pub fn is_in_order(&self) -> bool
        ensures { result ≡ self.now.kept }
    {
        self.kept
    }
}
