//! The word calls.

ghost use Rattle.std.specs.Prelude.{◌≡◌, ℕ, ◌+◌, ◌-◌, ◌%◌, ◌^◌, ◌<◌, ◌≤◌, ◌∷◌, ◌++◌, [], List, suc, length};
ghost use Rattle.theory.specs.Position.{max_message, max_position};
ghost use Rattle.theory.specs.Placed.{Data, Pad};
ghost use Rattle.theory.specs.Wire.{IsDataFlags};
ghost use Rattle.theory.specs.Words.{id_before, id_in};
ghost use Rattle.publication.specs.declared.pass.Pass.{Pass};
ghost use Rattle.publication.specs.declared.step.WordStep.{WordStep};
ghost use Rattle.publication.specs.declared.step.WordStep.TheVariants as steps;
ghost use Rattle.publication.specs.Claims.{Fills, HasBlank, PartOfCall, exactly};
ghost use Rattle.publication.specs.Steps.{Adds, Arms, Counts, ExchangesCount, Moved, Nexts, Rotates, Sees, addition, begun_word, geometry_of, tail_step};

use crate::order::InOrder;
use position::Identity;

/// What has the words of a log. Each call but `identity` and those that fill a frame is one step on one word, and its contract
/// speaks of its pass and of the word that it answers. Counts of terms lie below 2^31, positions at or below the greatest.
pub trait WordCalls {
    type Pass;

    // The pass is one of this log, and what it knows is true.
    ghost fits: { Self → Self.Pass → Type 0 };

    // What is seen of a pass.
    ghost pass_of: { Self → Self.Pass → Pass };

    // What stays of a log, whatever its passes do.
    ghost Id: { Type 0 };

    ghost id: { Self → Id };

    // Two passes of a log with different names are two.
    ghost name: { Self.Pass → ℕ };

    // From the one state to the other the pass made these steps on control words, and so many stores.
    ghost took: { Self → Self.Pass → Self → Self.Pass → List WordStep → ℕ → Type 0 };

    /// Which stream the log carries.
    fn identity(&self, pass: &Self::Pass) -> Identity
        requires { fits self.now pass.now }
        ensures { result ≡ (pass_of self.now pass.now).identity };

    /// Loads the limit word; a call begins.
    fn load_limit(&mut self, pass: &mut Self::Pass) -> u64
        requires fits { fits self.old pass.old }
        ensures moved { Moved fits pass_of name id self.old pass.old self.new pass.new }
        ensures took { took self.old pass.old self.new pass.new (steps.Limit result ∷ []) 0 }
        ensures told { Sees (pass_of self.old pass.old) result (pass_of self.new pass.new) };

    /// Loads the active count.
    fn load_count(&mut self, pass: &mut Self::Pass) -> u32
        requires fits { fits self.old pass.old }
        ensures moved { Moved fits pass_of name id self.old pass.old self.new pass.new }
        ensures took { took self.old pass.old self.new pass.new (steps.Count result ∷ []) 0 }
        ensures told { Counts (pass_of self.old pass.old) result (pass_of self.new pass.new) };

    /// Loads the raw tail of the count that was loaded last. Where it shows room below the limit that was loaded, the
    /// pass may add to it once.
    fn load_tail(&mut self, pass: &mut Self::Pass, count: u32) -> u64
        requires fits { fits self.old pass.old }
        requires count { (pass_of self.old pass.old).seen.count ≡ count }
        ensures moved { Moved fits pass_of name id self.old pass.old self.new pass.new }
        ensures took { took self.old pass.old self.new pass.new (tail_step (pass_of self.old pass.old) result ∷ []) 0 }
        ensures told { Arms (pass_of self.old pass.old) result (pass_of self.new pass.new) };

    /// Adds what a message of `size` bytes covers to the raw tail of a count's partition. The answer is the word before
    /// that, perhaps of a later term than this count's.
    fn add(&mut self, order: &InOrder, pass: &mut Self::Pass, count: u32, size: u32) -> u64
        requires fits { fits self.old pass.old }
        requires armed { (pass_of self.old pass.old).right.armed ≡ 1 }
        requires count { (pass_of self.old pass.old).seen.term ≡ count }
        requires short { size ≤ max_message (pass_of self.old pass.old).identity.geometry }
        ensures moved { Moved fits pass_of name id self.old pass.old self.new pass.new }
        ensures took { took self.old pass.old self.new pass.new (addition (pass_of self.old pass.old) size result ∷ []) 0 }
        ensures told { Adds (pass_of self.old pass.old) size result (pass_of self.new pass.new) };

    /// Loads the raw tail of the partition behind a count's, whose term is used up.
    fn load_next(&mut self, pass: &mut Self::Pass, count: u32) -> u64
        requires fits { fits self.old pass.old }
        requires full { (pass_of self.old pass.old).seen.full ≡ suc count }
        requires last { count < 2 ^ 31 - 1 }
        ensures moved { Moved fits pass_of name id self.old pass.old self.new pass.new }
        ensures took { took self.old pass.old self.new pass.new (steps.NextTail ((count + 1) % 3) result ∷ []) 0 }
        ensures told { Nexts (pass_of self.old pass.old) count result (pass_of self.new pass.new) };

    /// Exchanges the raw tail of the partition behind a count's, from the word that was loaded to the start of the next
    /// term. The answer is the word that was there.
    fn exchange_next(&mut self, pass: &mut Self::Pass, count: u32, from: u64) -> u64
        requires fits { fits self.old pass.old }
        requires full { (pass_of self.old pass.old).seen.full ≡ suc count }
        requires last { count < 2 ^ 31 - 1 }
        requires from { id_in from ≡ id_before (pass_of self.old pass.old).identity.geometry count 2 }
        ensures moved { Moved fits pass_of name id self.old pass.old self.new pass.new }
        ensures took { took self.old pass.old self.new pass.new (steps.TailExchange ((count + 1) % 3) from (begun_word (geometry_of (pass_of self.old pass.old)) count) result ∷ []) 0 }
        ensures told { Rotates (pass_of self.old pass.old) count from result (pass_of self.new pass.new) };

    /// Exchanges the active count from this one to the next, whose term has begun. The answer is the count that was
    /// there.
    fn exchange_count(&mut self, pass: &mut Self::Pass, count: u32) -> u32
        requires fits { fits self.old pass.old }
        requires begun { (pass_of self.old pass.old).seen.begun ≡ count + 1 }
        requires last { count < 2 ^ 31 - 1 }
        ensures moved { Moved fits pass_of name id self.old pass.old self.new pass.new }
        ensures took { took self.old pass.old self.new pass.new (steps.CountExchange count result ∷ []) 0 }
        ensures told { ExchangesCount (pass_of self.old pass.old) count result (pass_of self.new pass.new) };

    /// Stores a data frame into an open frame of its length, of which nothing is stored, and commits it.
    fn fill_data(
        &mut self,
        order: &InOrder,
        pass: &mut Self::Pass,
        start: u64,
        flags: u8,
        payload: &[u8],
    )
        requires fits { fits self.old pass.old }
        requires in_stream { start ≤ max_position (pass_of self.old pass.old).identity.geometry }
        requires flags { IsDataFlags flags }
        requires short { 32 + length payload.now ≤ (pass_of self.old pass.old).identity.geometry.mtu }
        requires blank { HasBlank (pass_of self.old pass.old) start (32 + length payload.now) }
        ensures part { PartOfCall fits pass_of name id took self.old pass.old self.new pass.new (exactly 1) }
        ensures fills { Fills (pass_of self.old pass.old) start (Data flags payload.now) (pass_of self.new pass.new) };

    /// Stores a padding into an open frame of its length, of which nothing is stored, and commits it.
    fn fill_padding(
        &mut self,
        order: &InOrder,
        pass: &mut Self::Pass,
        start: u64,
        frame_length: u32,
    )
        requires fits { fits self.old pass.old }
        requires in_stream { start ≤ max_position (pass_of self.old pass.old).identity.geometry }
        requires long { 32 ≤ frame_length }
        requires short { frame_length ≤ (pass_of self.old pass.old).identity.geometry.term_length }
        requires blank { HasBlank (pass_of self.old pass.old) start frame_length }
        ensures part { PartOfCall fits pass_of name id took self.old pass.old self.new pass.new (exactly 1) }
        ensures fills { Fills (pass_of self.old pass.old) start (Pad frame_length) (pass_of self.new pass.new) };

    ghost none: { (l : Self) (p : Self.Pass) → took l p l p [] 0 };

    ghost more: { (l : Self) (p : Self.Pass) (m : Self) (q : Self.Pass) (n : Self) (r : Self.Pass) (xs ys : List WordStep) (a b : ℕ) → took l p m q xs a → took m q n r ys b → took l p n r (xs ++ ys) (a + b) };
}
