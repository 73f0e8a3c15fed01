//! A publisher's steps.

ghost use Rattle.std.specs.Prelude.{◌≡◌, ◌+◌, ◌-◌, ◌%◌, ◌^◌, ◌<◌, ◌≤◌, ◌∷◌, [], min, suc};
ghost use Rattle.theory.specs.Placed.{Among};
ghost use Rattle.theory.specs.Position.{framed_length, max_message};
ghost use Rattle.theory.specs.Words.{id_before, id_in, offset_in};
ghost use Rattle.publication.specs.declared.step.WordStep.TheVariants as steps;
ghost use Rattle.publication.specs.Steps.{Adds, Arms, Counts, ExchangesCount, Nexts, Rotates, Sees, addition, tail_exchange, tail_step};
ghost use Rattle.log_rule.specs.Shares.{claimed_bytes};
ghost use Rattle.log_memory.specs.Drafts.{IsDraft};
ghost use Rattle.shared_log.specs.Steps.Drafts.{IsOpenDraft, Stores};
ghost use Rattle.shared_log.specs.Steps.Handles.{IsOf, Stepped};

use crate::steps::log::Log;
use crate::steps::pass::LogPass;
use log_memory::{
    Arm, Count, Draft, ExchangeCount, See, add_open, commit_open, exchange_next, load_next,
    steps_keep,
};
use log_rule::{COUNT, packed, place_of};
use region::Region;
use std::marker::Brand;
use std::sync::Arc;

impl Log {
    /// Loads the limit word.
    #[inline(always)]
    pub(crate) fn see(&self, pass: &mut LogPass) -> u64
        requires { IsOf self.now pass.old }
        ensures stepped { Stepped (steps.Limit result ∷ []) pass.old pass.new }
        ensures told { Sees pass.old.pass result pass.new.pass }
    {
        steps_keep();
        self.memory.table.shared.load::<See>(&mut pass.seat, 0)
    }

    /// Loads the active count.
    #[inline(always)]
    pub(crate) fn count(&self, pass: &mut LogPass) -> u32
        requires { IsOf self.now pass.old }
        ensures stepped { Stepped (steps.Count result ∷ []) pass.old pass.new }
        ensures told { Counts pass.old.pass result pass.new.pass }
    {
        steps_keep();
        let table = &self.memory.table.shared;
        table.load::<Count>(&mut pass.seat, COUNT) as u32
    }

    /// Loads the tail of the count that was loaded. The pass has a publisher's parts, and its
    /// number is one of its own.
    #[inline(always)]
    pub(crate) fn arm(&self, pass: &mut LogPass, count: u32) -> u64
        requires fits { IsOf self.now pass.old }
        requires count { pass.old.pass.seen.count ≡ count }
        requires parts { 120 ≤ pass.old.pass.right.parts }
        requires own { pass.old.pass.right.parts < 1024
            → Among pass.old.pass.number pass.old.pass.right.numbers }
        ensures stepped { Stepped (tail_step pass.old.pass result ∷ []) pass.old pass.new }
        ensures told { Arms pass.old.pass result pass.new.pass }
    {
        steps_keep();
        let table = &self.memory.table.shared;
        table.load::<Arm>(&mut pass.seat, place_of(count))
    }

    /// Adds what a message of `size` bytes covers to the tail for which the pass is armed. The
    /// answers are the word that was there, and how many bytes it took.
    #[inline(always)]
    pub(crate) fn add(&self, pass: &mut LogPass, count: u32, size: u32) -> (u64, u32)
        requires fits { IsOf self.now pass.old }
        requires parts { 120 ≤ pass.old.pass.right.parts }
        requires armed { pass.old.pass.right.armed ≡ 1 }
        requires count { pass.old.pass.seen.term ≡ count }
        requires short { size ≤ max_message self.now.identity.geometry }
        ensures stepped { Stepped (addition pass.old.pass size result.0 ∷ []) pass.old pass.new }
        ensures told { Adds pass.old.pass size result.0 pass.new.pass }
        ensures low { claimed_bytes pass.new.pass < 2 ^ 63 }
        ensures taken { result.1 ≡ min (framed_length self.now.identity.geometry
            size) (self.now.identity.geometry.term_length - offset_in result.0) }
    {
        let geometry = self.identity.geometry();
        add_open::<Brand>(&self.memory, &mut pass.seat, &geometry, count, size)
    }

    /// Loads the tail behind a count's, whose term is used up.
    #[inline(always)]
    pub(crate) fn next_tail(&self, pass: &mut LogPass, count: u32) -> u64
        requires fits { IsOf self.now pass.old }
        requires full { pass.old.pass.seen.full ≡ suc count }
        requires last { count < 2 ^ 31 - 1 }
        ensures stepped { Stepped (steps.NextTail ((count
            + 1) % 3) result ∷ []) pass.old pass.new }
        ensures told { Nexts pass.old.pass count result pass.new.pass }
    {
        load_next(&self.memory.table.shared, &mut pass.seat, count)
    }

    /// Exchanges the tail behind a count's, from the word that was loaded to the next term's start.
    #[inline(always)]
    pub(crate) fn rotate(&self, pass: &mut LogPass, count: u32, from: u64) -> u64
        requires fits { IsOf self.now pass.old }
        requires parts { 0 < pass.old.pass.right.parts }
        requires full { pass.old.pass.seen.full ≡ suc count }
        requires last { count < 2 ^ 31 - 1 }
        requires from { id_in from ≡ id_before self.now.identity.geometry count 2 }
        ensures stepped { Stepped (tail_exchange pass.old.pass count from result ∷ []) pass.old
            pass.new }
        ensures told { Rotates pass.old.pass count from result pass.new.pass }
    {
        let id = self.identity.geometry().id_of(count + 1);
        let to = packed(id, 0);
        exchange_next(&self.memory.table.shared, &mut pass.seat, count, from, to)
    }

    /// Exchanges the active count from this one to the next, whose term has begun.
    #[inline(always)]
    pub(crate) fn exchange_count(&self, pass: &mut LogPass, count: u32) -> u32
        requires fits { IsOf self.now pass.old }
        requires parts { 0 < pass.old.pass.right.parts }
        requires begun { pass.old.pass.seen.begun ≡ count + 1 }
        requires last { count < 2 ^ 31 - 1 }
        ensures stepped { Stepped (steps.CountExchange count result ∷ []) pass.old pass.new }
        ensures told { ExchangesCount pass.old.pass count result pass.new.pass }
    {
        steps_keep();
        let table = &self.memory.table.shared;
        let from = u64::from(count);
        table.compare_exchange::<ExchangeCount>(&mut pass.seat, COUNT, from, from + 1) as u32
    }

    /// Commits one of the pass's open frames: its bytes are written plainly, then its first word is
    /// stored, by one step.
    #[inline(always)]
    pub(crate) fn commit(
        &self,
        pass: &mut LogPass,
        home: Arc<Region>,
        draft: &Draft<'_>,
    ) -> Arc<Region>
        requires fits { IsOf self.now pass.old }
        requires home { home.value.identity ≡ self.now.table.region }
        requires draft { IsDraft draft.now }
        requires open { IsOpenDraft self.now.identity draft.now pass.old.pass }
        ensures home { result.value.identity ≡ home.value.identity }
        ensures stepped { Stepped [] pass.old pass.new }
        ensures told { Stores draft.now pass.old.pass pass.new.pass }
    {
        commit_open::<Brand>(&self.memory, &mut pass.seat, home, draft)
    }
}
