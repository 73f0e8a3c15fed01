//! A keeper of a log, and its steps.

ghost use Rattle.std.specs.Prelude.{◌≡◌, ◌+◌, ◌-◌, ◌*◌, ◌/◌, ◌%◌, ◌^◌, ◌<◌, ◌≤◌, ◌&&◌, not, slice_index};
ghost use Rattle.theory.specs.Refusal.{is_closed, is_connected, limit_in};
ghost use Rattle.log_rule.specs.Claims.Packs.{slot, table_length};
ghost use Rattle.shared_log.specs.Steps.Handles.{IsOf};
ghost use Rattle.log_rule.specs.Kept.{IsThere};
ghost use Rattle.log_rule.specs.Keepings.{MayRaise, SeesConsumer};
ghost use Rattle.shared_log.specs.Keepers.{CleansAndLimits, CleansTo, IsKeeping, KeepsAs, KnowsLimit, MayCleanTo, MayRaiseFrom, SameFreed, Sweeps, TookSteps, closed_word, connected_word, flag_of, raised, reads_of, seen_positions, stored_once, there_of, with_cleaned, with_limit, with_reads};

pub(crate) mod joining;

use crate::handle::Handle;
use crate::home::Home;
use crate::steps::log::Log;
use position::Identity;
use std::marker::Model;

/// The keeper of a log.
#[derive(Drop)]
pub struct Keeper {
    pub(crate) handle: Handle,
    /// The limit word: the limit with its two flags.
    pub(crate) limit: u64,
    /// The position below which nothing is readable any more.
    pub(crate) cleaned: u64,
    /// Which consumers are there, by their numbers.
    pub(crate) there: [bool; 8],
}

impl Model for Keeper {
    ghost use Rattle.shared_log.specs.Keepers.{IsKeeper, KeeperValue};

    ghost Value = { KeeperValue };

    ghost view = { λ k. record { held = k.handle.pass; limit = k.limit; cleaned = k.cleaned } };

    ghost invariant = { λ k. IsKeeper k.handle.pass k.handle.home k.handle.freed k.limit k.cleaned k.there k.handle.identity k.handle.start };
}

impl Keeper {
    /// The limit word that it knows: the limit with its two flags.
    pub fn limit_word(&self) -> u64
        ensures { result ≡ self.now.limit }
    {
        self.limit
    }

    /// The position below which nothing is readable any more.
    pub fn cleaned(&self) -> u64
        ensures { result ≡ self.now.cleaned }
    {
        self.cleaned
    }

    /// Whether a consumer has this number, 0 to 7.
    pub fn has_consumer(&self, number: u64) -> bool
        requires { number < 8 }
        ensures { slice_index (there_of self.now) number ≡ flag_of result }
    {
        self.there[number as usize]
    }

    /// Which stream its log carries.
    pub fn identity(&self) -> Identity
        ensures { result ≡ self.now.held.pass.identity }
    {
        self.handle.identity
    }

    /// The position at which that begins.
    pub fn start(&self) -> u64
        ensures { result ≡ self.now.held.pass.start }
    {
        self.handle.start
    }
}

/// Loads the position of a consumer.
fn see(log: &Log, keeper: &mut Keeper, number: u64) -> u64
    requires fits { IsOf log.now keeper.old.held }
    requires low { number < 8 }
    requires there { IsThere (there_of keeper.old) number }
    ensures is { IsKeeping keeper.old.held.pass keeper.old.limit keeper.old.cleaned }
    ensures sees { SeesConsumer keeper.old.held.pass number result keeper.new.held.pass }
    ensures keeps { KeepsAs keeper.old (with_reads (seen_positions keeper.new) (reads_of keeper.new)
        keeper.old) keeper.new }
    ensures freed { SameFreed keeper.old keeper.new }
    ensures once { TookSteps keeper.old 1 keeper.new }
{
    log.see_consumer(&mut keeper.handle.pass, number)
}

/// The least position of the consumers that are there, each loaded once.
pub(crate) fn sweep(log: &Log, keeper: &mut Keeper) -> u64
    requires fits { IsOf log.now keeper.old.held }
    ensures { Sweeps log.now keeper.old result keeper.new }
{
    let _ = &keeper.handle;
    let mut least = log.identity().geometry().max_position();
    for number in 0..8 {
        if keeper.has_consumer(number) {
            least = least.min(see(log, keeper, number));
        }
    }
    least
}

/// Makes the memory of all frames zero and room that begin below a position, and their control
/// words zero.
fn clean_to(log: &Log, keeper: &mut Keeper, end: u64)
    requires fits { IsOf log.now keeper.old.held }
    requires may { MayCleanTo keeper.old end }
    requires low { end ≤ 2 ^ 56 }
    requires knows { KnowsLimit keeper.old }
    ensures { CleansTo log.now.identity end keeper.old keeper.new }
{
    if end <= keeper.cleaned {
        return;
    }
    let Some(home) = keeper.handle.home.take() else {
        unreachable!();
    };
    let (region, freed) = log.clean(
        &mut keeper.handle.pass,
        home.region,
        keeper.handle.freed,
        end,
    );
    keeper.handle.home = Some(Home { region });
    keeper.handle.freed = freed;
    keeper.cleaned = end;
}

/// Stores the limit word.
fn store_limit(log: &Log, keeper: &mut Keeper, word: u64)
    requires fits { IsOf log.now keeper.old.held }
    requires may { MayRaise keeper.old.held.pass word }
    ensures keeps { KeepsAs keeper.old (with_limit word keeper.old) keeper.new }
    ensures freed { SameFreed keeper.old keeper.new }
    ensures once { TookSteps keeper.old 1 keeper.new }
{
    log.raise(&mut keeper.handle.pass, word);
    keeper.limit = word;
}

/// If the log is connected and not closed, raises its limit to half a term above a position.
fn raise(log: &Log, keeper: &mut Keeper, least: u64)
    requires fits { IsOf log.now keeper.old.held }
    requires may { MayRaiseFrom keeper.old least }
    requires knows { KnowsLimit keeper.old }
    ensures keeps { KeepsAs keeper.old (with_limit (raised keeper.old.limit least
        log.now.identity.geometry.term_length) keeper.old) keeper.new }
    ensures freed { SameFreed keeper.old keeper.new }
    ensures steps { TookSteps keeper.old (stored_once keeper.old.limit keeper.new.limit) keeper.new }
{
    let half = u64::from(log.identity().geometry().term_length()) / 2;
    let limit = keeper.limit / 4 * 4;
    if keeper.limit % 4 == 1 && limit < least + half {
        store_limit(log, keeper, least + half + 1);
    }
}

/// Cleans all that is a term or more below the least consumer that is there. Then, if the log is
/// connected and not closed, raises the limit to half a term above that consumer. The answer is the
/// limit.
pub fn clean_and_limit(log: &Log, keeper: &mut Keeper) -> u64
    requires { IsOf log.now keeper.old.held }
    ensures done { CleansAndLimits log.now keeper.old keeper.new }
    ensures answer { result ≡ limit_in keeper.new.limit }
{
    let least = sweep(log, keeper);
    let length = u64::from(log.identity().geometry().term_length());
    clean_to(log, keeper, log.start().max(least.saturating_sub(length)));
    raise(log, keeper, least);
    keeper.limit / 4 * 4
}

/// Says whether somebody receives the stream, by one store.
pub fn set_connected(log: &Log, keeper: &mut Keeper, connected: bool)
    requires { IsOf log.now keeper.old.held }
    ensures keeps { KeepsAs keeper.old (with_limit (connected_word connected keeper.old.limit)
        keeper.old) keeper.new }
    ensures freed { SameFreed keeper.old keeper.new }
    ensures once { TookSteps keeper.old 1 keeper.new }
{
    let word = keeper.limit / 2 * 2 + u64::from(connected);
    store_limit(log, keeper, word);
}

/// Closes the log by one store, for good.
pub fn set_closed(log: &Log, keeper: &mut Keeper)
    requires { IsOf log.now keeper.old.held }
    ensures keeps { KeepsAs keeper.old (with_limit (closed_word keeper.old.limit) keeper.old)
        keeper.new }
    ensures freed { SameFreed keeper.old keeper.new }
    ensures once { TookSteps keeper.old 1 keeper.new }
{
    let word = keeper.limit / 4 * 4 + 2 + keeper.limit % 2;
    store_limit(log, keeper, word);
}
