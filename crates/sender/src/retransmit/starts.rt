//! Frame starts in ascending order, found by halving.
ghost use Rattle.std.specs.Prelude.{◌≡◌, ◌<◌, ◌&&◌, ℕ, nat_le, nat_lt, find, filter, IfSome};
ghost use Rattle.sender.specs.Resending.Spaced.{AreSpaced, SplitsAt, begins_below as begins_so};
ghost use Rattle.std.specs.VecDeque.{deque_capacity};

use std::collections::VecDeque;

/// The first start at a position or above it.
pub(crate) fn first_from(starts: &VecDeque<u64>, position: u64) -> Option<u64>
    requires { (lower : ℕ) × (upper : ℕ) × AreSpaced lower upper starts.now.items }
    ensures { result ≡ find (λ p. nat_le position p) starts.now.items }
{
    starts.get(place_of(starts, position)).copied()
}

/// The first start in a range.
pub(crate) fn first_in(starts: &VecDeque<u64>, from: u64, end: u64) -> Option<u64>
    requires { (lower : ℕ) × (upper : ℕ) × AreSpaced lower upper starts.now.items }
    ensures first { result ≡ find (λ q. nat_le from q && nat_lt q end) starts.now.items }
    ensures below { IfSome result (λ q. q < end) }
{
    match first_from(starts, from) {
        Some(start) if start < end => Some(start),
        _ => None,
    }
}

/// How many starts are below a position.
fn place_of(starts: &VecDeque<u64>, position: u64) -> usize
    requires { (lower : ℕ) × (upper : ℕ) × AreSpaced lower upper starts.now.items }
    ensures { SplitsAt starts.now.items position result }
{
    match starts.binary_search(&position) {
        Ok(place) => place,
        Err(place) => place,
    }
}

/// Forgets those below a position.
pub(crate) fn forget_below(starts: &mut VecDeque<u64>, from: u64)
    requires { (lower : ℕ) × (upper : ℕ) × AreSpaced lower upper starts.old.items }
    ensures others { starts.new.items ≡ filter (nat_le from) starts.old.items }
    ensures room { deque_capacity starts.new ≡ deque_capacity starts.old }
{
    while begins_below(starts, from) {
        starts.pop_front();
    }
}

/// Whether the first of them is below a position.
fn begins_below(starts: &VecDeque<u64>, from: u64) -> bool
    ensures { result ≡ begins_so from starts.now.items }
{
    match starts.front() {
        Some(first) => *first < from,
        None => false,
    }
}
