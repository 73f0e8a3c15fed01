//! The end of a log whose publishers claim.

ghost use Rattle.std.specs.Prelude.{◌≡◌, ◌≤◌, All, [], length, vec_capacity};
ghost use Rattle.shared_log.specs.Books.{IsDone, ShowsBook};
ghost use Rattle.shared_log.specs.Steps.Handles.{IsOf};
ghost use Rattle.claims.specs.Endings.{AreAllClaimants};

use crate::claimant::Claimant;
use shared_log::{Book, Keeper, Log, LogReader, Publisher};

/// A claimant's publisher, of which nothing is open.
fn ended(log: &Log, claimant: Claimant) -> Publisher
    requires { IsOf log.now claimant }
    ensures done { IsDone log.now result }
    ensures same { result ≡ claimant }
{
    // What always holds of it, for the proof.
    let _ = log.start();
    claimant.into_parts().0
}

/// The publishers of all, in their order.
fn publishers_of(
    log: &Log,
    claimants: Vec<Claimant>,
    mut publishers: Vec<Publisher>,
) -> Vec<Publisher>
    requires of { All (IsOf log.now) claimants.items }
    requires none { publishers.items ≡ [] }
    requires room { length claimants.items ≤ vec_capacity publishers }
    ensures same { result.items ≡ claimants.items }
    ensures done { All (IsDone log.now) result.items }
{
    for claimant in claimants {
        publishers.push(ended(log, claimant)).unwrap();
    }
    publishers
}

/// Ends a log. All its claimants are handed in, with its readers, its keeper, and memory for as many publishers. Since nothing
/// of a claimant is open, all that was claimed is committed.
pub fn close(
    log: Log,
    claimants: Vec<Claimant>,
    readers: Vec<LogReader>,
    keeper: Keeper,
    memory: Vec<Publisher>,
) -> Book
    requires all { AreAllClaimants log claimants.items keeper }
    requires empty { memory.items ≡ [] }
    requires room { length claimants.items ≤ vec_capacity memory }
    ensures { ShowsBook log claimants.items result }
{
    let publishers = publishers_of(&log, claimants, memory);
    shared_log::close(log, publishers, readers, keeper)
}
