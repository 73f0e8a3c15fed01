//! The end of a round.

ghost use Rattle.std.specs.Prelude.{◌≡◌, IfOk};
ghost use Rattle.std.specs.List.{AllByRecursion};
ghost use Rattle.log_rule.specs.Claims.Sums.{total};
ghost use Rattle.speed.specs.Rounds.{IsFilled, IsKept, IsLane, parts_of};

use crate::rounds::lane::{Lane, taken_apart};
use shared_log::{Book, Keeper, Log, LogReader, close};
use std::alloc::{AllocError, Global};

/// Gives all publishers back and closes the log. The number is that of the accepted offers.
pub(crate) fn close_all(
    alloc: Global,
    log: Log,
    lanes: [Lane; 8],
    readers: Vec<LogReader>,
    keeper: Keeper,
) -> Result<(Book, u64), AllocError>
    requires start { log.start ≡ 0 }
    requires lanes { AllByRecursion (IsLane log) lanes }
    requires whole { total parts_of lanes ≡ 1016 }
    requires keeper { IsKept log keeper }
    ensures { IfOk result (λ r. IsFilled log.identity.geometry r.0 r.1) }
{
    let (publishers, accepted) = taken_apart(lanes);
    let publishers = Vec::from_array(alloc, publishers)?;
    Ok((close(log, publishers, readers, keeper), accepted))
}
