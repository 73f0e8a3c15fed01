//! The keeper's calls, by the pass that has all.

ghost use Rattle.one_hand.specs.Keepings.{Cleans, MayKeep, SetsLimit};
ghost use Rattle.shared_log.specs.Keepers.{closed_word, connected_word};

use shared_log::{Log, Publisher, clean_and_limit, set_closed, set_connected};

/// Says whether somebody receives the stream. The answer has the limit word.
pub(crate) fn set_connected_as(
    log: &Log,
    all: Publisher,
    limit: u64,
    cleaned: u64,
    there: [bool; 8],
    connected: bool,
) -> (Publisher, u64)
    requires may { MayKeep log.now all limit cleaned there }
    ensures { SetsLimit all (connected_word connected limit) cleaned result.0 result.1 }
{
    let (number, share) = (all.number(), all.share());
    let mut keeper = all.into_keeper(limit, cleaned, there);
    set_connected(log, &mut keeper, connected);
    let limit = keeper.limit_word();
    (keeper.into_publisher(number, share), limit)
}

/// Closes the log, for good. The answer has the limit word.
pub(crate) fn set_closed_as(
    log: &Log,
    all: Publisher,
    limit: u64,
    cleaned: u64,
    there: [bool; 8],
) -> (Publisher, u64)
    requires may { MayKeep log.now all limit cleaned there }
    ensures { SetsLimit all (closed_word limit) cleaned result.0 result.1 }
{
    let (number, share) = (all.number(), all.share());
    let mut keeper = all.into_keeper(limit, cleaned, there);
    set_closed(log, &mut keeper);
    let limit = keeper.limit_word();
    (keeper.into_publisher(number, share), limit)
}

/// Cleans and raises the limit. The answer has the limit word, the position below which nothing is readable any more, and
/// the limit.
pub(crate) fn clean_as(
    log: &Log,
    all: Publisher,
    limit: u64,
    cleaned: u64,
    there: [bool; 8],
) -> (Publisher, u64, u64, u64)
    requires may { MayKeep log.now all limit cleaned there }
    ensures { Cleans log.now all limit cleaned result.0 result.1 result.2 result.3 }
{
    let (number, share) = (all.number(), all.share());
    let mut keeper = all.into_keeper(limit, cleaned, there);
    let answer = clean_and_limit(log, &mut keeper);
    let (word, low) = (keeper.limit_word(), keeper.cleaned());
    (keeper.into_publisher(number, share), word, low, answer)
}
