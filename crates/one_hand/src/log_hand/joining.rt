//! Consumers that join and leave, by the pass that has all.

ghost use Rattle.std.specs.Prelude.{◌≡◌, ◌<◌, map, slice_index};
ghost use Rattle.one_hand.specs.Keepings.{BeginsAt, EndsAt, MayKeep};
ghost use Rattle.shared_log.specs.Joining.{HasConsumer, HasOther};
ghost use Rattle.shared_log.specs.Keepers.{flag_of};

use shared_log::{Log, Publisher, begin_consumer, end_consumer};

/// A consumer with a number that nobody has, at its place among those of the pass, begins where the least of them stands.
/// The answer has its position.
pub(crate) fn begin_as(
    log: &Log,
    all: Publisher,
    limit: u64,
    cleaned: u64,
    there: [bool; 8],
    seat: (u64, u64),
) -> (Publisher, u64)
    requires may { MayKeep log.now all limit cleaned there }
    requires low { seat.0 < 8 }
    requires free { slice_index (map flag_of there) seat.0 ≡ 0 }
    ensures { BeginsAt log.now all limit cleaned seat.0 seat.1 result.0 result.1 }
{
    let (owner, share) = (all.number(), all.share());
    let mut keeper = all.into_keeper(limit, cleaned, there);
    let position = begin_consumer(log, &mut keeper, seat.0, seat.1);
    (keeper.into_publisher(owner, share), position)
}

/// The consumer with a number, at its place among those of the pass, is none any more; another one is there.
pub(crate) fn end_as(
    log: &Log,
    all: Publisher,
    limit: u64,
    cleaned: u64,
    there: [bool; 8],
    seat: (u64, u64),
) -> Publisher
    requires may { MayKeep log.now all limit cleaned there }
    requires consumer { HasConsumer all.pass seat.1 seat.0 }
    requires other { HasOther (map flag_of there) seat.0 }
    ensures { EndsAt all limit cleaned seat.0 seat.1 result }
{
    let (owner, share) = (all.number(), all.share());
    let mut keeper = all.into_keeper(limit, cleaned, there);
    end_consumer(log, &mut keeper, seat.0, seat.1);
    keeper.into_publisher(owner, share)
}
