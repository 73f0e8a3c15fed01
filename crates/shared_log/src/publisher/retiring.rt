//! A publisher that ends, whose claims go to another.

ghost use Rattle.std.specs.Prelude.{◌≡◌};
ghost use Rattle.shared_log.specs.Books.{IsIdle, Retires};

use crate::publisher::Publisher;
use crate::steps::log::Log;

/// Ends the second publisher: its parts, its claims and their frames, the open ones too, and its
/// share go to the first, which keeps its number and owns all that it has.
pub fn retire(log: &Log, mut publisher: Publisher, other: Publisher) -> Publisher
    requires publisher { IsIdle log.now publisher }
    requires other { IsIdle log.now other }
    ensures { Retires publisher other result }
{
    let _ = log.identity();
    let share = other.share();
    log.take_over(&mut publisher.handle.pass, other.handle.pass);
    log.weigh(&mut publisher.handle.pass);
    publisher.share += share;
    publisher
}
