//! Two publishers that meet.

ghost use Rattle.std.specs.Prelude.{◌≡◌};
ghost use Rattle.log_rule.specs.Claims.Plays.{no_keeping};
ghost use Rattle.shared_log.specs.Books.{IsIdle};
ghost use Rattle.shared_log.specs.Steps.Meets.{Meets};

use crate::publisher::Publisher;
use crate::steps::log::Log;

/// Two publishers meet: what they have claimed is apart. The answer is the greatest position that
/// the three raw tails show, each loaded in this call; none that either has claimed or was shown
/// before lies above it. Both remember it, so that no later answer to one of them is smaller
/// (`meets_never_fall`). What they have open stays with each.
pub fn meet(log: &Log, mut one: Publisher, mut other: Publisher) -> (Publisher, Publisher, u64)
    requires one { IsIdle log.now one }
    requires other { IsIdle log.now other }
    requires publisher { other.pass.keeping ≡ no_keeping }
    ensures { Meets one other result.0 result.1 result.2 }
{
    let tail = log.meet(&mut one.handle.pass, &mut other.handle.pass);
    (one, other, tail)
}
