//! A publisher that claims under another number.

ghost use Rattle.std.specs.Prelude.{◌≡◌, ◌<◌};
ghost use Rattle.shared_log.specs.Steps.Handles.{IsOf};

use crate::publisher::Publisher;
use crate::steps::log::Log;

/// The publisher, which has all parts, claims under this number from then on. It keeps what it has
/// and what it knows, and makes no step.
pub fn renumber(log: &Log, publisher: &mut Publisher, number: u64)
    requires fits { IsOf log.now publisher.old }
    requires number { number < 8 }
    requires whole { publisher.old.pass.right.parts ≡ 1024 }
    ensures { publisher.new ≡ record publisher.old {
      pass = record publisher.old.pass { number = number };
    } }
{
    log.renumber(&mut publisher.handle.pass, number);
    publisher.number = number;
}
