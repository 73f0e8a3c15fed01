//! What a receiver tells is published.

ghost use Rattle.std.specs.Prelude.{◌≡◌, ◌≤◌, IfSome};
ghost use Rattle.counters.specs.Order.{IsAtMost};
ghost use Rattle.agents.specs.Publishing.{IsUpTo, having_published, shown};

use counters::{CounterWriter, Counters, Readings};
use receiver::Positions;
use std::sync::Wait;

/// The positions, as they are published.
fn readings_of(positions: Positions) -> Readings
    ensures { result ≡ shown positions }
{
    Readings {
        least: positions.least,
        rebuilt: positions.rebuilt,
        high_water: positions.high_water,
    }
}

/// Publishes these positions, if there are any.
pub(crate) fn publish<R: Wait>(
    rt: &R,
    counters: &Counters,
    told: Option<Positions>,
    writer: &mut CounterWriter,
)
    requires counters { writer.old.counters ≡ counters.now }
    requires order { IfSome told (λ p. (p.least ≤ p.rebuilt) × (p.rebuilt ≤ p.high_water)) }
    requires not_back { IsUpTo writer.old.last told }
    ensures published { writer.new ≡ having_published writer.old told }
    ensures not_back { IsAtMost writer.old.last writer.new.last }
{
    if let Some(positions) = told {
        counters.publish(rt, writer, readings_of(positions));
    }
}
