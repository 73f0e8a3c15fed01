//! The plan of a measurement.

ghost use Rattle.std.specs.Prelude.{IfOk};
ghost use Rattle.bench.specs.TimingPlans.{IsTimingPlan};

use crate::timing::TimingOptions;
use latency::{Load, Plan};
use loss_injector::Rates;
use position::Geometry;
use thiserror::Error;

/// Why what a measurement is told makes no plan.
#[derive(Clone, Copy, Debug, Error)]
pub enum TimingFault {
    /// The term length is no power of two, or the MTU no multiple of 32 or more than an eighth of it.
    #[error("--term takes a power of two, and --mtu a multiple of 32 up to an eighth of it")]
    Geometry,
    /// A message may have so many bytes at the most.
    #[error("--length takes at most {0}, an eighth of the term")]
    Length(u32),
    /// There are fewer messages than publishers.
    #[error("--messages takes at least as many as publishers")]
    Few,
}

/// The id of the first term.
const FIRST_TERM: i32 = 7;

/// What is timed, as it is told; each publisher has an equal share of the messages, rounded down. The faults are judged
/// in this order: the term length and the MTU, the length of a message, how many messages there are.
pub fn timing_plan(options: &TimingOptions) -> Result<Plan, TimingFault>
    ensures { IfOk result (λ p. IsTimingPlan options.now p) }
{
    let Ok(geometry) = Geometry::new(options.term, options.mtu, FIRST_TERM) else {
        return Err(TimingFault::Geometry);
    };
    if options.length > geometry.max_message() {
        return Err(TimingFault::Length(geometry.max_message()));
    }
    if options.messages < options.publishers {
        return Err(TimingFault::Few);
    }
    let load = Load {
        publishers: options.publishers,
        length: options.length as usize,
        messages: options.messages / options.publishers,
        rate: options.rate,
    };
    Ok(Plan {
        geometry,
        load,
        loss: options.loss,
        rates: Rates::new(options.loss, 0, 0).unwrap(),
        seed: options.seed,
    })
}
