ghost use Rattle.std.specs.Prelude.{◌≤◌};
ghost use Rattle.theory.specs.Position.{max_message};

use crate::load::Load;
use loss_injector::Rates;
use position::Geometry;

/// What is to be timed.
#[derive(Clone, Copy)]
pub struct Plan {
    /// The shape of the log.
    pub geometry: Geometry,
    pub load: Load,
    /// How many of a thousand datagrams are lost.
    pub loss: u32,
    /// The same, as the driver's devices are told.
    pub rates: Rates,
    /// Where the random words begin.
    pub seed: u64,
    pub ghost short: { load.length ≤ max_message geometry },
}
