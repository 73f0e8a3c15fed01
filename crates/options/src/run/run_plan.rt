ghost use Rattle.std.specs.Prelude.{◌≤◌, ◌↔◌, IfOk, IsErrOf, IsOk};
ghost use Rattle.theory.specs.Position.{max_message};
ghost use Rattle.options.specs.Run.Defaults.{IsByDefault};
ghost use Rattle.options.specs.Run.Plans.{IsFaultless, IsFirstFault, IsPlanOf, IsPlanWith};
ghost use Rattle.options.specs.declared.run.fault.PlanFault.{PlanFault};

use crate::run::fault::PlanFault;
use crate::run::made::Plan;
use crate::run::options::RunOptions;
use loss_injector::Rates;
use position::Geometry;

/// The id of a run's first term.
const FIRST_TERM: i32 = 7;

/// What a run is told where nothing else is said: 4 publishers of 1,000 messages of 200 bytes each, one receiver, no losses,
/// the seed 1, at most 1,000,000 turns of each thread, terms of 65,536 bytes, an MTU of 1,408 bytes and no counters.
pub fn defaults() -> RunOptions
    ensures { IsByDefault result }
{
    RunOptions {
        publishers: 4,
        receivers: 1,
        messages: 1000,
        length: 200,
        loss: 0,
        repeat: 0,
        hold: 0,
        seed: 1,
        turns: 1_000_000,
        term: 65_536,
        mtu: 1408,
        counters: false,
    }
}

/// What the run is made of; its first term has the id 7. The faults are judged in this order: the term length, the MTU,
/// the length of a message, the rates.
pub fn plan(options: &RunOptions) -> Result<Plan, PlanFault>
    ensures made { IfOk result (λ p. IsPlanOf options.now p) }
    ensures accepted { IsOk result ↔ IsFaultless options.now }
    ensures fault { (f : PlanFault) → IsErrOf result f ↔ IsFirstFault options.now f }
{
    let geometry = Geometry::new(options.term, options.mtu, FIRST_TERM)?;
    if options.length > geometry.max_message() {
        return Err(PlanFault::Length);
    }
    match Rates::new(options.loss, options.repeat, options.hold) {
        Ok(rates) => Ok(planned(options, geometry, rates)),
        Err(_) => Err(PlanFault::Rates),
    }
}

/// The plan with this geometry and these rates.
fn planned(options: &RunOptions, geometry: Geometry, rates: Rates) -> Plan
    requires { options.now.length ≤ max_message geometry }
    ensures { IsPlanWith geometry rates options.now result }
{
    Plan {
        geometry,
        rates,
        publishers: options.publishers as usize,
        receivers: options.receivers as usize,
        messages: options.messages,
        length: options.length as usize,
        seed: options.seed,
        turns: options.turns,
        counters: options.counters,
    }
}
