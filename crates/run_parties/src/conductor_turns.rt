//! The conductor's turns.

ghost use Rattle.std.specs.Prelude.{◌≡◌};
ghost use Rattle.agents.specs.Conducting.{Conducts};
ghost use Rattle.run_parties.specs.Passes.{IsKept};

use crate::context::Context;
use crate::gate::{Gate, Role};
use crate::run_state::RunState;
use agents::{IdleStrategy, conduct};
use conductor::Taker;
use shared_log::Keeper;
use std::sync::Wait;
use std::time::Clock;

/// A cycle of the conductor.
fn steer_once<R: Wait>(rt: &R, state: &RunState, keeper: &mut Keeper, taker: &mut Taker) -> bool
    requires keeper { IsKept state.now.log keeper.old }
    requires taker { taker.old.queue ≡ state.now.conductor }
    ensures keeper { IsKept state.now.log keeper.new }
    ensures taker { taker.new.queue ≡ taker.old.queue }
    ensures conducts { Conducts state.now.log keeper.old taker.old result keeper.new taker.new }
{
    conduct(rt, &state.log, keeper, &state.conductor, taker)
}

/// Takes commands, cleans and raises the limit, until all is to stop or its turns are used, and then stops all.
pub fn steer<R: Wait + Clock, G: Gate>(
    context: &Context<'_, R, G>,
    mut keeper: Keeper,
    mut taker: Taker,
) -> Keeper
    requires keeper { IsKept context.now.state.now.log keeper }
    requires taker { taker.queue ≡ context.now.state.now.conductor }
    ensures { IsKept context.now.state.now.log result }
{
    let mut idle = IdleStrategy::new();
    for turn in 0..context.turns {
        if context.state.is_stopped() {
            break;
        }
        context.gate.enter(Role::Conductor, turn);
        let busy = steer_once(context.rt, context.state, &mut keeper, &mut taker);
        context.gate.leave(Role::Conductor, turn);
        idle.after(context.rt, busy);
    }
    context.state.stop();
    keeper
}
