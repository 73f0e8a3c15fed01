//! The cycle.

ghost use Rattle.std.specs.Prelude.{◌≡◌};
ghost use Rattle.shared_log.specs.Steps.Handles.{IsOf};
ghost use Rattle.shared_log.specs.Keepers.{KeepsAs, TookSteps, with_limit};
ghost use Rattle.agents.specs.Conducting.{Conducts, ObeysNext, commanded};

use conductor::{Command, Conductor, Taker};
use shared_log::{Keeper, Log, clean_and_limit, set_closed, set_connected};
use std::sync::Wait;

/// Does what a command asks for.
fn obey(log: &Log, keeper: &mut Keeper, command: Command)
    requires { IsOf log.now keeper.old.held }
    ensures keeps { KeepsAs keeper.old (with_limit (commanded command keeper.old.limit) keeper.old) keeper.new }
    ensures once { TookSteps keeper.old 1 keeper.new }
{
    match command {
        Command::Connect => set_connected(log, keeper, true),
        Command::Disconnect => set_connected(log, keeper, false),
        Command::Close => set_closed(log, keeper),
    }
}

/// Takes a command, if one is there, and does what it asks for. Whether one was.
fn obey_next<R: Wait>(
    rt: &R,
    log: &Log,
    keeper: &mut Keeper,
    conductor: &Conductor,
    taker: &mut Taker,
) -> bool
    requires keeper { IsOf log.now keeper.old.held }
    requires taker { taker.old.queue ≡ conductor.now }
    ensures obeys { ObeysNext keeper.old taker.old result keeper.new taker.new }
    ensures fits { IsOf log.now keeper.new.held }
    ensures same_queue { taker.new.queue ≡ taker.old.queue }
{
    let Some(submitted) = conductor.take(rt, taker) else {
        return false;
    };
    obey(log, keeper, submitted.command);
    true
}

/// A cycle. Takes a command that a client has submitted, if one is there, and does what it asks for; then the keeper cleans,
/// and raises the limit. Whether a command was taken, or the limit has grown.
pub fn conduct<R: Wait>(
    rt: &R,
    log: &Log,
    keeper: &mut Keeper,
    conductor: &Conductor,
    taker: &mut Taker,
) -> bool
    requires keeper { IsOf log.now keeper.old.held }
    requires taker { taker.old.queue ≡ conductor.now }
    ensures conducts { Conducts log.now keeper.old taker.old result keeper.new taker.new }
    ensures fits { IsOf log.now keeper.new.held }
    ensures same_queue { taker.new.queue ≡ taker.old.queue }
{
    let taken = obey_next(rt, log, keeper, conductor, taker);
    let before = keeper.limit_word() / 4 * 4;
    let limit = clean_and_limit(log, keeper);
    taken || before < limit
}
