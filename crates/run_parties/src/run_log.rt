//! The log of a run.

ghost use Rattle.std.specs.Prelude.{◌≤◌, IfOk};
ghost use Rattle.run_parties.specs.RunLogs.{IsNewRunLog};

use agents::{LogPasses, open_log};
use position::{Geometry, Identity};
use shared_log::{Keeper, Log, LogReader, Publisher};
use std::alloc::{AllocError, Global};

/// The session of a run's stream.
pub const SESSION: i32 = 1;

/// The id of a run's stream.
pub const STREAM: i32 = 1001;

/// The log of a run with its passes.
#[derive(Drop)]
pub struct RunLog {
    pub log: Log,
    /// The publishers that take part.
    pub publishers: Vec<Publisher>,
    /// The others.
    pub others: Vec<Publisher>,
    pub reader: LogReader,
    pub keeper: Keeper,
}

/// Opens the log of a run for so many publishers, those with the lowest numbers. The error comes only where memory is refused.
pub fn open_run_log(alloc: Global, geometry: Geometry, count: usize) -> Result<RunLog, AllocError>
    requires { count ≤ 8 }
    ensures { IfOk result (IsNewRunLog geometry count) }
{
    let identity = Identity::new(geometry, SESSION, STREAM);
    let _geometry = identity.geometry();
    let LogPasses {
        log,
        mut publishers,
        reader,
        keeper,
    } = open_log(alloc, identity, 0)?;
    let others = publishers.split_off(count)?;
    Ok(RunLog {
        log,
        publishers,
        others,
        reader,
        keeper,
    })
}
