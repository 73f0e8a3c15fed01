//! A log that is ready for a round.

ghost use Rattle.std.specs.Prelude.{◌≡◌, IfErr, IfOk};
ghost use Rattle.speed.specs.Rounds.{IsReady};

use crate::rounds::lane::{Lane, lanes_of};
use position::Geometry;
use shared_log::{Keeper, Log, LogError, LogReader, Parts, clean_and_limit, open, set_connected};
use std::alloc::Global;

/// A log that begins at 0, connected, with its limit half a term above; its publishers, which have claimed nothing, its one
/// reader and its keeper.
#[derive(Drop)]
pub(crate) struct Ready {
    pub(crate) log: Log,
    pub(crate) lanes: [Lane; 8],
    pub(crate) readers: Vec<LogReader>,
    pub(crate) keeper: Keeper,
}

/// Opens a log for a round. It fails only where memory is refused.
pub(crate) fn open_ready(alloc: Global, geometry: Geometry) -> Result<Ready, LogError>
    ensures ready { IfOk result (λ r. IsReady geometry r) }
    ensures memory { IfErr result (λ e. e ≡ LogError.Memory) }
{
    // What always holds of it, for the proof.
    let _ = geometry.max_position();
    let (log, parts) = open(alloc, geometry, 1, 1001, 0, 1)?;
    let Parts {
        publishers,
        readers,
        mut keeper,
    } = parts;
    set_connected(&log, &mut keeper, true);
    clean_and_limit(&log, &mut keeper);
    Ok(Ready {
        log,
        lanes: lanes_of(publishers),
        readers,
        keeper,
    })
}
