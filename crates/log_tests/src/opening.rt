//! Logs that open.

ghost use Rattle.std.specs.Prelude.{IfOk};
ghost use Rattle.shared_log.specs.Handles.{AreNew};
ghost use Rattle.shared_log.specs.Readers.{IsReaderOf};

use position::Geometry;
use shared_log::{
    Log, LogError, LogReader, Parts, Publisher, clean_and_limit, open, set_connected,
};
use std::alloc::Global;

/// A log that begins at a position, connected, with its limit half a term above it, its publishers, and its reader.
pub fn open_ready(
    alloc: Global,
    geometry: Geometry,
    start: u64,
) -> Result<(Log, [Publisher; 8], LogReader), LogError>
    ensures { IfOk result (λ r. AreNew r.0 0 r.1 × IsReaderOf r.0 r.2) }
{
    let (log, parts) = open(alloc, geometry, 1, 1001, start, 1)?;
    let Parts {
        publishers,
        mut readers,
        mut keeper,
    } = parts;
    set_connected(&log, &mut keeper, true);
    clean_and_limit(&log, &mut keeper);
    Ok((log, publishers, readers.remove(0)))
}
