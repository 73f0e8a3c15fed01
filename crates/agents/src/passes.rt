//! A log that opens for the agents of one stream.

ghost use Rattle.std.specs.Prelude.{IfOk};
ghost use Rattle.position.specs.Openings.{IsStart};
ghost use Rattle.agents.specs.NewPasses.{AreNewPasses};

use position::Identity;
use shared_log::{Keeper, Log, LogReader, Parts, Publisher, open};
use std::alloc::{AllocError, Global};

/// A log with one reader, and all its passes.
#[derive(Drop)]
pub struct LogPasses {
    pub log: Log,
    /// By their numbers, 0 to 7.
    pub publishers: Vec<Publisher>,
    /// The sender's.
    pub reader: LogReader,
    /// The conductor's.
    pub keeper: Keeper,
}

/// Opens the log of a stream at a position, with one reader there. The error comes only where memory is refused.
pub fn open_log(alloc: Global, identity: Identity, start: u64) -> Result<LogPasses, AllocError>
    requires { IsStart identity.geometry start }
    ensures { IfOk result (AreNewPasses identity start) }
{
    let geometry = identity.geometry();
    let (session, stream) = (identity.session(), identity.stream());
    let Ok((log, parts)) = open(alloc, geometry, session, stream, start, 1) else {
        return Err(AllocError);
    };
    let Parts {
        publishers,
        mut readers,
        keeper,
    } = parts;
    let publishers = Vec::from_array(alloc, publishers)?;
    Ok(LogPasses {
        log,
        publishers,
        reader: readers.remove(0),
        keeper,
    })
}
