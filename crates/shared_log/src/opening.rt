//! A log that opens.

ghost use Rattle.std.specs.Prelude.{◌↔◌, IfErr, IfOk, IsErrOf};
ghost use Rattle.position.specs.Openings.{IsConsumerCount, IsStart};
ghost use Rattle.shared_log.specs.Faults.{OfOpening};
ghost use Rattle.shared_log.specs.Steps.Handles.{IsLogOf, IsWholeNew};

use crate::fault::LogError;
use crate::handle::Handle;
use crate::home::Home;
use crate::publisher::Publisher;
use crate::steps::log::Log;
use log_rule::Key;
use position::{Geometry, Identity};
use std::alloc::Global;

/// A log that opens at a position, unconnected, with its limit at the start and so many consumers
/// there, and its one pass, which has all: the publishers, as the last of them, the consumers, and
/// the keeper. The start is judged first, then the number of consumers; then memory is asked for.
pub fn open_whole(
    alloc: Global,
    geometry: Geometry,
    session: i32,
    stream: i32,
    start: u64,
    consumers: usize,
) -> Result<(Log, Publisher), LogError>
    ensures log { IfOk result (λ r. IsLogOf (record {
      geometry = geometry;
      session = session;
      stream = stream;
    }) start consumers r.0) }
    ensures pass { IfOk result (λ r. IsWholeNew r.0 r.1) }
    ensures start { IsErrOf result LogError.Start ↔ (¬ IsStart geometry start) }
    ensures consumers { IsErrOf result LogError.Consumers
        ↔ (IsStart geometry start × (¬ IsConsumerCount consumers)) }
    ensures in_range { IfOk result (λ _. IsStart geometry start × IsConsumerCount consumers) }
    ensures memory { IsErrOf result LogError.Memory
        → IsStart geometry start × IsConsumerCount consumers }
    ensures opens { IfErr result OfOpening }
{
    if !start.is_multiple_of(32) || start >= geometry.max_position() {
        return Err(LogError::Start);
    }
    if consumers == 0 || consumers > 8 {
        return Err(LogError::Consumers);
    }
    let identity = Identity::new(geometry, session, stream);
    let key = Key {
        identity,
        start,
        consumers: consumers as u64,
    };
    let (log, pass, region) = Log::open(alloc, &key)?;
    let handle = Handle {
        pass,
        home: Some(Home { region }),
        freed: start,
        identity,
        start,
    };
    let whole = Publisher {
        handle,
        number: 7,
        share: 0,
    };
    Ok((log, whole))
}
