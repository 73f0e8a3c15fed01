//! What a receiver of a run begins with.

ghost use Rattle.std.specs.Prelude.{◌≡◌, IfOk};
ghost use Rattle.receiver.specs.Representing.{Represents};
ghost use Rattle.run_parties.specs.Receivers.{AreReceiverParts, new_receiver};

use crate::run_log::{SESSION, STREAM};
use counters::{CounterReader, CounterWriter, Counters};
use position::Geometry;
use receiver::ReceiverCore;
use std::alloc::{AllocError, Global};
use std::sync::Arc;

/// A receiver of a run's stream that has met nothing, the bytes of the longest message that its subscriber takes, and counters at
/// zero with their writer and a reader of them.
#[derive(Drop)]
pub struct ReceiverParts {
    pub core: ReceiverCore,
    pub greatest: usize,
    pub counters: Arc<Counters>,
    pub writer: CounterWriter,
    pub reader: CounterReader,
}

/// A receiver of a run's stream that has met nothing, with this id. Its window is half a term.
fn new_core(alloc: Global, geometry: &Geometry, id: i64) -> ReceiverCore
    ensures { Represents result (new_receiver geometry.now id) }
{
    let window = geometry.term_length() / 2;
    ReceiverCore::new(alloc, SESSION, STREAM, window, id, 1)
}

/// What the receiver of a run over this geometry begins with that has this id. Messages may be as long as the geometry lets one
/// be. The error comes only where memory is refused.
pub fn receiver_parts(
    alloc: Global,
    geometry: &Geometry,
    id: i64,
) -> Result<ReceiverParts, AllocError>
    ensures { IfOk result (AreReceiverParts geometry.now id) }
{
    let (counters, mut writer) = Counters::new(alloc)?;
    let reader = counters.reader(&mut writer);
    Ok(ReceiverParts {
        core: new_core(alloc, geometry, id),
        greatest: geometry.max_message() as usize,
        counters: Arc::new(alloc, counters)?,
        writer,
        reader,
    })
}
