//! What a subscriber of a run polls of its stream.

ghost use Rattle.run_parties.specs.Runs.{GivesARun};

use receiver::{reads_a_run, reads_further};

/// A law: where a receiver was handed datagrams alone that are honest for a stream, and its subscriber refused no message, that has
/// tallied a run of the stream's messages.
pub fn gives_a_run()
    ensures { GivesARun }
{
    // Laws that the proof cites.
    reads_a_run();
    reads_further();
}
