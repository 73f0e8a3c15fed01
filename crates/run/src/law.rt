//! What the log of a run is.

ghost use Rattle.run.specs.Streams.{RunIsAStream};

use log_messages::{closed_log_is_a_stream, commits_its_claims};
use run_parties::gives_a_run;

/// A law: the log of a run that has ended is a stream of what its publishers have claimed, each one's messages 0, 1, 2 and so on and
/// paddings, in its order. What any of its readers polled is the messages of that stream, and what a subscriber has tallied is a
/// run of them, where its receiver was handed datagrams alone that are honest for that stream.
pub fn run_is_a_stream()
    ensures { RunIsAStream }
{
    // Laws that the proof cites.
    closed_log_is_a_stream();
    commits_its_claims();
    gives_a_run();
}
