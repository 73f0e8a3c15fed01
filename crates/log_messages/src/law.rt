ghost use Rattle.log_messages.specs.Closed.{ClosedIsStream, CommitsItsClaims};
ghost use Rattle.log_messages.specs.Law.{ReadIsCommitted, ReadsAll};

use model::messages_between;

/// A law: each frame of which the messages were made was committed by a pass, in whatever state the log is.
pub fn what_is_read_is_committed()
    ensures { ReadIsCommitted }
{}

/// A law: nothing was left out. Where a log was closed with all its passes, each frame that was committed between where the reader
/// began and where it stands is one that it has read.
pub fn all_that_is_committed_is_read()
    ensures { ReadsAll }
{}

/// A law: a log that was closed with all its passes, of which each publisher has claimed some entries, is a stream: those entries, in
/// an order that keeps each publisher's. What a reader polled of it is the messages of that stream from where it began to
/// where it stands, so each publisher's in its order.
pub fn closed_log_is_a_stream()
    ensures { ClosedIsStream }
{
    // A law that the proof cites.
    messages_between();
}

/// A law: what the clauses of a publisher's calls say is what `closed_log_is_a_stream` asks of it: it has claimed these entries, and
/// committed the frames of all of them.
pub fn commits_its_claims()
    ensures { CommitsItsClaims }
{}
