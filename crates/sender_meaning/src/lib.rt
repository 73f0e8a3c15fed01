//! What a log's sender gives out of its stream: definitions over the contracts of a sender and its agent, and their law; no
//! code.
//!
//! A sender lives by what it meets: datagrams and moments that it is handed, at each of which it gives datagrams out
//! (`StreamLives`). To several destinations it may go on by a group of fewer in between, to one it never does
//! (`one_never_regroups`). Where all frames that it knows of its log are committed frames of a stream, whatever it heard and by
//! whatever groups it went on, each datagram that it gave out is honest for that stream, as `receiver` has it
//! (`stream_gives_honest`), and so is a farewell (`setups_are_honest`): each DATA frame and padding is a committed frame of it, in its
//! place, and each SETUP names its shape. So a subscriber that was handed nothing but such datagrams, in any order and each any number
//! of times, polls a run of the stream (`polls_what_is_sent`).
//!
//! A cycle without a fault ends with a moment that the core is told, and its life goes up to there (`StreamLivedTo`); it has heard
//! datagrams at that moment before (`CyclesAt`). A sender doesn't sleep: where a moment's new frames don't end at the flow limit or
//! after 16 datagrams, its reader has looked and found none (`looks_at_its_end`).
#![tactic(auto)]

ghost use Rattle.sender_meaning.specs.Lives.{SetupsAreHonest};
ghost use Rattle.sender_meaning.specs.StreamLives.{LooksAtItsEnd, OneNeverRegroups, PollsWhatIsSent, StreamGivesHonest, StreamKeepsItsReader};

use receiver::polls_a_run;
use theory::one_spelling;

/// A law: a SETUP of the stream's shape and of a position of it is honest for it, whatever its time to live, as a farewell is.
pub fn setups_are_honest()
    ensures { SetupsAreHonest }
{
    // A law that the proof cites.
    one_spelling();
}

/// A law: what a sender to one destination or to several gives out is honest for its stream, whatever groups it goes on by.
pub fn stream_gives_honest()
    ensures { StreamGivesHonest }
{
    // A law that the proof cites.
    one_spelling();
}

/// A law: a sender reads the log that it began with, by the same reader.
pub fn stream_keeps_its_reader()
    ensures { StreamKeepsItsReader }
{}

/// A law: to one destination it hears and is told moments alone, and goes on by no other flow control.
pub fn one_never_regroups()
    ensures { OneNeverRegroups }
{}

/// A law: a moment's new frames end at a look that found none, unless they end at a frame that may not go: its reader has missed
/// once more, or more often, then.
pub fn looks_at_its_end()
    ensures { LooksAtItsEnd }
{}

/// A law: a subscriber that was handed nothing but datagrams that a stream's sender gave out, in any order and each any number of
/// times, polls a run of that stream, from the join on.
pub fn polls_what_is_sent()
    ensures { PollsWhatIsSent }
{
    // Laws that the proof cites.
    stream_gives_honest();
    polls_a_run();
}
