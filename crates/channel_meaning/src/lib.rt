//! What goes from a publisher's input to a subscriber's output: laws over the contracts of both ends; no code.
//!
//! Where the claims of a publisher's pass, each committed whole, are the entries of a stream, in their order, the messages of
//! that stream are those that were read from its input, in their order (`publishes_its_stream`). Where besides a sender of
//! that stream lives, and each image of a subscriber of one session was handed nothing but datagrams that this sender gave out and the
//! stream's farewell, in any order and each any number of times, what `subscribe` writes is what these images gave, each a run of what
//! was read, and its beginning where the image joined at the start (`writes_what_is_read`).
//!
//! In a driver's run a subscriber whose receiver was handed datagrams alone that are honest for a stream, that refused no message,
//! and has tallied as many as the stream has, has tallied all of its messages, in their order (`tallies_all`); and the log of a run that
//! has ended is such a stream, whatever its publishers were (`tallies_all_of_a_run`).
//!
//! The log of a publisher that has ended whole is closed: what it has claimed is a stream, from the log's start to its tail, and
//! the messages of that are those that were read (`publishes_all_of_it`); its sender has lived, and knew no frames but those. So
//! what that gave out is honest for the stream, whoever was heard and by whatever groups it went on (`gives_all_honest`), and what
//! `subscribe` at any of its destinations writes of that are runs of what the publisher read (`writes_all_of_it`). Where it had one
//! image, which gave as many messages as were read, its output is a copy of the input (`copies_all_of_it`).
//!
//! A subscriber of several sessions is as many such ends, each at a place: of what it writes, what a place's images gave, if these were
//! handed nothing but what one publisher's sender gave out, are runs of what that publisher read, whatever stands between them
//! (`writes_all_at_each_place`), or a copy of it (`copies_all_at_each_place`).
//!
//! Premises are that the stream's ids and bytes can be spelled, and that datagrams are such as were given out: that a device carries
//! what it was given no law says.
#![tactic(auto)]

ghost use Rattle.channel_meaning.specs.Books.{GivesAllHonest, PublishesAllOfIt, WritesAllOfIt};
ghost use Rattle.channel_meaning.specs.Copies.{CopiesAllOfIt};
ghost use Rattle.channel_meaning.specs.Several.{CopiesAllAtEachPlace, WritesAllAtEachPlace};
ghost use Rattle.channel_meaning.specs.Streams.{PublishesItsStream, WritesWhatIsRead};
ghost use Rattle.channel_meaning.specs.Tallies.{TalliesAll, TalliesAllOfARun};

use receiver::polls_a_run;
use run::run_is_a_stream;
use run_parties::gives_a_run;
use sender_meaning::{setups_are_honest, stream_gives_honest};

/// A law: the messages of the stream that a pass published are those that were read.
pub fn publishes_its_stream()
    ensures { PublishesItsStream }
{}

/// A law: what a publisher that has ended whole has claimed is all of its log's stream, and the messages of that are those that
/// were read.
pub fn publishes_all_of_it()
    ensures { PublishesAllOfIt }
{}

/// A law: a subscriber of what a sender of the stream gave out writes runs of what the publisher read.
pub fn writes_what_is_read()
    ensures { WritesWhatIsRead }
{
    // Laws that the proof cites.
    setups_are_honest();
    publishes_its_stream();
    stream_gives_honest();
    polls_a_run();
}

/// A law: what the sender of a publisher that has ended whole gave out is honest for that stream.
pub fn gives_all_honest()
    ensures { GivesAllHonest }
{
    // Laws that the proof cites.
    publishes_all_of_it();
    stream_gives_honest();
}

/// A law: each subscriber of what the sender of a publisher that has ended whole gave out writes runs of what the publisher read.
pub fn writes_all_of_it()
    ensures { WritesAllOfIt }
{
    // Laws that the proof cites.
    publishes_all_of_it();
    writes_what_is_read();
}

/// A law: where a publisher has ended whole, and one image of the subscriber at a destination of what its sender gave out has given as
/// many messages as were read, the output there is the spelling of the input's messages, and in the same form a copy of the input.
pub fn copies_all_of_it()
    ensures { CopiesAllOfIt }
{
    // A law that the proof cites.
    writes_all_of_it();
}

/// A law: what each place of a subscriber of several sessions gave, whose images were handed nothing but what the sender of a publisher
/// that has ended whole gave out, are runs of what that publisher read.
pub fn writes_all_at_each_place()
    ensures { WritesAllAtEachPlace }
{
    // A law that the proof cites.
    writes_all_of_it();
}

/// A law: where one image at such a place has given as many messages as were read, the place gave all of them, and their spelling, in the
/// same form, is a copy of the input.
pub fn copies_all_at_each_place()
    ensures { CopiesAllAtEachPlace }
{
    // A law that the proof cites.
    writes_all_of_it();
}

/// A law: where a run's receiver was handed honest datagrams alone, its subscriber, if it has tallied as many messages as the stream
/// has, has tallied all of them, in their order.
pub fn tallies_all()
    ensures { TalliesAll }
{
    // A law that the proof cites.
    gives_a_run();
}

/// A law: the log of a run that has ended is a stream, of what its publishers have claimed. So what a receiver of the run has tallied, if
/// it was handed datagrams alone that are honest for that stream and has tallied as many messages as it has, are all of its messages, in
/// their order.
pub fn tallies_all_of_a_run()
    ensures { TalliesAllOfARun }
{
    // A law that the proof cites.
    run_is_a_stream();
}
