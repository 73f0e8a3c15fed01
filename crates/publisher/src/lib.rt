//! A publisher's end of a channel, of one to eight destinations: one thread reads messages and offers them (`offering`), another
//! sends them, keeps the log, notes who has received what, and decides the end (`publish_over`). Nobody waits for the one that reads:
//! it may stay at its input for ever. Where its reading has ended it is joined.
//!
//! Every datagram goes to all destinations (`endpoint::Fan`); what comes from one is screened and noted for itself by its own device
//! (`Destination`). How far the sender goes is chosen where it is opened: by the only destination's receiver, whatever its id, or by
//! the least limit of a group, whose receivers are known by the ids of their destinations (`flow_control::group_of`). So a receiver of
//! several that comes back under another id goes on where its flow stood, while who has received what goes by the ids.
//!
//! What is left at the end is the publisher's pass, which has claimed and committed the messages that were read from the input, in
//! their order, each once and whole, and paddings, up to one that was still being offered (`publish_over`, by `EndsInput`, over any
//! reader and any devices). Where it ends whole, the reading has ended at the input's end, and at each destination one receiver was
//! heard from the start to there, and no other, or nothing was to be delivered. That is what each one's own device has noted, which has
//! lived on from the one that was handed in (`ArrivesAt`; `publish`, by `PublishesAll`). Its log is closed then, with all its passes:
//! what its one publisher has claimed, in the order of the stream, tiles that from the log's start to its tail, and nobody else has
//! claimed anything; what its sender knew of the log are frames that were committed to it. Its destinations are those of the routes
//! that it was given, each over a socket that is tied to its route's peer (`IsAlong`).
//!
//! Its sender stands where the plan starts and sends from there, and its core lives by datagrams and moments as a sender does, of
//! several destinations also by a group of fewer (`StreamLived`). Each cycle goes through one of the conductor, by which the log is kept
//! (`KeepsLog`). A device takes what fails for lost, loses by the plan's rates and seed, and screens and notes the plan's stream from
//! the plan's start (`AreDestinationsAlong`); in each cycle it is told up to where the sender has sent, and what it has shown then is
//! exact (`Cycles`). Of several, those that weren't heard within the plan's wait are left out: it goes on by a group of exactly the
//! others, whose destinations get the ids from 0 on (`Begins`).
//!
//! It gives up where nothing more is waited for at any destination: the end was told, or it was silent, or nobody was heard, for too
//! long, by the silence that the cycles have shown, judged only where the socket was empty, or its receiver is left behind
//! (`EndsBehind`). Reading stops only at a full stream or the input's fault, which is told before one of sending; the texts that are
//! told are exact, and so is what is new along a destination (`news_along`, `news_text`).
//!
//! The end that is announced is the reading's (`stream_end_in`): where its messages end, and broken off there where it ended by a fault;
//! one that was stopped, or goes on, has none. Each turn announces that one where it is due, and no other (`Turns`). Where it ends whole,
//! each end that a device was given to tell is that one, and at none is the stream broken off. Where it ends short none was given
//! another, and a line was given that says why: it gave up on a destination, or its log couldn't be closed (`publish`, by
//! `SaysItsShortfall`; only giving it makes a `ToldShortfall`).
//!
//! While the reading goes on its thread hides the pass, so of a publisher that ends before it no more is said; nor which
//! datagrams went out, since its devices tell nothing; nor that anything is read or sent: `tools/channels` shows it.
#![tactic(auto)]

mod beginning;
mod channel_publisher;
mod destination;
mod destination_lines;
mod fault;
mod judging;
mod log_end;
mod offering;
mod progress;
mod sender_thread;
mod telling;
mod two_threads;

pub use beginning::{PublisherParts, parts_over};
pub use channel_publisher::{buffered, publish, publish_over};
pub use destination::{Calls, ChannelDevice, Destination, Seen};
pub use fault::PublishFault;
pub use log_end::LogEnd;
pub use offering::{InputEnd, Offered, OfferingState, Reading, ReadingEnd, ReadingFault};
pub use peer::Ending;
pub use progress::Progress;
pub use sender_thread::{Destinations, SenderPasses};
pub use telling::{Shortfall, ToldShortfall};
pub use two_threads::Published;
