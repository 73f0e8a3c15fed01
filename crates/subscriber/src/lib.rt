//! A subscriber's end of a channel: `subscribe` listens until a SETUP opens an image, writes each message as soon as it is
//! polled, and only then hears and answers, so that no status message tells of a message that isn't written. Each further session
//! that sends a SETUP gets an image of its own, at a place of its own, up to 16 at a time.
//!
//! - `listening`: the socket, at the one place where it is read (`Reception`); what a datagram is before there is an image
//!   (`Call`), which SETUP opens one (`SetupOffer`), and with which window.
//! - `images`: a session that is followed (`Session`), its device, which takes what was routed to it and sends (`SessionDevice`),
//!   the greatest end that was told and whether its stream was heard (`Follower`), and the cycle that polls, writes and hears
//!   (`delivery`); which stream was cut off at its place (`CutOff`); all of them (`Sessions`).
//! - `subscription`: what a subscriber does in each turn (`follow`), and what it makes of SETUPs (`offers`).
//! - `repeating`: a second thread that sends the last status message of each place again, byte for byte and to the same peer, where
//!   300 ms have gone by without a newer one, and nothing else ever (`repeats_the_last`). So a publisher goes on hearing a
//!   subscriber whose output blocks.
//! - `reporting`: the lines of the error output, each with its exact text (`Line`).
//! - `watch`: the time that was seen, whatever the sessions. When a session is silent, quiet or behind, its own watch says
//!   (`SessionWatch`, in `images`).
//!
//! Where `subscribe` ends without a fault, a writer that tells what it holds has grown by whole messages, at most as many as
//! were wanted: those that the polls of its images gave, of each session in order (`WritesPlaces`; with one place that is
//! `WritesLives`: `one_place_writes`). How it ends, `HasEnded` says: whole only where nothing is lost of any stream that was heard
//! (`AreUnlost`). Behind a fault a part of the last message may be written; all of
//! which a status message may have told is written whole (`BreaksPlaces`). Which datagrams came isn't said, since a device tells
//! nothing of them; nor that anything comes, when an output fails, or that a flush carries bytes on. That the second thread gets its
//! turns in time, `tools/channels` shows.
#![tactic(auto)]

mod ending;
mod fault;
mod images;
mod laws;
mod listening;
mod repeating;
mod reporting;
mod subscription;
mod watch;

pub use ending::{Ending, Subscribed};
pub use fault::SubscribeFault;
pub use images::delivery::Delivered;
pub use images::follower::greatest_ends;
pub use images::session::{Stand, lacks_where_lost};
pub use laws::{each_place_writes, one_place_breaks, one_place_writes, one_session_ends};
pub use listening::setup_offer::alone_gets_all;
pub use repeating::repeater::repeats_the_last;
pub use subscription::subscribe;
