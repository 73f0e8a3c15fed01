//! What a subscriber tells on its error output, a line each. An error is the output's.

ghost use Rattle.std.specs.Prelude.{◌≡◌, ◌≢◌, OnOk, Some};
ghost use Rattle.std.specs.Io.KnownBytes.{Appends};
ghost use Rattle.subscriber.specs.Texts.{IsClean, counted_text, followed_text, line_of, line_text, losses_text, refused_line, session_text, told_end_text, totals_line, totals_text, unfinished_text};

pub(crate) mod sessions;

use crate::images::{CutOff, Loss};
use crate::listening::untaken::UntakenSetup;
use frames::FaultCounts;
use receiver::Positions;
use std::io::Write;
use std::net::SocketAddr;
use std::{fmt, io};
use text::Pace;

/// A session's id.
#[derive(Clone, Copy)]
pub(crate) struct SessionId(pub i32);

impl fmt::Display for SessionId {
    ghost output = { λ id. Some (session_text id) };

    fn fmt<W: fmt::Write>(&self, f: &mut fmt::Formatter<W>) -> fmt::Result {
        write!(f, "session {}", self.0)
    }
}

/// A session of which not all is written, or no end was told.
#[derive(Clone, Copy)]
pub(crate) struct Unfinished {
    /// Its peer.
    pub from: SocketAddr,
    pub session: i32,
    /// Where the consumer stands.
    pub position: u64,
    /// The greatest end that was told.
    pub end: Option<u64>,
}

/// The end that was told, if one was.
#[derive(Clone, Copy)]
struct ToldEnd(Option<u64>);

impl fmt::Display for ToldEnd {
    ghost output = { λ told. Some (told_end_text told.0) };

    fn fmt<W: fmt::Write>(&self, f: &mut fmt::Formatter<W>) -> fmt::Result {
        match self.0 {
            None => f.write_str(" of which no end was told"),
            Some(end) => write!(f, ", and the end that was told is {end}"),
        }
    }
}

impl fmt::Display for Unfinished {
    ghost output = { λ left. Some (unfinished_text left) };

    fn fmt<W: fmt::Write>(&self, f: &mut fmt::Formatter<W>) -> fmt::Result {
        let told = ToldEnd(self.end);
        write!(
            f,
            "session {} stands at position {}{told}",
            self.session, self.position
        )
    }
}

/// What the counters show, but for the positions.
#[derive(Clone, Copy)]
pub(crate) struct Counts {
    /// How many messages were written.
    pub messages: u64,
    /// How many of them since the line before.
    pub since: u64,
    /// How many negative acknowledgements were sent.
    pub naks: u64,
    /// How many calls of the socket failed.
    pub lost: u64,
    /// How many datagrams of strangers came.
    pub strangers: u64,
    /// How many datagrams the image's receiver refused, by their faults.
    pub refused: FaultCounts,
}

/// What was asked for again, failed or was refused.
#[derive(Clone, Copy)]
struct Losses(Counts);

impl fmt::Display for Losses {
    ghost output = { λ losses. Some (losses_text losses.0) };

    fn fmt<W: fmt::Write>(&self, f: &mut fmt::Formatter<W>) -> fmt::Result {
        let Counts {
            naks,
            lost,
            strangers,
            refused,
            ..
        } = self.0;
        write!(
            f,
            "naks {naks} lost {lost} strangers {strangers} refused{refused}"
        )
    }
}

/// What the counters show: where the image stands, and what was counted.
#[derive(Clone, Copy)]
pub(crate) struct Counted(pub Positions, pub Counts);

impl fmt::Display for Counted {
    ghost output = { λ counted. Some (counted_text counted) };

    fn fmt<W: fmt::Write>(&self, f: &mut fmt::Formatter<W>) -> fmt::Result {
        let Counted(places, counts) = *self;
        let losses = Losses(counts);
        write!(
            f,
            "messages {} this-second {} least {} rebuilt {} high-water {} {losses}",
            counts.messages, counts.since, places.least, places.rebuilt, places.high_water
        )
    }
}

/// Where a subscriber without an image stands.
pub(crate) const NOWHERE: Positions = Positions {
    least: 0,
    rebuilt: 0,
    high_water: 0,
};

/// Whose bytes were written: the one session's that is followed, or those of so many.
#[derive(Clone, Copy)]
pub(crate) struct Followed {
    pub session: i32,
    pub sessions: u64,
}

impl fmt::Display for Followed {
    ghost output = { λ followed. Some (followed_text followed) };

    fn fmt<W: fmt::Write>(&self, f: &mut fmt::Formatter<W>) -> fmt::Result {
        match self.sessions {
            1 => write!(f, "session {}", self.session),
            sessions => write!(f, "{sessions} sessions"),
        }
    }
}

/// What a subscriber has done at its end.
#[derive(Clone, Copy)]
pub(crate) struct Totals {
    /// How many messages were written, and in what time from the first image on.
    pub pace: Pace,
    /// Whose last images these are, and how many bytes of their streams were written, with headers and alignment.
    pub of: Followed,
    pub bytes: u64,
    /// How many negative acknowledgements were sent.
    pub naks: u64,
}

impl fmt::Display for Totals {
    ghost output = { λ totals. Some (totals_text totals) };

    fn fmt<W: fmt::Write>(&self, f: &mut fmt::Formatter<W>) -> fmt::Result {
        let Totals {
            pace,
            of,
            bytes,
            naks,
        } = *self;
        let messages = pace.count;
        write!(
            f,
            "wrote {messages} messages, {bytes} bytes of {of}, {pace}; {naks} NAKs sent"
        )
    }
}

/// A line.
#[derive(Clone, Copy)]
pub(crate) enum Line {
    /// An image was opened at a position.
    Joined(SessionId, u64),
    /// Nothing has come of the session for 10 seconds; its consumer stands here.
    Silent(SessionId, u64),
    /// Something has come again of a session that was silent.
    Again(SessionId, u64),
    /// Nothing that the image lacks has come for 10 seconds, and its session was heard.
    Lost(SessionId, u64),
    /// What is missing between an image that was lost and the next one.
    Missing(SessionId, Loss),
    /// The image was closed, since another one is opened; its receiver has refused so many datagrams.
    Closed(SessionId, u64, FaultCounts),
    /// A SETUP of the session came from another than the peer.
    Another(SessionId, SocketAddr),
    /// A SETUP came of another session than the one that is followed, which stands last.
    Unheard(SessionId, SocketAddr, SessionId),
    /// A SETUP came that the plan doesn't take, before any image.
    NotTaken(UntakenSetup),
    /// All of the session's stream up to its told end is written.
    Ended(SessionId, u64),
    /// The same, where its publisher has told that the stream is broken off there.
    BrokenOff(SessionId, u64),
    /// A subscriber that was to end with the stream had no image for so many seconds.
    Nobody(u64),
    /// A subscriber that was to end with the stream heard nothing of it for so many seconds.
    GaveUp(u64, Unfinished),
    /// A subscriber ends of which a stream was cut off, and so many bytes are missing between the images at that one's place.
    NotWhole(CutOff, u64),
    /// The counters of a subscriber with an image of this session.
    Counters(SessionId, Counted),
    /// The counters of a subscriber without an image.
    Waiting(Counted),
    /// What it has done, in all.
    Done(Totals),
    /// What an image's receiver has refused, and how many datagrams came from strangers.
    Refused(FaultCounts, u64),
}

impl fmt::Display for Line {
    ghost output = { λ line. Some (line_text line) };

    fn fmt<W: fmt::Write>(&self, f: &mut fmt::Formatter<W>) -> fmt::Result {
        match *self {
            Line::Joined(id, at) => write!(f, "joined {id} at position {at}"),
            Line::Silent(id, at) => write!(f, "silent: {id} at position {at}, its image is kept"),
            Line::Again(id, at) => write!(f, "{id} goes on at position {at}"),
            Line::Lost(id, at) => write!(f, "lost: {id} can't be followed from position {at}"),
            Line::Missing(id, loss) => write!(f, "missing: {id} {loss}"),
            Line::Closed(id, at, refused) => write!(
                f,
                "closed: {id} at position {at}, refused{refused}"
            ),
            Line::Another(id, from) => write!(f, "another sender at {from} for {id}, not heard"),
            Line::Unheard(id, at, own) => write!(f, "not heard: {id} at {at}; {own} is followed"),
            Line::NotTaken(untaken) => write!(f, "not taken: {untaken}"),
            Line::Ended(id, at) => write!(f, "ended: {id} at position {at}"),
            Line::BrokenOff(id, at) => write!(f, "broken off: {id} at position {at}"),
            Line::Nobody(seconds) => write!(f, "gave up: nobody published for {seconds} s"),
            Line::GaveUp(seconds, left) => write!(
                f,
                "gave up: nothing was heard from {} for {seconds} s; {left}",
                left.from
            ),
            Line::NotWhole(cut, bytes) => write!(
                f,
                "not whole: {cut}, {bytes} bytes are known to be missing"
            ),
            Line::Counters(id, counted) => write!(f, "{id} {counted}"),
            Line::Waiting(counted) => write!(f, "session none {counted}"),
            Line::Done(totals) => write!(f, "{totals}"),
            Line::Refused(refused, others) => write!(f, "refused{refused} strangers {others}"),
        }
    }
}

/// Tells a line.
pub(crate) fn tell<E: Write>(errors: &mut E, line: Line) -> io::Result<()>
    ensures { OnOk result (Appends (E.contents errors.old) (E.contents errors.new) (line_of line)) }
{
    writeln!(errors, "{line}")
}

/// Tells what it has done, in all, where it was any message.
pub(crate) fn tell_totals<E: Write>(errors: &mut E, totals: Totals) -> io::Result<()>
    ensures some { totals.pace.count ≢ 0 → OnOk result (Appends (E.contents errors.old) (E.contents errors.new) (totals_line totals)) }
    ensures none { totals.pace.count ≡ 0 → OnOk result (E.contents errors.new ≡ E.contents errors.old) }
{
    if totals.pace.count == 0 {
        return Ok(());
    }
    tell(errors, Line::Done(totals))
}

/// Tells what an image's receiver has refused, and how many datagrams came from strangers, where there was any of these.
pub(crate) fn tell_refused<E: Write>(
    errors: &mut E,
    refused: FaultCounts,
    strangers: u64,
) -> io::Result<()>
    ensures told { ¬ IsClean refused strangers → OnOk result (Appends (E.contents errors.old) (E.contents errors.new) (refused_line refused strangers)) }
    ensures quiet { IsClean refused strangers → OnOk result (E.contents errors.new ≡ E.contents errors.old) }
{
    if refused.is_none() && strangers == 0 {
        return Ok(());
    }
    tell(errors, Line::Refused(refused, strangers))
}
