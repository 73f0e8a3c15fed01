//! What a publisher tells on its error output, a line each. An error is the output's.

ghost use Rattle.std.specs.Prelude.{◌≡◌, ◌≢◌, IsTrue, OnOk, Some};
ghost use Rattle.std.specs.Io.KnownBytes.{Appends};
ghost use Rattle.frames.specs.FaultCounts.{uncounted};
ghost use Rattle.publisher.specs.Texts.{change_in, counters_text, gave_up_line, gave_up_text, line_at, line_text, refused_line, shortfall_of, totals_line, totals_text, traffic_text, unacknowledged, whole_text};
ghost use Rattle.publisher.specs.Whys.{SaysElsewhere, SaysUnclosed};

use crate::fault::PublishFault;
use frames::FaultCounts;
use options::SECOND;
use peer::{Attendance, Behind, Ending, Heard, Tally};
use std::io::Write;
use std::net::SocketAddr;
use std::{fmt, io};
use text::Pace;

/// The session, how many messages were accepted in all and since this was told, where they end, what was told, and what the
/// device has counted.
#[derive(Clone, Copy)]
pub struct Counts {
    pub session: i32,
    pub messages: u64,
    pub recent: u64,
    pub tail: u64,
    pub told: u64,
    pub tally: Tally,
    pub lost: u64,
}

/// What went over the device.
#[derive(Clone, Copy)]
struct Traffic(Counts);

impl fmt::Display for Traffic {
    ghost output = { λ traffic. Some (traffic_text traffic.0) };

    fn fmt<W: fmt::Write>(&self, f: &mut fmt::Formatter<W>) -> fmt::Result {
        let (tally, lost) = (self.0.tally, self.0.lost);
        let (datagrams, resends) = (tally.datagrams, tally.resends);
        let (naks, disbelieved, refused) = (tally.naks, tally.disbelieved, tally.refused);
        write!(
            f,
            "datagrams {datagrams} resends {resends} naks {naks} lost {lost} disbelieved {disbelieved} refused{refused}"
        )
    }
}

impl fmt::Display for Counts {
    ghost output = { λ counts. Some (counters_text counts) };

    fn fmt<W: fmt::Write>(&self, f: &mut fmt::Formatter<W>) -> fmt::Result {
        let traffic = Traffic(*self);
        write!(
            f,
            "session {} messages {} recent {} tail {} told {} {traffic}",
            self.session, self.messages, self.recent, self.tail, self.told
        )
    }
}

/// Why a publisher gave up on a subscriber.
#[derive(Clone, Copy, Debug, PartialEq, Eq)]
pub enum Shortfall {
    /// Nobody was ever heard, for so many seconds.
    Unheard {
        seconds: u64,
    },
    /// Nothing more was heard for so many seconds of one that has acknowledged so many of so many bytes.
    Silent {
        seconds: u64,
        acknowledged: u64,
        bytes: u64,
    },
    /// One is left behind that has acknowledged so many of so many bytes: fewer than it lacks can be sent again.
    LeftBehind {
        acknowledged: u64,
        bytes: u64,
        reach: u64,
    },
    /// The stream's end was acknowledged, but not by one that was there from the start on, alone.
    Several,
    /// All was acknowledged, but the input ended elsewhere than where the stream was taken to.
    Elsewhere,
    /// All was acknowledged, but the log couldn't be closed: memory was refused, or a thread still has it.
    Unclosed,
}

/// A publisher's end towards a subscriber: its address, and why it gave up on it.
#[derive(Clone, Copy)]
pub struct GaveUp(SocketAddr, Shortfall);

impl fmt::Display for GaveUp {
    ghost output = { λ gave_up. Some (gave_up_text gave_up.0 gave_up.1) };

    fn fmt<W: fmt::Write>(&self, f: &mut fmt::Formatter<W>) -> fmt::Result {
        let peer = self.0;
        match self.1 {
            Shortfall::Unheard { seconds } => {
                write!(f, "gave up: nobody was heard at {peer} for {seconds} s")
            }
            Shortfall::Silent {
                seconds,
                acknowledged,
                bytes,
            } => write!(
                f,
                "gave up: nothing was heard from {peer} for {seconds} s; it has acknowledged {acknowledged} of {bytes} bytes"
            ),
            Shortfall::LeftBehind {
                acknowledged,
                bytes,
                reach,
            } => write!(
                f,
                "gave up: {peer} is left behind: it has acknowledged {acknowledged} of {bytes} bytes, and {reach} can be sent again"
            ),
            Shortfall::Several => write!(
                f,
                "not all was written at {peer} by one subscriber that was there from the start on"
            ),
            Shortfall::Elsewhere => write!(
                f,
                "gave up: the input ended elsewhere than where the stream was taken to"
            ),
            Shortfall::Unclosed => write!(
                f,
                "gave up: the log couldn't be closed, since memory was refused or a thread still has it"
            ),
        }
    }
}

/// What a publisher has done at its end.
#[derive(Clone, Copy)]
pub struct Totals {
    /// How many messages were accepted, and for how long it published.
    pub pace: Pace,
    /// How many bytes of the stream they are, with headers and alignment.
    pub bytes: u64,
    /// How many datagrams were sent again.
    pub resends: u64,
}

impl fmt::Display for Totals {
    ghost output = { λ totals. Some (totals_text totals) };

    fn fmt<W: fmt::Write>(&self, f: &mut fmt::Formatter<W>) -> fmt::Result {
        let Totals {
            pace,
            bytes,
            resends,
        } = *self;
        let messages = pace.count;
        write!(
            f,
            "published {messages} messages, {bytes} bytes of stream, {pace}; {resends} datagrams sent again"
        )
    }
}

/// A line.
#[derive(Clone, Copy)]
pub enum Line {
    /// The one that was heard before, with what it told last, and the one that is heard now, with what it told first.
    Changed(Heard, Heard),
    /// Nobody was heard for five seconds.
    Alone,
    /// The one that was heard is silent for five seconds, and is one of several.
    Quiet,
    /// The one that was heard there last is left behind: it stands at this position, so far behind.
    LeftBehind(SocketAddr, u64, Behind),
    /// It is heard again while it is left behind, so far.
    CameBack(SocketAddr, Behind),
    /// Nobody was heard there for so many seconds, and the others begin.
    LeftOut(SocketAddr, u64),
    /// No message comes any more behind so many, by a fault.
    BrokenOff(u64),
    /// Why it gave up on the subscriber there.
    GaveUp(GaveUp),
    /// The input was empty.
    Empty,
    /// The counters.
    Counters(Counts),
    /// What it has done, in all.
    Done(Totals),
    /// How many datagrams were refused, by their faults.
    Refused(FaultCounts),
}

impl fmt::Display for Line {
    ghost output = { λ line. Some (line_text line) };

    fn fmt<W: fmt::Write>(&self, f: &mut fmt::Formatter<W>) -> fmt::Result {
        match *self {
            Line::Changed(left, present) => write!(
                f,
                "receiver {} left at position {}, receiver {} joined at position {}",
                left.receiver, left.last, present.receiver, present.first
            ),
            Line::Alone => write!(
                f,
                "nobody was heard for 5 s: no subscriber is there, or it follows another publisher, or takes another stream or session, or only shorter terms"
            ),
            Line::Quiet => write!(f, "nothing was heard for 5 s: the others go on without it"),
            Line::LeftBehind(peer, position, behind) => write!(
                f,
                "{peer} is left behind: it stands at position {position}, {} bytes behind, of which {} can be sent again",
                behind.missing, behind.reach
            ),
            Line::CameBack(peer, behind) => write!(
                f,
                "{peer} came back {} bytes behind, of which {} can be sent again",
                behind.missing, behind.reach
            ),
            Line::LeftOut(peer, seconds) => write!(
                f,
                "nobody was heard at {peer} for {seconds} s: the others begin without it"
            ),
            Line::BrokenOff(messages) => write!(
                f,
                "the stream is broken off behind {messages} messages: they are delivered first"
            ),
            Line::GaveUp(gave_up) => write!(f, "{gave_up}"),
            Line::Empty => write!(f, "the input was empty: nothing was published"),
            Line::Counters(counts) => write!(f, "{counts}"),
            Line::Done(totals) => write!(f, "{totals}"),
            Line::Refused(refused) => write!(f, "refused{refused}"),
        }
    }
}

/// Tells a line. Where it is about one of several destinations, the address of that stands before it.
pub fn tell<E: Write>(errors: &mut E, label: Option<SocketAddr>, line: Line) -> io::Result<()>
    ensures { OnOk result (Appends (E.contents errors.old) (E.contents errors.new) (line_at label line)) }
{
    match label {
        None => writeln!(errors, "{line}"),
        Some(peer) => writeln!(errors, "{peer}: {line}"),
    }
}

/// Another receiver is heard than before, if one is.
pub fn change_in(attendance: &Attendance) -> Option<Line>
    ensures { result ≡ change_in attendance.now }
{
    match (attendance.left, attendance.present) {
        (Some(left), Some(present)) => Some(Line::Changed(left, present)),
        _ => None,
    }
}

/// What one lacks that has acknowledged so many of so many bytes: it is left behind so far, if it is, or silent for so many seconds.
fn unacknowledged(behind: Option<Behind>, seconds: u64, acknowledged: u64, bytes: u64) -> Shortfall
    ensures { result ≡ unacknowledged behind seconds acknowledged bytes }
{
    match behind {
        None => Shortfall::Silent {
            seconds,
            acknowledged,
            bytes,
        },
        Some(behind) => Shortfall::LeftBehind {
            acknowledged,
            bytes,
            reach: behind.reach,
        },
    }
}

/// What a publisher that ends short lacks of a subscriber, by whom it has heard, where its stream ends, if its input has
/// ended, how far that has come, for how many nanoseconds no status message was noted, and how far that is left behind, if it is.
pub fn shortfall_of(
    attendance: &Attendance,
    end: Option<u64>,
    tail: u64,
    unheard: u64,
    behind: Option<Behind>,
) -> Shortfall
    ensures { result ≡ shortfall_of attendance.now end tail unheard behind }
{
    let seconds = unheard / SECOND;
    let start = attendance.start;
    match attendance.present {
        None => Shortfall::Unheard { seconds },
        Some(_) if attendance.is_told(end) => Shortfall::Several,
        Some(heard) => unacknowledged(
            behind,
            seconds,
            heard.last.saturating_sub(start),
            tail.saturating_sub(start),
        ),
    }
}

/// A line that was given to an output: why a publisher gave up on the subscriber there. Only who gives it makes one.
#[derive(Clone, Copy)]
pub struct ToldShortfall {
    pub peer: SocketAddr,
    pub shortfall: Shortfall,
    /// Whether the output took it.
    taken: bool,
}

/// Gives the line of why it gave up on the subscriber there.
pub fn tell_why<E: Write>(errors: &mut E, peer: SocketAddr, shortfall: Shortfall) -> ToldShortfall
    ensures why { (result.peer ≡ peer) × (result.shortfall ≡ shortfall) }
    ensures line { IsTrue result.taken → Appends (E.contents errors.old) (E.contents errors.new) (gave_up_line peer shortfall) }
{
    let line = Line::GaveUp(GaveUp(peer, shortfall));
    let taken = tell(errors, None, line).is_ok();
    ToldShortfall {
        peer,
        shortfall,
        taken,
    }
}

/// That a publisher ends whole of a stream from `start` to `tail` is told where nothing was published.
pub fn tell_whole<E: Write>(errors: &mut E, start: u64, tail: u64) -> io::Result<()>
    ensures { OnOk result (Appends (E.contents errors.old) (E.contents errors.new) (whole_text start tail)) }
{
    if tail == start {
        return tell(errors, None, Line::Empty);
    }
    Ok(())
}

/// Where it ends short and no line has said why, one does now: the input ended elsewhere than where the stream was taken to.
pub fn tell_if_elsewhere<E: Write>(
    errors: &mut E,
    peer: SocketAddr,
    told: Option<ToldShortfall>,
    ending: &Result<Ending, PublishFault>,
) -> Option<ToldShortfall>
    ensures { SaysElsewhere peer told ending.now result }
{
    match (told, ending) {
        (Some(told), _) => Some(told),
        (None, Ok(Ending::Short)) => Some(tell_why(errors, peer, Shortfall::Elsewhere)),
        (None, _) => None,
    }
}

/// Where all was sent and its log couldn't be closed, a line says so.
pub fn tell_if_unclosed<E: Write>(
    errors: &mut E,
    peer: SocketAddr,
    told: Option<ToldShortfall>,
    sent: &Result<Ending, PublishFault>,
    ending: &Result<Ending, PublishFault>,
) -> Option<ToldShortfall>
    ensures { SaysUnclosed peer told sent.now ending.now result }
{
    match (sent, ending) {
        (Ok(Ending::Whole), Ok(Ending::Short)) => Some(tell_why(errors, peer, Shortfall::Unclosed)),
        _ => told,
    }
}

/// What it has done, in all, where it was any message.
pub fn tell_totals<E: Write>(errors: &mut E, totals: Totals) -> io::Result<()>
    ensures some { totals.pace.count ≢ 0 → OnOk result (Appends (E.contents errors.old) (E.contents errors.new) (totals_line totals)) }
    ensures none { totals.pace.count ≡ 0 → OnOk result (E.contents errors.new ≡ E.contents errors.old) }
{
    if totals.pace.count == 0 {
        return Ok(());
    }
    tell(errors, None, Line::Done(totals))
}

/// How many datagrams were refused, by their faults, where any was.
pub fn tell_refused<E: Write>(
    errors: &mut E,
    label: Option<SocketAddr>,
    refused: FaultCounts,
) -> io::Result<()>
    ensures told { refused ≢ uncounted → OnOk result (Appends (E.contents errors.old) (E.contents errors.new) (refused_line label refused)) }
    ensures quiet { refused ≡ uncounted → OnOk result (E.contents errors.new ≡ E.contents errors.old) }
{
    if refused.is_none() {
        return Ok(());
    }
    tell(errors, label, Line::Refused(refused))
}
