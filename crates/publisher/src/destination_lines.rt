//! What a publisher tells of its destinations on its error output.

ghost use Rattle.std.specs.Prelude.{◌≡◌, true, IfNone, IfSome, None, OnOk};
ghost use Rattle.std.specs.Io.KnownBytes.{Appends};
ghost use Rattle.std.specs.List.{list_all};
ghost use Rattle.peer.specs.declared.attendance.Ending.TheVariants.{Short, Whole};
ghost use Rattle.publisher.specs.Endings.{is_whole_along};
ghost use Rattle.publisher.specs.Judges.{IsToldOf, IsUnwritten, last_of};
ghost use Rattle.publisher.specs.News.{alone_line, back_line, behind_line, behind_text, change_line, heard_text, news_text, quiet_line, text_if};

use crate::destination::{ChannelDevice, Destination, News};
use crate::progress::{Progress, told_in};
use crate::sender_thread::PublisherContext;
use crate::telling::{
    Counts, Line, ToldShortfall, Totals, change_in, shortfall_of, tell, tell_refused, tell_totals,
    tell_whole, tell_why,
};
use endpoint::Datagrams;
use peer::{Attendance, Behind, Ending};
use std::io;
use std::io::Write;
use std::net::SocketAddr;
use text::Pace;

/// Another receiver is heard than before.
fn change_line(changed: bool, attendance: &Attendance) -> Option<Line>
    ensures { result ≡ change_line changed attendance.now }
{
    if changed { change_in(attendance) } else { None }
}

/// Nobody was heard.
fn alone_line(alone: bool) -> Option<Line>
    ensures { result ≡ alone_line alone }
{
    if alone { Some(Line::Alone) } else { None }
}

/// One of several is silent.
fn quiet_line(quiet: bool, label: Option<SocketAddr>) -> Option<Line>
    ensures { result ≡ quiet_line quiet label }
{
    if quiet && label.is_some() {
        Some(Line::Quiet)
    } else {
        None
    }
}

/// One is left behind so far, if it is, and stands here.
fn behind_line(peer: SocketAddr, position: u64, behind: Option<Behind>) -> Option<Line>
    ensures { result ≡ behind_line peer position behind }
{
    match behind {
        None => None,
        Some(behind) => Some(Line::LeftBehind(peer, position, behind)),
    }
}

/// One is heard again while it is left behind so far, if it is.
fn back_line(peer: SocketAddr, back: Option<Behind>) -> Option<Line>
    ensures { result ≡ back_line peer back }
{
    match back {
        None => None,
        Some(behind) => Some(Line::CameBack(peer, behind)),
    }
}

/// Tells a line, if there is one.
#[tactic(auto, using(crate::proofs::NewsLines::none))]
fn tell_if<E: Write>(
    errors: &mut E,
    label: Option<SocketAddr>,
    line: Option<Line>,
) -> io::Result<()>
    ensures { OnOk result (Appends (E.contents errors.old) (E.contents errors.new) (text_if label line)) }
{
    match line {
        None => Ok(()),
        Some(line) => tell(errors, label, line),
    }
}

/// Tells who is heard along a destination, or that nobody is, where that is new.
#[tactic(auto, using(crate::proofs::NewsLines::both))]
fn tell_heard<D: Datagrams, E: Write>(
    errors: &mut E,
    destination: &Destination<ChannelDevice<D>>,
    news: News,
) -> io::Result<()>
    ensures { OnOk result (Appends (E.contents errors.old) (E.contents errors.new) (heard_text destination.now news)) }
{
    let label = destination.label();
    let attendance = destination.device.attendance();
    tell_if(errors, label, change_line(news.changed, &attendance))?;
    tell_if(errors, label, alone_line(news.alone))?;
    tell_if(errors, label, quiet_line(news.quiet, label))
}

/// Tells who is left behind along a destination, where that is new.
#[tactic(auto, using(crate::proofs::NewsLines::both))]
fn tell_behind<D: Datagrams, E: Write>(
    errors: &mut E,
    destination: &Destination<ChannelDevice<D>>,
    news: News,
) -> io::Result<()>
    ensures { OnOk result (Appends (E.contents errors.old) (E.contents errors.new) (behind_text destination.now news)) }
{
    let peer = destination.peer;
    let position = told_in(&destination.device.attendance());
    tell_if(errors, None, behind_line(peer, position, news.behind))?;
    tell_if(errors, None, back_line(peer, news.back))
}

/// Tells what is new along a destination.
#[tactic(auto, using(crate::proofs::NewsLines::both))]
pub(crate) fn tell_news<D: Datagrams, E: Write>(
    errors: &mut E,
    destination: &Destination<ChannelDevice<D>>,
    news: News,
) -> io::Result<()>
    ensures { OnOk result (Appends (E.contents errors.old) (E.contents errors.new) (news_text destination.now news)) }
{
    tell_heard(errors, destination, news)?;
    tell_behind(errors, destination, news)
}

/// Gives the line of a destination along which not all was written of a stream that ends at `end`, if its input has ended, and else has
/// come to `tail`.
fn tell_unwritten<D: Datagrams, E: Write>(
    errors: &mut E,
    destination: &Destination<ChannelDevice<D>>,
    end: Option<u64>,
    tail: u64,
) -> Option<ToldShortfall>
    ensures whole { IfNone result (is_whole_along end destination.now ≡ true) }
    ensures told { IfSome result (IsUnwritten end tail destination.now) }
{
    let attendance = destination.device.attendance();
    if attendance.is_whole(end) {
        return None;
    }
    let (unheard, behind) = (destination.unheard, destination.behind);
    let shortfall = shortfall_of(&attendance, end, tail, unheard, behind);
    Some(tell_why(errors, destination.peer, shortfall))
}

/// The line that was given last: this one, if it was, or else one before it.
fn last_of(before: Option<ToldShortfall>, told: Option<ToldShortfall>) -> Option<ToldShortfall>
    ensures { result ≡ last_of before told }
{
    match told {
        None => before,
        Some(told) => Some(told),
    }
}

/// The same along all destinations. The line that was given last, if one was.
fn tell_each_unwritten<D: Datagrams, E: Write>(
    errors: &mut E,
    destinations: &[Destination<ChannelDevice<D>>],
    end: Option<u64>,
    tail: u64,
) -> Option<ToldShortfall>
    ensures whole { IfNone result (list_all (is_whole_along end) destinations.now ≡ true) }
    ensures told { IfSome result (IsToldOf end tail destinations.now) }
{
    let mut last = None;
    for destination in destinations {
        let told = tell_unwritten(errors, destination, end, tail);
        last = last_of(last, told);
    }
    last
}

/// How it ends: along which destinations not all was written, if it ends short; else whether anything was published of a stream from
/// `start` to `tail`. The line that said why last.
pub(crate) fn tell_ending<D: Datagrams, E: Write>(
    errors: &mut E,
    destinations: &[Destination<ChannelDevice<D>>],
    ending: Ending,
    end: Option<u64>,
    start: u64,
    tail: u64,
) -> Option<ToldShortfall>
    ensures whole { ending ≡ Whole → result ≡ None }
    ensures short { ending ≡ Short → IfNone result (list_all (is_whole_along end) destinations.now ≡ true) × IfSome result (IsToldOf end tail destinations.now) }
{
    match ending {
        Ending::Whole => {
            let _ = tell_whole(errors, start, tail);
            None
        }
        Ending::Short => tell_each_unwritten(errors, destinations, end, tail),
    }
}

/// Tells what was done in all, of so many messages in so many bytes of stream, at this moment.
pub(crate) fn tell_all_done<D: Datagrams, E: Write>(
    errors: &mut E,
    destinations: &[Destination<ChannelDevice<D>>],
    messages: u64,
    bytes: u64,
    now: u64,
) {
    let resends = destinations.iter().fold(0u64, |sum, destination| {
        sum.saturating_add(destination.device.tally().resends)
    });
    let totals = Totals {
        pace: Pace {
            count: messages,
            nanoseconds: now,
        },
        bytes,
        resends,
    };
    let _ = tell_totals(errors, totals);
}

/// Tells how many datagrams were refused along each destination, where any was.
pub(crate) fn tell_each_refused<D: Datagrams, E: Write>(
    errors: &mut E,
    destinations: &[Destination<ChannelDevice<D>>],
) {
    for destination in destinations {
        let refused = destination.device.tally().refused;
        let _ = tell_refused(errors, destination.label(), refused);
    }
}

/// Tells the counters of each destination once a second and at the last, where they are asked for.
pub(crate) fn tell_counts<R, D: Datagrams, E: Write>(
    context: &PublisherContext<'_, R>,
    progress: &mut Progress,
    destinations: &[Destination<ChannelDevice<D>>],
    errors: &mut E,
    now: u64,
    last: bool,
)
    ensures faulted { progress.new.faulted ≡ progress.old.faulted }
    ensures ended { progress.new.ended ≡ progress.old.ended }
{
    let (plan, messages) = (context.plan, context.state.messages());
    if !plan.end.counters {
        return;
    }
    let Some(recent) = progress.shows(messages, now, last) else {
        return;
    };
    let tail = context.state.tail();
    for destination in destinations {
        let seen = destination.look();
        let counts = Counts {
            session: plan.session,
            messages,
            recent,
            tail,
            told: told_in(&seen.attendance),
            tally: seen.tally,
            lost: seen.lost,
        };
        let _ = tell(errors, destination.label(), Line::Counters(counts));
    }
}
