//! What is told of each session.

ghost use Rattle.std.specs.Prelude.{◌≡◌, ◌<◌, OnOk, length};
ghost use Rattle.subscriber.specs.Telling.{AreBytesOf, AreTotals, TellsCountersOf, TellsCutOf, TellsRefusedOf, TellsShortOf, TellsUnfinishedOf, naks_of};
ghost use Rattle.subscriber.specs.declared.ending.Ending.TheVariants.{Lost, Short, Whole};

use crate::ending::Ending;
use crate::images::session::Session;
use crate::reporting::{Followed, Line, Totals, tell, tell_refused};
use crate::watch::Watch;
use std::io;
use std::io::Write;
use text::Pace;

/// Tells the counters of each, behind so many messages in all, of which so many came since they were told last.
pub(crate) fn tell_counters_of<E: Write>(
    sessions: &[Session],
    errors: &mut E,
    watch: &Watch,
    written: u64,
    since: u64,
) -> io::Result<()>
    ensures { OnOk result (TellsCountersOf sessions.now watch.now written since (E.contents errors.old) (E.contents errors.new)) }
{
    let [first, others @ ..] = sessions else {
        return Ok(());
    };
    first.tell_counters(errors, watch, written, since)?;
    tell_counters_of(others, errors, watch, written, since)
}

/// Tells of each that lacks something of its stream where it stands, behind so many seconds without anything of any.
fn tell_unfinished_of<E: Write>(
    sessions: &[Session],
    errors: &mut E,
    seconds: u64,
) -> io::Result<()>
    ensures { OnOk result (TellsUnfinishedOf seconds sessions.now (E.contents errors.old) (E.contents errors.new)) }
{
    let [first, others @ ..] = sessions else {
        return Ok(());
    };
    if !first.stood.has_all() {
        tell(errors, Line::GaveUp(seconds, first.unfinished()))?;
    }
    tell_unfinished_of(others, errors, seconds)
}

/// Tells what the receiver of each has refused, with the first how many datagrams came from strangers.
pub(crate) fn tell_refused_of<E: Write>(
    sessions: &[Session],
    errors: &mut E,
    strangers: u64,
) -> io::Result<()>
    ensures { OnOk result (TellsRefusedOf strangers sessions.now (E.contents errors.old) (E.contents errors.new)) }
{
    let [first, others @ ..] = sessions else {
        return Ok(());
    };
    tell_refused(errors, first.follower.subscriber.refused(), strangers)?;
    tell_refused_of(others, errors, 0)
}

/// Tells which stream is cut off at each place, where one is.
fn tell_cut_of<E: Write>(sessions: &[Session], errors: &mut E) -> io::Result<()>
    ensures { OnOk result (TellsCutOf sessions.now (E.contents errors.old) (E.contents errors.new)) }
{
    let [first, others @ ..] = sessions else {
        return Ok(());
    };
    if let Some(cut) = first.cut_off() {
        tell(errors, Line::NotWhole(cut, first.images.missing))?;
    }
    tell_cut_of(others, errors)
}

/// Tells where each stands that lacks something of its stream, behind so many seconds without anything of any, and then which
/// stream is cut off at each place.
fn tell_short_of<E: Write>(sessions: &[Session], errors: &mut E, seconds: u64) -> io::Result<()>
    ensures { OnOk result (TellsShortOf seconds sessions.now (E.contents errors.old) (E.contents errors.new)) }
{
    tell_unfinished_of(sessions, errors, seconds)?;
    tell_cut_of(sessions, errors)
}

/// Tells why a subscriber with images isn't whole, behind so many seconds without anything of any.
pub(crate) fn tell_ending_of<E: Write>(
    sessions: &[Session],
    ending: Ending,
    errors: &mut E,
    seconds: u64,
) -> io::Result<()>
    ensures short { ending ≡ Short → OnOk result (TellsShortOf seconds sessions.now (E.contents errors.old) (E.contents errors.new)) }
    ensures lost { ending ≡ Lost → OnOk result (TellsCutOf sessions.now (E.contents errors.old) (E.contents errors.new)) }
    ensures whole { ending ≡ Whole → OnOk result (E.contents errors.new ≡ E.contents errors.old) }
{
    match ending {
        Ending::Whole => Ok(()),
        Ending::Short => tell_short_of(sessions, errors, seconds),
        Ending::Lost => tell_cut_of(sessions, errors),
    }
}

/// How many negative acknowledgements all have sent. At the greatest `u64` it stays.
fn naks_of(sessions: &[Session]) -> u64
    ensures { result ≡ naks_of sessions.now }
{
    match sessions {
        [] => 0,
        [first, others @ ..] => naks_of(others).saturating_add(first.naks()),
    }
}

/// How many bytes of the newest images' streams were written. At the greatest `u64` it stays.
fn bytes_of(sessions: &[Session]) -> u64
    ensures { AreBytesOf sessions.now result }
{
    match sessions {
        [] => 0,
        [first, others @ ..] => bytes_of(others).saturating_add(first.bytes()),
    }
}

/// What they have done, in so many messages, since the first image was opened at a moment. There is one at the least.
pub(crate) fn totals_of(sessions: &[Session], watch: &Watch, messages: u64, opened: u64) -> Totals
    requires { 0 < length sessions.now }
    ensures { AreTotals sessions.now watch.now messages opened result }
{
    Totals {
        pace: Pace {
            count: messages,
            nanoseconds: watch.moment().saturating_sub(opened),
        },
        of: Followed {
            session: sessions[0].opening.session,
            sessions: sessions.len() as u64,
        },
        bytes: bytes_of(sessions),
        naks: naks_of(sessions),
    }
}
