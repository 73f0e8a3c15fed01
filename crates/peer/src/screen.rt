//! What a publisher believes of what comes.

ghost use Rattle.std.specs.Prelude.{◌≡◌, ◌+◌, ◌^◌, ◌<◌, ◌/◌};
ghost use Rattle.theory.specs.Wire.{Status as Told, Nak as Missed};
ghost use Rattle.frames.specs.Frames.{asks_of, nak_of, status_of, wire};
ghost use Rattle.peer.specs.Screening.{asked_bytes, believed_verdict, has_room, half_term, is_at_most, is_believed, is_handed, is_own, nak_verdict, status_verdict, told_at, told_position, verdict_of};

use frames::{Frame, Nak, Status};
use position::Identity;

/// What a publisher judges by in a cycle.
#[derive(Clone, Copy, Debug, PartialEq, Eq)]
pub struct Bounds {
    /// The position up to which the stream was sent.
    pub sent_to: u64,
    /// How many bytes the negative acknowledgements of this cycle have asked for, as far as they were handed over; none was
    /// at `None`.
    pub asked: Option<u64>,
}

/// What becomes of a frame that came.
#[derive(Clone, Copy, Debug, PartialEq, Eq)]
pub enum Verdict {
    /// It is handed over, and nothing is noted.
    Passes,
    /// A status message that doesn't ask for a SETUP: it is handed over, and this receiver has told this position.
    Tells { receiver: i64, position: u64 },
    /// A negative acknowledgement that asks for so many bytes: it is handed over.
    Misses(u64),
    /// A status message that no receiver of what was sent can mean: it isn't handed over.
    Disbelieved,
    /// A negative acknowledgement, where those of the cycle would ask for more than a window: it is held back.
    Held,
    /// A status message of a receiver that is left behind: this receiver has told this position, and it isn't handed over.
    LeftBehind { receiver: i64, position: u64 },
    /// A negative acknowledgement of a receiver that is left behind, or one that would be held back where another is: it isn't
    /// handed over.
    Unanswered,
}

impl Verdict {
    /// Whether the frame is handed over at once.
    pub fn is_handed(self) -> bool
        ensures { result ≡ is_handed self }
    {
        match self {
            Verdict::Passes | Verdict::Tells { .. } | Verdict::Misses(_) => true,
            Verdict::Disbelieved
            | Verdict::Held
            | Verdict::LeftBehind { .. }
            | Verdict::Unanswered => false,
        }
    }
}

/// The greatest window of a receiver of the stream.
fn half_term(sent: &Identity) -> u64
    ensures value { result ≡ half_term sent.now }
    ensures small { result < 2 ^ 32 }
{
    u64::from(sent.geometry().term_length() / 2)
}

/// Whether these ids are the stream's.
pub(crate) fn is_own(sent: &Identity, session: i32, stream: i32) -> bool
    ensures { result ≡ is_own sent.now session stream }
{
    session == sent.session() && stream == sent.stream()
}

#[tactic(auto, using(crate::proofs::Screened::low_enough, crate::proofs::Screened::below_all))]
fn is_at_most(number: i64, most: u64) -> bool
    ensures { result ≡ is_at_most number most }
{
    match u64::try_from(number) {
        Ok(number) => number <= most,
        Err(_) => true,
    }
}

/// A receiver tells a position, if that isn't negative.
#[tactic(auto, using(crate::proofs::Screened::told_there, crate::proofs::Screened::told_nowhere))]
fn told_at(receiver: i64, position: i64) -> Verdict
    ensures { result ≡ told_at receiver position }
{
    match u64::try_from(position) {
        Ok(position) => Verdict::Tells { receiver, position },
        Err(_) => Verdict::Passes,
    }
}

/// The position that a status message tells.
pub(crate) fn told_position(sent: &Identity, status: &Status) -> i64
    ensures { result ≡ told_position sent.now (status_of status.now) }
{
    sent.geometry().position(status.term_id, status.term_offset)
}

/// Whether a receiver of what was sent can mean this.
fn is_believed(sent: &Identity, sent_to: u64, status: &Status) -> bool
    ensures { result ≡ is_believed sent.now sent_to (status_of status.now) }
{
    is_at_most(told_position(sent, status), sent_to)
        && is_at_most(i64::from(status.window), half_term(sent))
}

/// What a status message tells that is believed.
fn believed_verdict(sent: &Identity, asks: bool, status: &Status) -> Verdict
    ensures { result ≡ believed_verdict sent.now (asks_of asks) (status_of status.now) }
{
    if asks {
        return Verdict::Passes;
    }
    told_at(status.receiver, told_position(sent, status))
}

fn status_verdict(sent: &Identity, bounds: &Bounds, asks: bool, status: &Status) -> Verdict
    ensures { result ≡ status_verdict sent.now bounds.now (asks_of asks) (status_of status.now) }
{
    if is_believed(sent, bounds.sent_to, status) {
        believed_verdict(sent, asks, status)
    } else {
        Verdict::Disbelieved
    }
}

/// How many bytes a negative acknowledgement of this length asks for.
#[tactic(auto, using(crate::proofs::Screened::asks_this, crate::proofs::Screened::asks_nothing))]
pub(crate) fn asked_bytes(length: i32) -> u64
    ensures value { result ≡ asked_bytes length }
    ensures small { result < 2 ^ 31 }
{
    match u32::try_from(length) {
        Ok(length) => u64::from(length),
        Err(_) => 0,
    }
}

/// Whether another negative acknowledgement of so many bytes may be handed over in this cycle.
fn has_room(asked: Option<u64>, bytes: u64, most: u64) -> bool
    requires most { most < 2 ^ 32 }
    ensures { result ≡ has_room asked bytes most }
{
    match asked {
        None => true,
        Some(asked) => asked.saturating_add(bytes) <= most,
    }
}

/// Whether a negative acknowledgement that was held back may be handed over in this cycle.
pub(crate) fn has_room_for(sent: &Identity, asked: Option<u64>, nak: &Nak) -> bool
    ensures { result ≡ has_room asked (asked_bytes (nak_of nak.now).length) (half_term sent.now) }
{
    has_room(asked, asked_bytes(nak.length), half_term(sent))
}

fn nak_verdict(sent: &Identity, bounds: &Bounds, nak: &Nak) -> Verdict
    ensures { result ≡ nak_verdict sent.now bounds.now (nak_of nak.now) }
{
    if has_room_for(sent, bounds.asked, nak) {
        Verdict::Misses(asked_bytes(nak.length))
    } else {
        Verdict::Held
    }
}

/// What becomes of a frame that came, alone in a datagram.
///
/// A status message of the stream is believed where its position isn't above what was sent and its window no more than half
/// a term. A negative acknowledgement of the stream is handed over where it is the cycle's first, or those of the cycle
/// together ask for half a term at the most; a negative length asks for nothing. Any other frame passes.
pub fn judge(sent: &Identity, bounds: &Bounds, frame: &Frame<'_>) -> Verdict
    ensures { result ≡ verdict_of sent.now bounds.now (wire frame.now) }
{
    match *frame {
        Frame::Nak(nak) if is_own(sent, nak.session, nak.stream) => nak_verdict(sent, bounds, &nak),
        Frame::Status { asks, status } if is_own(sent, status.session, status.stream) => {
            status_verdict(sent, bounds, asks, &status)
        }
        _ => Verdict::Passes,
    }
}
