//! What a datagram tells a sender.

ghost use Rattle.theory.specs.Wire.{NAK, SM};
ghost use Rattle.frames.specs.Frames.{wire, asks_of, nak_of, status_of};
ghost use Rattle.sender.specs.Cycling.{IsNews};
ghost use Rattle.sender.specs.FirstNews.{FirstTells, news_of};

use crate::identity::is_own;
use frames::{Frame, FrameError, Nak, Status, check_datagram, read_frame};
use position::Identity;

/// What a sender takes from a datagram.
#[derive(Clone, Copy, Debug)]
pub enum News {
    /// A status message of its session and stream that doesn't ask for a SETUP.
    Says(Status),
    /// One that asks.
    AsksSetup,
    /// A negative acknowledgement of its session and stream.
    Misses(Nak),
    /// Frames of another session or stream, or of a kind that no sender takes.
    TellsNothing,
    Unreadable(FrameError),
}

/// What a datagram tells the sender of this stream.
pub fn read_news(bytes: &[u8], identity: &Identity) -> News
    ensures { IsNews identity.now bytes.now (news_of result) }
{
    match check_datagram(bytes) {
        Err(error) => News::Unreadable(error),
        Ok(_) => match read_frame(bytes) {
            Ok((frame, _)) => first_news(&frame, identity),
            Err(error) => News::Unreadable(error),
        },
    }
}

/// What it tells by its first frame.
fn first_news(frame: &Frame<'_>, identity: &Identity) -> News
    ensures { FirstTells identity.now (wire frame.now) (news_of result) }
{
    match *frame {
        Frame::Status { asks, status } => status_news(asks, &status, identity),
        Frame::Nak(nak) => nak_news(&nak, identity),
        _ => News::TellsNothing,
    }
}

fn status_news(asks: bool, status: &Status, identity: &Identity) -> News
    ensures { FirstTells identity.now (SM (asks_of asks) (status_of status.now)) (news_of result) }
{
    if !is_own(identity, status.session, status.stream) {
        return News::TellsNothing;
    }
    if asks {
        News::AsksSetup
    } else {
        News::Says(*status)
    }
}

fn nak_news(nak: &Nak, identity: &Identity) -> News
    ensures { FirstTells identity.now (NAK (nak_of nak.now)) (news_of result) }
{
    if is_own(identity, nak.session, nak.stream) {
        News::Misses(*nak)
    } else {
        News::TellsNothing
    }
}
