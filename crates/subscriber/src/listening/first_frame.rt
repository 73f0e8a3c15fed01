//! What stands first in a datagram, read once.

ghost use Rattle.std.specs.Prelude.{◌≡◌, option_map, IfSome};
ghost use Rattle.frames.specs.Frames.{header_of, setup_of, wire};
ghost use Rattle.peer.specs.Setups.{setup_told};
ghost use Rattle.subscriber.specs.FirstFrames.{TellsFirst, header_first, named_first, setup_first};
ghost use Rattle.subscriber.specs.Meetings.{header_told};
ghost use Rattle.theory.specs.Wire.{IsFrame, IsHeader};

use frames::{Frame, Header, Setup, read_frame};
use std::marker::Model;

/// The header of a DATA frame, a padding or a heartbeat that was heard.
#[derive(Clone, Copy, Debug, PartialEq, Eq)]
pub struct HeardFrame {
    header: Header,
}

impl Model for HeardFrame {
    ghost use Rattle.theory.specs.Wire.{IsHeader};
    ghost use Rattle.frames.specs.Frames.{header_of};
    ghost use Rattle.frames.specs.declared.frame.Header.{Header as Heard};

    ghost Value = { Heard };

    ghost view = { λ f. f.header };

    ghost invariant = { λ f. IsHeader (header_of f.header) };

    ghost inverse = { λ h. record { header = h } };
}

impl HeardFrame {
    /// A frame with this header.
    pub(crate) fn new(header: Header) -> HeardFrame
        requires { IsHeader (header_of header) }
        ensures { result ≡ header }
    {
        HeardFrame { header }
    }

    /// Its header.
    pub fn header(&self) -> Header
        ensures same { result ≡ self.now }
        ensures legal { IsHeader (header_of result) }
    {
        self.header
    }
}

/// What stands first in a datagram.
#[derive(Clone, Copy, Debug, PartialEq, Eq)]
pub enum FirstFrame {
    /// A DATA frame, a padding or a heartbeat.
    Heard(HeardFrame),
    /// A SETUP, which is the whole datagram.
    Setup(Setup),
    /// Anything else.
    Other,
}

/// What a frame is that stands first.
fn told(frame: &Frame<'_>) -> FirstFrame
    requires { IsFrame (wire frame.now) }
    ensures header { option_map header_of (header_first result) ≡ header_told (wire frame.now) }
    ensures setup { option_map setup_of (setup_first result) ≡ setup_told (wire frame.now) }
{
    match *frame {
        Frame::Data { header, .. } | Frame::Pad { header, .. } | Frame::Heartbeat { header } => {
            FirstFrame::Heard(HeardFrame::new(header))
        }
        Frame::Setup(setup) => FirstFrame::Setup(setup),
        _ => FirstFrame::Other,
    }
}

/// The same, of a frame that isn't the whole datagram.
fn told_in_part(frame: &Frame<'_>) -> FirstFrame
    requires { IsFrame (wire frame.now) }
    ensures header { option_map header_of (header_first result) ≡ header_told (wire frame.now) }
    ensures setup { setup_first result ≡ None }
{
    match told(frame) {
        FirstFrame::Setup(_) => FirstFrame::Other,
        first => first,
    }
}

/// What stands first in it.
pub fn first_frame(datagram: &[u8]) -> FirstFrame
    ensures { TellsFirst datagram.now result }
{
    match read_frame(datagram) {
        Ok((frame, size)) => {
            if size == datagram.len() {
                told(&frame)
            } else {
                told_in_part(&frame)
            }
        }
        Err(_) => FirstFrame::Other,
    }
}

impl FirstFrame {
    /// The header of the frame that was heard, if one was.
    pub fn header(&self) -> Option<Header>
        ensures same { result ≡ header_first self.now }
        ensures legal { IfSome result (λ h. IsHeader (header_of h)) }
    {
        match self {
            FirstFrame::Heard(frame) => Some(frame.header()),
            _ => None,
        }
    }

    /// The session that it names, if it names one.
    pub fn session(&self) -> Option<i32>
        ensures { result ≡ named_first self.now }
    {
        match self {
            FirstFrame::Heard(frame) => Some(frame.header().session),
            FirstFrame::Setup(setup) => Some(setup.session),
            FirstFrame::Other => None,
        }
    }

    /// The SETUP, if it is one.
    pub fn setup(&self) -> Option<Setup>
        ensures { result ≡ setup_first self.now }
    {
        match self {
            FirstFrame::Setup(setup) => Some(*setup),
            _ => None,
        }
    }
}
