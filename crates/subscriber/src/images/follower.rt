//! A subscriber with an image, the end that was told of its session's stream, and whether that was heard.

ghost use Rattle.std.specs.Prelude.{◌≡◌, ◌⊎◌, ◌↔◌, IsTrue, ⊤};
ghost use Rattle.theory.specs.Wire.{IsFrame, IsHeader};
ghost use Rattle.frames.specs.Frames.{header_of, setup_of, wire};
ghost use Rattle.subscriber.specs.Followers.{BringsStream, FollowerHears, FollowerTicks, IsOwn, IsStreamFrame, NotesDatagramsEnd, NotesEnd, NotesGreatestEnds, names_above, with_end};

use crate::images::session::lies_above;
use crate::listening::setup_offer::ImageParams;
use agents::Party;
use frames::{Frame, Header, Outbox, Setup, read_frame};
use peer::{StreamEnd, end_told, setup_in};
use receiver::Subscriber;
use std::alloc::AllocError;

/// A subscriber, the greatest end of its session's stream that a datagram which it was handed has told, and whether one brought
/// a frame of that stream.
#[derive(Drop)]
pub struct Follower {
    pub subscriber: Subscriber,
    /// What opened its image: whose ends it notes.
    pub opening: ImageParams,
    pub stream: i32,
    /// The greatest end that was told. The stream is broken off where one of them said so.
    pub end: Option<StreamEnd>,
    /// Whether the stream was heard: a DATA frame or a padding of it came, or a heartbeat above the position where the image was
    /// joined.
    pub heard: bool,
}

/// The greatest end that was told, with this one.
fn with_end(before: Option<StreamEnd>, end: StreamEnd) -> Option<StreamEnd>
    ensures { result ≡ with_end before end }
{
    match before {
        None => Some(end),
        Some(before) => Some(StreamEnd {
            position: before.position.max(end.position),
            broken: before.broken || end.broken,
        }),
    }
}

/// The greatest end that was told, with the one that a SETUP tells of the session's stream.
fn after_setup(
    session: i32,
    stream: i32,
    setup: &Setup,
    before: Option<StreamEnd>,
) -> Option<StreamEnd>
    ensures { NotesEnd session stream (setup_of setup.now) before result }
{
    match end_told(&Frame::Setup(*setup), session, stream) {
        None => before,
        Some(end) => with_end(before, end),
    }
}

/// Whether a header is of a session's stream.
fn is_own(session: i32, stream: i32, header: &Header) -> bool
    ensures { IsTrue result ↔ IsOwn session stream (header_of header.now) }
{
    header.session == session && header.stream == stream
}

/// Whether the place that a header names lies above the position where an image was joined.
fn names_above(opening: &ImageParams, header: Header) -> bool
    requires { IsHeader (header_of header) }
    ensures { result ≡ names_above opening.now.geometry opening.now.position (header_of header) }
{
    let offset = header.term_offset.cast_signed();
    lies_above(
        opening.geometry.position(header.term_id, offset),
        opening.position,
    )
}

/// Whether a frame is a DATA frame or a padding of the image's stream, or a heartbeat above the position where the image was joined.
fn is_stream_frame(opening: &ImageParams, stream: i32, frame: &Frame<'_>) -> bool
    requires { IsFrame (wire frame.now) }
    ensures { IsTrue result ↔ IsStreamFrame opening.now stream (wire frame.now) }
{
    match *frame {
        Frame::Data { ref header, .. } | Frame::Pad { ref header, .. } => {
            is_own(opening.session, stream, header)
        }
        Frame::Heartbeat { header } => {
            is_own(opening.session, stream, &header) && names_above(opening, header)
        }
        _ => false,
    }
}

/// Whether such a frame stands in front of a datagram.
fn brings_stream(opening: &ImageParams, stream: i32, datagram: &[u8]) -> bool
    ensures { IsTrue result ↔ BringsStream opening.now stream datagram.now }
{
    match read_frame(datagram) {
        Ok((frame, _size)) => is_stream_frame(opening, stream, &frame),
        Err(_) => false,
    }
}

/// A law: what is noted of one datagram after the other is the greatest end that they tell.
pub fn greatest_ends()
    ensures { NotesGreatestEnds }
{}

impl Follower {
    /// The greatest end that was told, with the one that a datagram tells.
    fn end_after(&self, datagram: &[u8]) -> Option<StreamEnd>
        ensures { NotesDatagramsEnd self.now.opening.session self.now.stream datagram.now self.now.end result }
    {
        match setup_in(datagram) {
            None => self.end,
            Some(setup) => after_setup(self.opening.session, self.stream, &setup, self.end),
        }
    }

    /// Whether the stream was heard, by then or by a datagram.
    fn is_heard_after(&self, datagram: &[u8]) -> bool
        ensures { IsTrue result ↔ (IsTrue self.now.heard ⊎ BringsStream self.now.opening self.now.stream datagram.now) }
    {
        self.heard || brings_stream(&self.opening, self.stream, datagram)
    }
}

impl Party for Follower {
    ghost stands = { λ f. ⊤ };

    ghost mtu = { λ f. 40 };

    ghost hears = { FollowerHears };

    ghost ticks = { FollowerTicks };

    fn hear(&mut self, datagram: &[u8], now: u64, outbox: &mut Outbox) -> Result<(), AllocError> {
        Party::hear(&mut self.subscriber, datagram, now, outbox)?;
        self.end = self.end_after(datagram);
        self.heard = self.is_heard_after(datagram);
        Ok(())
    }

    fn tick(&mut self, now: u64, outbox: &mut Outbox) {
        Party::tick(&mut self.subscriber, now, outbox);
    }
}
