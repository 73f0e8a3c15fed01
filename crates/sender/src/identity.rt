//! What the frames of a stream say of it.

ghost use Rattle.std.specs.Prelude.{◌≡◌, ◌+◌, ◌%◌, ◌≤◌, ◌↔◌, length, IsTrue};
ghost use Rattle.theory.specs.Position.{IsGeometry, aligned, max_position};
ghost use Rattle.theory.specs.Bytes.{header_at};
ghost use Rattle.theory.specs.Control.{heartbeat_at, setup_at};
ghost use Rattle.theory.specs.Wire.{IsFrame, IsHeader, spelling};
ghost use Rattle.position.specs.Heads.{IsStreamFrame};
ghost use Rattle.frames.specs.Frames.{header_of, wire};
ghost use Rattle.sender.specs.Cycling.{IsOwn};

use frames::{Frame, Header, Setup};
use position::{FrameHead, Identity};

/// Whether these are the session and the stream.
pub(crate) fn is_own(identity: &Identity, session: i32, stream: i32) -> bool
    ensures { IsTrue result ↔ IsOwn identity.now session stream }
{
    session == identity.session() && stream == identity.stream()
}

/// The header of the frame with this head, but for its kind, flags and length.
pub(crate) fn header(identity: &Identity, head: &FrameHead) -> Header
    requires { IsStreamFrame identity.now.geometry head.now }
    ensures header { header_of result ≡ header_at identity.now head.now.start }
    ensures legal { IsHeader (header_of result) }
    ensures offset { result.term_offset + aligned head.now.frame_length ≤ 16777216 }
    ensures shape { IsGeometry identity.now.geometry }
{
    let place = identity.geometry().term_of(head.start);
    Header {
        term_offset: place.offset,
        session: identity.session(),
        stream: identity.stream(),
        term_id: place.term_id,
        reserved: 0,
    }
}

/// The SETUP of the stream at a position.
pub(crate) fn setup_frame(identity: &Identity, position: u64) -> Frame<'static>
    requires { position ≤ max_position identity.now.geometry }
    ensures frame { wire result ≡ setup_at identity.now position }
    ensures legal { IsFrame (wire result) }
    ensures short { length (spelling (wire result)) ≤ identity.now.geometry.mtu }
{
    let place = identity.geometry().term_of(position);
    Frame::Setup(Setup {
        term_offset: place.offset.cast_signed(),
        session: identity.session(),
        stream: identity.stream(),
        initial_term_id: identity.geometry().initial_term_id(),
        active_term_id: place.term_id,
        term_length: identity.geometry().term_length().cast_signed(),
        mtu: identity.geometry().mtu().cast_signed(),
        ttl: 0,
    })
}

/// The heartbeat of the stream at a position.
pub(crate) fn heartbeat_frame(identity: &Identity, position: u64) -> Frame<'static>
    requires in_stream { position ≤ max_position identity.now.geometry }
    requires unit { position % 32 ≡ 0 }
    ensures frame { wire result ≡ heartbeat_at identity.now position }
    ensures legal { IsFrame (wire result) }
    ensures short { length (spelling (wire result)) ≤ identity.now.geometry.mtu }
{
    let place = identity.geometry().term_of(position);
    Frame::Heartbeat {
        header: Header {
            term_offset: place.offset,
            session: identity.session(),
            stream: identity.stream(),
            term_id: place.term_id,
            reserved: 0,
        },
    }
}
