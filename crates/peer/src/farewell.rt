//! How a publisher announces where its stream ends, and who hears that.

ghost use Rattle.std.specs.Prelude.{◌≡◌, ◌≤◌, ◌↔◌, ℕ, Bool, pos, IfSome, IfNone, IsTrue};
ghost use Rattle.theory.specs.Position.{Geometry as Shape, max_position, position_of};
ghost use Rattle.theory.specs.Setup.{NamesGeometry};
ghost use Rattle.theory.specs.Wire.{IsFrame, SETUP};
ghost use Rattle.frames.specs.Frames.{setup_of, wire};
ghost use Rattle.peer.specs.Farewells.{EndsAt, FarewellsTellEnds, IsFarewell, SpellsFarewell, TellsEnd, end_of, farewell_fields};
ghost use Rattle.peer.specs.declared.farewell.StreamEnd.{StreamEnd as End};

use frames::{Frame, SETUP_LENGTH, Setup, write_frame};
use position::{Geometry, Identity};

/// The time to live of a SETUP that announces an end. A sender writes 0.
const FAREWELL: i32 = -1;

/// The time to live of a SETUP that announces an end at which the stream is broken off.
const BROKEN_OFF: i32 = -2;

/// Where a stream ends, as its publisher announces it.
#[derive(Clone, Copy, Debug, PartialEq, Eq)]
pub struct StreamEnd {
    /// In bytes of the stream.
    pub position: u64,
    /// Whether the stream is broken off there: more was to come, and the publisher had a fault.
    pub broken: bool,
}

/// The SETUP that announces this end of a stream.
pub fn farewell_of(sent: &Identity, end: StreamEnd) -> Setup
    requires { end.position ≤ max_position sent.now.geometry }
    ensures fields { setup_of result ≡ farewell_fields sent.now end }
    ensures legal { IsFrame (SETUP (setup_of result)) }
{
    let place = sent.geometry().term_of(end.position);
    Setup {
        term_offset: place.offset.cast_signed(),
        session: sent.session(),
        stream: sent.stream(),
        initial_term_id: sent.geometry().initial_term_id(),
        active_term_id: place.term_id,
        term_length: sent.geometry().term_length().cast_signed(),
        mtu: sent.geometry().mtu().cast_signed(),
        ttl: if end.broken { BROKEN_OFF } else { FAREWELL },
    }
}

/// The datagram that announces this end of a stream, or one at the last position that the stream can have, if that is below.
pub(crate) fn farewell_bytes(sent: &Identity, end: StreamEnd) -> [u8; SETUP_LENGTH]
    ensures { SpellsFarewell sent.now (end_of sent.now end) result }
{
    let last = StreamEnd {
        position: end.position.min(sent.geometry().max_position()),
        ..end
    };
    let mut bytes = [0; SETUP_LENGTH];
    let farewell = farewell_of(sent, last);
    write_frame(&Frame::Setup(farewell), &mut bytes);
    bytes
}

/// The shape that a SETUP names, if it is one.
fn shape_of(setup: &Setup) -> Option<Geometry>
    ensures named { IfSome result (NamesGeometry (setup_of setup.now)) }
    ensures none { IfNone result ((g : Shape) → NamesGeometry (setup_of setup.now) g → ⊥) }
{
    let term_length = u32::try_from(setup.term_length).ok()?;
    let mtu = u32::try_from(setup.mtu).ok()?;
    Geometry::new(term_length, mtu, setup.initial_term_id).ok()
}

/// The position that a SETUP of this shape names, if it isn't negative.
fn place_in(shape: &Geometry, setup: &Setup) -> Option<u64>
    ensures named { IfSome result (λ end. position_of shape.now setup.now.active_term_id setup.now.term_offset ≡ pos end) }
    ensures none { IfNone result ((end : ℕ) → position_of shape.now setup.now.active_term_id setup.now.term_offset ≡ pos end → ⊥) }
{
    u64::try_from(shape.position(setup.active_term_id, setup.term_offset)).ok()
}

/// Whether a SETUP is of a session's stream and announces an end of this kind.
fn is_farewell(setup: &Setup, session: i32, stream: i32, broken: bool) -> bool
    ensures { IsTrue result ↔ IsFarewell session stream broken (setup_of setup.now) }
{
    let ttl = if broken { BROKEN_OFF } else { FAREWELL };
    setup.session == session && setup.stream == stream && setup.ttl == ttl
}

/// Whether a SETUP of a session's stream announces an end, and whether one at which the stream is broken off.
fn kind_of(setup: &Setup, session: i32, stream: i32) -> Option<bool>
    ensures told { IfSome result (λ broken. IsFarewell session stream broken (setup_of setup.now)) }
    ensures none { IfNone result ((broken : Bool) → IsFarewell session stream broken (setup_of setup.now) → ⊥) }
{
    if is_farewell(setup, session, stream, false) {
        return Some(false);
    }
    if is_farewell(setup, session, stream, true) {
        return Some(true);
    }
    None
}

/// The end that a SETUP announces of a session's stream, if it announces one.
#[tactic(auto, using(crate::proofs::Farewells::ends_there, crate::proofs::Farewells::ends_nowhere))]
fn end_in(setup: &Setup, session: i32, stream: i32) -> Option<StreamEnd>
    ensures told { IfSome result (EndsAt session stream (setup_of setup.now)) }
    ensures none { IfNone result ((end : End) → EndsAt session stream (setup_of setup.now) end → ⊥) }
{
    let broken = kind_of(setup, session, stream)?;
    let shape = shape_of(setup)?;
    let position = place_in(&shape, setup)?;
    Some(StreamEnd { position, broken })
}

/// The end of a session's stream that this frame announces, where it is a SETUP of that session and stream whose time to live is
/// -1, or -2 where the stream is broken off, and the place that it names by its own shape isn't negative.
pub fn end_told(frame: &Frame<'_>, session: i32, stream: i32) -> Option<StreamEnd>
    ensures told { IfSome result (TellsEnd session stream (wire frame.now)) }
    ensures none { IfNone result ((end : End) → TellsEnd session stream (wire frame.now) end → ⊥) }
{
    match *frame {
        Frame::Setup(setup) => end_in(&setup, session, stream),
        _ => None,
    }
}

/// A law: a stream's farewell tells its end, with whether the stream is broken off there, and no other.
pub fn farewells_tell_ends()
    ensures { FarewellsTellEnds }
{}
