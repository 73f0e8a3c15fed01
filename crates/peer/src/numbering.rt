//! What a datagram is that is one frame: a SETUP, or a status message, whose receiver may be known by a number.

ghost use Rattle.std.specs.Prelude.{◌≡◌, ℕ, IfSome, IsSomeAnd, length, option_map};
ghost use Rattle.theory.specs.Wire.{SM, Spells, Status as Told, Wire, spelling};
ghost use Rattle.frames.specs.Frames.{asks_of, setup_of, status_of, wire};
ghost use Rattle.peer.specs.Numbering.{Numbers, numbered};
ghost use Rattle.peer.specs.Setups.{TellsSetup};

use frames::{Frame, Setup, Status, read_frame, write_frame};

/// The frame that a datagram is, if it is one.
fn frame_in(datagram: &[u8]) -> Option<Frame<'_>>
    ensures found { IfSome result (λ f. Spells (wire f) datagram.now) }
    ensures only { (w : Wire) → Spells w datagram.now → IsSomeAnd result (λ f. wire f ≡ w) }
{
    let Ok((frame, size)) = read_frame(datagram) else {
        return None;
    };
    if size != datagram.len() {
        return None;
    }
    Some(frame)
}

/// The SETUP that a datagram is.
pub fn setup_in(datagram: &[u8]) -> Option<Setup>
    ensures { TellsSetup datagram.now (option_map setup_of result) }
{
    match frame_in(datagram) {
        Some(Frame::Setup(setup)) => Some(setup),
        _ => None,
    }
}

/// The status message that a frame is, if it is one, and whether it asks for a SETUP.
fn status_of(frame: &Frame<'_>) -> Option<(bool, Status)>
    ensures found { IfSome result (λ s. wire frame.now ≡ SM (asks_of s.0) (status_of s.1)) }
    ensures only { (flags : ℕ) (m : Told) → wire frame.now ≡ SM flags m → IsSomeAnd result (λ s. (asks_of s.0 ≡ flags) × (status_of s.1 ≡ m)) }
{
    match *frame {
        Frame::Status { asks, status } => Some((asks, status)),
        _ => None,
    }
}

/// The status message that a datagram is, if it is one, and whether it asks for a SETUP.
pub(crate) fn status_in(datagram: &[u8]) -> Option<(bool, Status)>
    ensures found { IfSome result (λ s. Spells (SM (asks_of s.0) (status_of s.1)) datagram.now) }
    ensures only { (flags : ℕ) (m : Told) → Spells (SM flags m) datagram.now → IsSomeAnd result (λ s. (asks_of s.0 ≡ flags) × (status_of s.1 ≡ m)) }
{
    let Some(frame) = frame_in(datagram) else {
        return None;
    };
    status_of(&frame)
}

/// The same message of the receiver with this number.
fn numbered(number: i64, status: &Status) -> Status
    ensures { status_of result ≡ numbered number (status_of status.now) }
{
    Status {
        receiver: number,
        ..*status
    }
}

/// Writes a status message over a datagram of its length.
fn write_status(asks: bool, status: Status, datagram: &mut [u8])
    requires { length datagram.old ≡ 36 }
    ensures { datagram.new ≡ spelling (SM (asks_of asks) (status_of status)) }
{
    write_frame(&Frame::Status { asks, status }, datagram);
}

/// Gives the status message that a datagram is this number for its receiver's id. Any other datagram stays as it is.
pub fn number_status(number: i64, datagram: &mut [u8])
    ensures numbers { Numbers number datagram.old datagram.new }
    ensures size { length datagram.new ≡ length datagram.old }
{
    let Some((asks, status)) = status_in(datagram) else {
        return;
    };
    let status = numbered(number, &status);
    write_status(asks, status, datagram);
}
