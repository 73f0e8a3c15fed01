ghost use Rattle.std.specs.Prelude.{◌≡◌, ℕ, List, length, Ok, Err, IfOk, IfErr};
ghost use Rattle.theory.specs.Wire.{Wire, SpellsDatagram, HasOneSpelling};
ghost use Rattle.frames.specs.declared.fault.FrameError.{FrameError};
ghost use Rattle.frames.specs.Frames.{wire};
ghost use Rattle.frames.specs.Datagrams.{IsDatagramFault};
ghost use Rattle.frames.specs.Datagrams as place;

use crate::fault::FrameError;
use crate::frame::Frame;
use crate::reading::read_frame;

/// The number of frames of a datagram.
///
/// A datagram is one or more DATA frames and then at most one padding, or one frame of another kind. A frame that
/// can't be read gives its own fault, and an empty datagram is short. A frame that can be read is then judged by its
/// place; bytes behind a frame that must be the last aren't read.
pub fn check_datagram(bytes: &[u8]) -> Result<usize, FrameError>
    // What is accepted is a datagram of so many frames.
    ensures found { IfOk result (λ n. (frames : List Wire) × SpellsDatagram frames bytes.now × (length frames ≡ n)) }
    // Every datagram is accepted.
    ensures only { (frames : List Wire) → SpellsDatagram frames bytes.now → result ≡ Ok (length frames) }
    // Which fault it is: the first one.
    ensures fault { IfErr result (λ fault. IsDatagramFault bytes.now fault) }
    // And bytes with a fault are refused with it.
    ensures refused { (fault : FrameError) → IsDatagramFault bytes.now fault → result ≡ Err fault }
{
    count(bytes)
}

fn count(bytes: &[u8]) -> Result<usize, FrameError>
    ensures found { IfOk result (λ n. (frames : List Wire) × SpellsDatagram frames bytes.now × (length frames ≡ n)) }
    ensures fault { IfErr result (λ fault. IsDatagramFault bytes.now fault) }
{
    let mut rest = bytes;
    let mut frames = 0;
    loop {
        let (frame, size) = read_frame(rest)?;
        rest = &rest[size..];
        let is_last = rest.is_empty();
        if !may_stand(&frame, frames == 0, is_last) {
            return Err(FrameError::Datagram);
        }
        frames += 1;
        if is_last {
            return Ok(frames);
        }
    }
}

fn may_stand(frame: &Frame<'_>, is_first: bool, is_last: bool) -> bool
    ensures { result ≡ place.may_stand (wire frame.now) is_first is_last }
{
    match *frame {
        Frame::Data { .. } => true,
        Frame::Pad { .. } => is_last,
        _ => is_first && is_last,
    }
}

/// A spelling is of one frame, and begins no other.
pub fn one_spelling()
    ensures { HasOneSpelling }
{}

/// A datagram has one reading.
pub fn one_reading()
    ensures { (bytes : List ℕ) (a b : List Wire) → SpellsDatagram a bytes → SpellsDatagram b bytes → a ≡ b }
{}
