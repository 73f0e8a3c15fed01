//! A device that counts what frames it is given.

ghost use Rattle.std.specs.Prelude.{◌≡◌};
ghost use Rattle.std.specs.Option.{option_map};
ghost use Rattle.endpoint.specs.Calls.{Sends};
ghost use Rattle.endpoint.specs.Devices.{NeverFall};
ghost use Rattle.frames.specs.Frames.{header_of, wire};
ghost use Rattle.loss_injector.specs.Metering.{Meters, after_begin, after_header, header_in, metering};

use endpoint::{Datagrams, DeviceFailed, Ways};
use frames::{Frame, Header, read_frame};
use position::Geometry;
use std::marker::Model;

/// A device, and how many datagrams of frames it was given for the first time, and again. A datagram whose first frame is a
/// DATA frame or a padding is one; it is given again where that frame begins at or before one that was given.
#[derive(Drop)]
pub struct Metered<D> {
    inner: D,
    geometry: Geometry,
    /// No frame that begins here or further was given yet.
    furthest: i64,
    sent: u64,
    resent: u64,
}

impl<D> Model for Metered<D> {
    ghost use Rattle.loss_injector.specs.Metering.{Metering};

    ghost Value = { Metering D };

    ghost view = { λ m. record { inner = m.inner; geometry = m.geometry; furthest = m.furthest; sent = m.sent; resent = m.resent } };
}

/// The header of a frame, if that is one of a stream.
fn header_of_frame(frame: &Frame<'_>) -> Option<Header>
    ensures { option_map header_of result ≡ header_in (wire frame.now) }
{
    match *frame {
        Frame::Data { header, .. } | Frame::Pad { header, .. } => Some(header),
        _ => None,
    }
}

impl<D> Metered<D> {
    /// A device round this one, whose positions have this shape, that was given nothing yet.
    pub fn new(inner: D, geometry: Geometry) -> Metered<D>
        ensures { result ≡ metering inner geometry }
    {
        Metered {
            inner,
            geometry,
            furthest: 0,
            sent: 0,
            resent: 0,
        }
    }

    /// How many datagrams of frames it was given for the first time, modulo 2^64.
    pub fn sent(&self) -> u64
        ensures { result ≡ self.now.sent }
    {
        self.sent
    }

    /// How many it was given again, modulo 2^64.
    pub fn resent(&self) -> u64
        ensures { result ≡ self.now.resent }
    {
        self.resent
    }

    /// Counts a datagram whose first frame begins here.
    fn count_begin(&mut self, begin: i64)
        ensures counted { self.new ≡ after_begin self.old begin }
        ensures inner { self.new.inner ≡ self.old.inner }
    {
        if begin < self.furthest {
            self.resent = self.resent.wrapping_add(1);
            return;
        }
        self.sent = self.sent.wrapping_add(1);
        self.furthest = begin.saturating_add(1);
    }

    /// Counts a datagram by its first frame.
    fn count_frame(&mut self, frame: &Frame<'_>)
        ensures counted { self.new ≡ after_header self.old (header_in (wire frame.now)) }
        ensures inner { self.new.inner ≡ self.old.inner }
    {
        if let Some(header) = header_of_frame(frame) {
            let offset = header.term_offset.cast_signed();
            let begin = self.geometry.position(header.term_id, offset);
            self.count_begin(begin);
        }
    }

    /// Counts a datagram.
    fn count(&mut self, datagram: &[u8])
        ensures meters { Meters self.old datagram.now self.new }
        ensures inner { self.new.inner ≡ self.old.inner }
    {
        if let Ok((frame, _size)) = read_frame(datagram) {
            self.count_frame(&frame);
        }
    }
}

impl<D: Datagrams> Datagrams for Metered<D> {
    ghost device = { λ m. D.device m.inner };

    ghost tells = { λ m. D.tells m.inner };

    ghost lives = { λ m n. D.lives m.inner n.inner };

    ghost lives_still = { λ m. D.lives_still m.inner };

    ghost lives_on = { λ l m n. D.lives_on l.inner m.inner n.inner };

    /// Hands a datagram to the inner device, and counts it, whether that fails or not.
    fn send(&mut self, datagram: &[u8]) -> Result<(), DeviceFailed>
        ensures counts { NeverFall (D.device self.old.inner) (D.device self.new.inner) }
        ensures sends { Sends (D.tells self.old.inner) (D.device self.old.inner) datagram.now result (D.device self.new.inner) }
        ensures still_tells { D.tells self.old.inner → D.tells self.new.inner }
        ensures lives { D.lives self.old.inner self.new.inner }
        ensures meters { Meters self.old datagram.now (record self.new { inner = self.old.inner }) }
    {
        self.count(datagram);
        self.inner.send(datagram)
    }

    fn recv(&mut self, buffer: &mut [u8]) -> Result<Option<usize>, DeviceFailed> {
        self.inner.recv(buffer)
    }

    fn failures(&self) -> u64 {
        self.inner.failures()
    }

    fn nones(&self) -> u64 {
        self.inner.nones()
    }
}

impl<D: Ways> Ways for Metered<D> {
    ghost way_count = { λ m. D.way_count m.inner };

    ghost turned = { λ m way. record m { inner = D.turned m.inner way } };

    ghost turned_lives = { λ m way. D.turned_lives m.inner way };

    fn ways(&self) -> usize {
        self.inner.ways()
    }

    fn turn_to(&mut self, way: usize) {
        self.inner.turn_to(way);
    }
}
