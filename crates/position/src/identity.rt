//! Which stream a log carries, and a sender sends.

ghost use Rattle.std.specs.Prelude.{◌≡◌};
ghost use Rattle.theory.specs.Position.{IsGeometry};

use crate::geometry::Geometry;
use std::marker::Model;

/// A stream: its shape, and the ids that each of its frames has.
#[derive(Clone, Copy)]
pub struct Identity {
    geometry: Geometry,
    session: i32,
    stream: i32,
}

impl Model for Identity {
    ghost use Rattle.theory.specs.Bytes as meant;

    ghost Value = { meant.Identity };

    ghost view = { λ i. record { geometry = i.geometry; session = i.session; stream = i.stream } };

    ghost inverse = { λ i. record { geometry = i.geometry; session = i.session; stream = i.stream } };
}

impl Identity {
    pub fn new(geometry: Geometry, session: i32, stream: i32) -> Identity
        ensures { result ≡ record { geometry = geometry; session = session; stream = stream } }
    {
        Identity {
            geometry,
            session,
            stream,
        }
    }

    /// The shape of the stream.
    pub fn geometry(&self) -> Geometry
        ensures value { result ≡ self.now.geometry }
        ensures legal { IsGeometry result }
    {
        // What always holds of it, for the proof.
        let _ = self.geometry.mtu();
        self.geometry
    }

    /// The session's id.
    pub fn session(&self) -> i32
        ensures { result ≡ self.now.session }
    {
        self.session
    }

    /// The stream's id.
    pub fn stream(&self) -> i32
        ensures { result ≡ self.now.stream }
    {
        self.stream
    }
}
