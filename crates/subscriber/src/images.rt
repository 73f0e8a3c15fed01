//! The images of a subscriber, one after the other.

ghost use Rattle.std.specs.Prelude.{◌≡◌, ◌<◌, ◌↔◌, ◌++◌, [], ◌∷◌, IsTrue, Some, length};
ghost use Rattle.subscriber.specs.Images.{IsUnnamed, first_cut, first_image, loss_between, next, next_images};
ghost use Rattle.subscriber.specs.Texts.{cut_text, loss_text};

pub(crate) mod delivery;
pub(crate) mod follower;
pub(crate) mod session;
pub(crate) mod session_device;
pub(crate) mod session_watch;
pub(crate) mod sessions;

use std::fmt;
use std::marker::Model;

/// Where a stream was cut off: something of it that lies behind isn't written.
#[derive(Clone, Copy, Debug, PartialEq, Eq)]
pub struct CutOff {
    pub session: i32,
    /// Up to where it was written, in bytes of the stream.
    pub position: u64,
}

impl fmt::Display for CutOff {
    ghost output = { λ cut. Some (cut_text cut) };

    fn fmt<W: fmt::Write>(&self, f: &mut fmt::Formatter<W>) -> fmt::Result {
        write!(
            f,
            "session {} was cut off at position {}",
            self.session, self.position
        )
    }
}

/// What is missing between an image that was lost and the next one, in bytes of the stream.
#[derive(Clone, Copy, Debug, PartialEq, Eq)]
pub struct Loss {
    /// Where the consumer stood.
    pub from: u64,
    /// Where the next image was joined, which lies above that.
    pub to: u64,
}

impl fmt::Display for Loss {
    ghost output = { λ loss. Some (loss_text loss) };

    fn fmt<W: fmt::Write>(&self, f: &mut fmt::Formatter<W>) -> fmt::Result {
        write!(f, "from position {} to {}", self.from, self.to)
    }
}

/// Which image it is, and what is missing between those before it.
#[derive(Clone, Copy, Debug, PartialEq, Eq)]
pub struct Images {
    /// The image's number, from 0.
    pub number: u64,
    /// How many bytes of the stream lost images lacked, in all. At the greatest `u64` it stays.
    pub missing: u64,
    /// The first stream at its place that was cut off, if one was. It is never forgotten.
    pub cut: Option<CutOff>,
}

/// The first stream at a place that was cut off: the one that was before, or else this one, if it is.
pub(crate) fn first_cut(before: Option<CutOff>, cut: bool, own: CutOff) -> Option<CutOff>
    ensures { result ≡ first_cut before cut own }
{
    match before {
        Some(before) => Some(before),
        None => cut.then_some(own),
    }
}

/// What is missing between these positions; nothing, where the second isn't above the first.
pub fn loss_between(from: u64, to: u64) -> Option<Loss>
    ensures { result ≡ loss_between from to }
{
    if from < to {
        return Some(Loss { from, to });
    }
    None
}

/// A place, 0 to 15, and of how many images one is that is opened there.
#[derive(Clone, Copy, Debug, PartialEq, Eq)]
pub struct Seat {
    pub place: usize,
    pub share: u64,
}

impl Seat {
    /// The first place, where one image is alone.
    pub(crate) const FIRST: Seat = Seat { place: 0, share: 1 };
}

/// From the first number of a place to that of the next.
const FIRST_NUMBERS: u64 = 1 << 60;

impl Images {
    /// The first one of a place, 0 to 15.
    pub fn first(place: usize) -> Images
        requires { place < 16 }
        ensures { result ≡ first_image place }
    {
        Images {
            number: place as u64 * FIRST_NUMBERS,
            missing: 0,
            cut: None,
        }
    }

    /// The number of the next one.
    pub(crate) fn next_number(&self) -> u64
        ensures { result ≡ next self.now.number }
    {
        self.number.wrapping_add(1)
    }

    /// The next one, before which this is missing, where so a stream was cut off or none was.
    pub fn next(&self, loss: Option<Loss>, cut: Option<CutOff>) -> Images
        ensures { result ≡ next_images self.now loss cut }
    {
        let bytes = match loss {
            None => 0,
            Some(loss) => loss.to.saturating_sub(loss.from),
        };
        Images {
            number: self.next_number(),
            missing: self.missing.saturating_add(bytes),
            cut,
        }
    }
}

/// How many sessions are told at the most while an image lives.
const MOST: usize = 16;

/// The sessions that were told as not heard since an image was opened, 16 at the most.
#[derive(Drop)]
pub struct Unheard {
    sessions: [i32; MOST],
    count: usize,
}

impl Model for Unheard {
    ghost use Rattle.std.specs.Prelude.{◌≤◌, ℤ, List, take};

    ghost Value = { List ℤ };

    ghost view = { λ u. take u.count u.sessions };

    ghost invariant = { λ u. u.count ≤ 16 };
}

impl Unheard {
    /// None was told.
    pub fn new() -> Unheard
        ensures { result ≡ [] }
    {
        Unheard {
            sessions: [0; MOST],
            count: 0,
        }
    }

    /// Whether a session is to be told: it wasn't yet, and fewer than 16 were.
    pub fn is_unnamed(&self, session: i32) -> bool
        ensures { IsTrue result ↔ IsUnnamed self.now session }
    {
        self.count < MOST && !self.sessions[..self.count].contains(&session)
    }

    /// Notes that a session was told.
    pub fn name(&mut self, session: i32)
        requires { length self.old < 16 }
        ensures { self.new ≡ self.old ++ session ∷ [] }
    {
        self.sessions[self.count] = session;
        self.count += 1;
    }
}
