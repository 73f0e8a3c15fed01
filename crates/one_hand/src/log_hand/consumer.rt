//! Which consumer a pass is.

ghost use Rattle.std.specs.Prelude.{◌≡◌, ◌<◌, map, slice_index};
ghost use Rattle.one_hand.specs.Readers.{below};
ghost use Rattle.shared_log.specs.Keepers.{flag_of};

/// One of the consumers of a pass: its number, its place among them, and where it stands.
#[derive(Clone, Copy, Debug, PartialEq, Eq)]
pub struct Consumer {
    pub number: u64,
    pub place: u64,
    pub position: u64,
}

/// How many of those that are there have a number below this one.
pub(crate) fn place_of(there: &[bool; 8], number: usize) -> u64
    requires { number < 8 }
    ensures { result ≡ below (map flag_of there.now) number }
{
    let mut place = 0;
    for other in 0..number {
        if there[other] {
            place += 1;
        }
    }
    place
}

/// The consumer with a number, by who is there and where each stands.
pub(crate) fn consumer_of(there: &[bool; 8], positions: &[u64; 8], number: usize) -> Consumer
    requires { number < 8 }
    ensures number { result.number ≡ number }
    ensures place { result.place ≡ below (map flag_of there.now) number }
    ensures position { result.position ≡ slice_index positions.now number }
{
    Consumer {
        number: number as u64,
        place: place_of(there, number),
        position: positions[number],
    }
}
