ghost use Rattle.std.specs.Prelude.{[], ◌∷◌};

use crossbeam_utils::atomic::Words;

/// What a reading shows: positions of a stream, in bytes. All are zero before anything was published.
#[derive(Clone, Copy, Debug, PartialEq, Eq)]
pub struct Readings {
    /// Where the consumer stands that is furthest behind.
    pub least: u64,
    /// Up to where the stream is there with no gap.
    pub rebuilt: u64,
    /// Where what has come of the stream ends.
    pub high_water: u64,
}

impl Words<3> for Readings {
    ghost words = { λ r. r.least ∷ r.rebuilt ∷ r.high_water ∷ [] };

    fn to_words(self) -> [u64; 3] {
        [self.least, self.rebuilt, self.high_water]
    }

    fn from_words(bits: &[u64; 3]) -> Readings {
        Readings {
            least: bits[0],
            rebuilt: bits[1],
            high_water: bits[2],
        }
    }
}
