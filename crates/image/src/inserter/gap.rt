//! What is missing.

ghost use Rattle.std.specs.Prelude.{◌≡◌, ℕ, ◌+◌, ◌-◌, ◌*◌, ◌/◌, ◌%◌, ◌^◌, ◌<◌, ◌≤◌, IfNone, IfSome};
ghost use Rattle.theory.specs.Gap as meant;
ghost use Rattle.theory.specs.Gap.{IsAnswer};
ghost use Rattle.theory.specs.Units.{IsContiguous, contiguous};
ghost use Rattle.position.specs.Gaps.{gap_of};
ghost use Rattle.image.specs.Looks.{IsFirstHeld, TellsUnits};
ghost use Rattle.image.specs.Rebuilding.{IsInserterOf, geometry_of, join_of};

use crate::inserter::Inserter;
use crate::inserter::looking::held_bits;
use crate::steps::Steps;
use crate::words::Image;
use position::Gap;

/// A word of the bits that say which units were stored, 64 in a word: bit `p % 2048 / 32` of word `p % (3 * T) / 2048` is
/// set exactly where the unit at p was stored, for each p from the floor on, below three terms T more. Each call is a look
/// that `steps` counts.
pub fn held_word(image: &Image, inserter: &mut Inserter, index: usize, steps: &mut Steps) -> u64
    requires fits { IsInserterOf image.now inserter.old }
    requires index { index < 3 * (geometry_of inserter.old).term_length / 2048 }
    requires few { steps.old < 2 ^ 63 }
    ensures same { inserter.new ≡ inserter.old }
    ensures units { TellsUnits (geometry_of inserter.old).term_length inserter.old.floor inserter.old.stored index result }
    ensures counted { steps.new ≡ steps.old + 1 }
{
    steps.add_one();
    held_bits(image, &mut inserter.words, index)
}

/// The first position of a range at which something was stored, or the range's end.
fn first_held(
    image: &Image,
    inserter: &mut Inserter,
    start: u64,
    end: u64,
    steps: &mut Steps,
) -> u64
    requires fits { IsInserterOf image.now inserter.old }
    requires unit { start % 32 ≡ 0 }
    requires from { inserter.old.floor ≤ start }
    requires some { start < end }
    requires near { end ≤ inserter.old.floor + 3 * (geometry_of inserter.old).term_length }
    requires low { end ≤ 2 ^ 56 }
    requires few { steps.old < 2 ^ 62 }
    ensures same { inserter.new ≡ inserter.old }
    ensures first { IsFirstHeld inserter.old.stored start end result }
    ensures looks { steps.new ≤ steps.old + (result - start) / 2048 + 2 }
{
    let size = 3 * u64::from(image.identity().geometry().term_length());
    let mut at = start;
    while at < end {
        let word = held_word(image, inserter, (at % size) as usize / 2048, steps);
        let from = word & (u64::MAX << (at % 2048 / 32));
        if from != 0 {
            return (at - at % 2048 + 32 * u64::from(from.trailing_zeros())).min(end);
        }
        at += 2048 - at % 2048;
    }
    end
}

/// The first gap of what was stored: from the contiguous end to the next position at which something was stored, the
/// high-water mark or the end of the term, whichever comes first. There is none where the contiguous end is the mark. For a
/// gap of so many bytes it looks at `bytes / 2048 + 2` words at the most.
pub fn first_gap(image: &Image, inserter: &mut Inserter, steps: &mut Steps) -> Option<Gap>
    requires fits { IsInserterOf image.now inserter.old }
    requires few { steps.old < 2 ^ 62 }
    ensures same { inserter.new ≡ inserter.old }
    ensures value { gap_of result ≡ meant.gap_of (geometry_of inserter.old).term_length inserter.old.stored inserter.old.high (contiguous inserter.old.stored (join_of inserter.old) inserter.old.high) }
    ensures gap { (c : ℕ) → IsContiguous inserter.old.stored (join_of inserter.old) c → IsAnswer (geometry_of inserter.old).term_length inserter.old.stored inserter.old.high c (gap_of result) }
    ensures looks { IfSome result (λ gap. steps.new ≤ steps.old + gap.length / 2048 + 2) }
    ensures none { IfNone result (steps.new ≡ steps.old) }
{
    inserter.stored_apart();
    let start = inserter.rebuilt();
    let high = inserter.high_water();
    if start == high {
        return None;
    }
    let geometry = image.identity().geometry();
    let term_end = geometry.term_start(start) + u64::from(geometry.term_length());
    let bound = high.min(term_end);
    let end = first_held(image, inserter, start, bound, steps);
    Some(Gap {
        start,
        length: end - start,
    })
}
