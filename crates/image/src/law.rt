//! What the calls of an inserter are to the images of the definitions, and what a stored frame is to the units.

ghost use Rattle.image.specs.Law.{BeatsAreEvents, InsertsAreEvents, MoreUnitsReachFurther, StoringAddsUnits};

/// What `insert` and `heartbeat` say is one event of the definitions each, of every image that the inserter shows, whose
/// consumers stand where this call saw them, or further on; and the inserter shows the image after it.
pub fn calls_are_events()
    ensures inserts { InsertsAreEvents }
    ensures beats { BeatsAreEvents }
{}

/// Storing a frame adds its units and no others, and with more units the contiguous end is no smaller.
pub fn units_grow()
    ensures added { StoringAddsUnits }
    ensures further { MoreUnitsReachFurther }
{}
