//! Laws: what several sessions are, one is alone.

ghost use Rattle.subscriber.specs.Breaking.{OnePlaceBreaks};
ghost use Rattle.subscriber.specs.Endings.{OneSessionEnds};
ghost use Rattle.subscriber.specs.Living.{EachPlaceWrites, OnePlaceWrites};

/// A law: with one place, what was written is what one session wrote, whose images had the whole window.
pub fn one_place_writes()
    ensures { OnePlaceWrites }
{}

/// A law: each place's share of what was written is what a subscriber with that place alone would have written.
pub fn each_place_writes()
    ensures { EachPlaceWrites }
{}

/// A law: with one place, what a fault broke off is what it breaks off of one session.
pub fn one_place_breaks()
    ensures { OnePlaceBreaks }
{}

/// A law: with one session, how a subscriber ends is how one ends that follows one alone.
pub fn one_session_ends()
    ensures { OneSessionEnds }
{}
