//! Laws of an input.

ghost use Rattle.messages.specs.Readings.{HaveOneReading};

/// An input has one reading: two answers of the same bytes are the same message, and leave the same.
pub fn have_one_reading()
    ensures { HaveOneReading }
{}
