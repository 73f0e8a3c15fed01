//! How fast something went, as text.

ghost use Rattle.std.specs.Prelude.{◌≡◌, Some};
ghost use Rattle.text.specs.Paces.{PacesAreCut, pace_text, rate};

use std::fmt;

/// A law: three in a twelfth of a second are 36 a second, and that time is shown as 0.083 s.
pub fn paces_are_cut()
    ensures { PacesAreCut }
{}

/// So many of something in so many nanoseconds. As text it is as `in 0.312 s, 3205 a second`: the time's thousandths of a
/// second are cut, not rounded.
#[derive(Clone, Copy, Debug, PartialEq, Eq)]
pub struct Pace {
    pub count: u64,
    pub nanoseconds: u64,
}

impl Pace {
    /// How many in a second, cut to a whole number, and at the greatest `u64`. No time counts as one nanosecond.
    pub fn rate(self) -> u64
        ensures { result ≡ rate self }
    {
        let scaled = u128::from(self.count) * 1_000_000_000;
        let rate = scaled / u128::from(self.nanoseconds.max(1));
        rate.min(u128::from(u64::MAX)) as u64
    }
}

impl fmt::Display for Pace {
    ghost output = { λ pace. Some (pace_text pace) };

    fn fmt<W: fmt::Write>(&self, f: &mut fmt::Formatter<W>) -> fmt::Result {
        let (rate, milliseconds) = (self.rate(), self.nanoseconds / 1_000_000);
        let (seconds, tenths) = (milliseconds / 1000, milliseconds / 100 % 10);
        let (hundredths, thousandths) = (milliseconds / 10 % 10, milliseconds % 10);
        write!(
            f,
            "in {seconds}.{tenths}{hundredths}{thousandths} s, {rate} a second"
        )
    }
}
