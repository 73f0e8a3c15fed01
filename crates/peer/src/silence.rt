//! For how long something didn't happen.

ghost use Rattle.std.specs.Prelude.{◌≡◌, ◌-◌, not, nat_eq};
ghost use Rattle.peer.specs.Silences.{judged, never, seen_at};

/// How often something had happened when it was looked at last, and since when that count stands.
#[derive(Clone, Copy, Debug, PartialEq, Eq)]
pub struct Silence {
    pub count: u64,
    /// In nanoseconds.
    pub since: u64,
}

impl Silence {
    /// Up to the moment 0 it hasn't happened.
    pub fn new() -> Silence
        ensures { result ≡ never }
    {
        Silence { count: 0, since: 0 }
    }

    /// Sees at a moment, in nanoseconds, how often it has happened. Whether that is other than before.
    pub fn see(&mut self, count: u64, now: u64) -> bool
        ensures other { result ≡ not (nat_eq count self.old.count) }
        ensures seen { self.new ≡ seen_at self.old count now }
    {
        if count == self.count {
            return false;
        }
        *self = Silence { count, since: now };
        true
    }

    /// For how many nanoseconds it didn't happen.
    pub fn lasts(&self, now: u64) -> u64
        ensures { result ≡ now - self.now.since }
    {
        now.saturating_sub(self.since)
    }

    /// The same, where it is to be judged at all: where all that was there has been looked at.
    pub fn judged(&self, at_rest: bool, now: u64) -> Option<u64>
        ensures { result ≡ judged self.now at_rest now }
    {
        if at_rest { Some(self.lasts(now)) } else { None }
    }
}
