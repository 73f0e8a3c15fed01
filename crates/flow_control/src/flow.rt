ghost use Rattle.std.specs.Prelude.{◌≡◌, ◌≤◌, ℕ, ℤ, Bool, max, pos, ◌+ℤ◌};
ghost use Rattle.theory.specs.FlowLimit.{clipped};

/// What a sender asks before it sends. The limit never falls, and is never above what status messages have allowed.
pub trait FlowControl {
    ghost reached: { Self → ℕ };

    ghost allowed: { Self → ℕ };

    ghost has_heard: { Self → Bool };

    /// What a status message makes of it: by its position, its window, its receiver's id and the moment.
    ghost after_status: { Self → ℤ → ℤ → ℤ → ℕ → Self };

    /// What a moment makes of it.
    ghost after_tick: { Self → ℕ → Self };

    /// Takes a status message that doesn't ask for a SETUP: a consumer's position and its window in bytes, any numbers,
    /// the id of the receiver, and the moment in nanoseconds.
    fn on_status(&mut self, position: i64, window: i32, receiver: i64, now: u64)
        ensures state { self.new ≡ after_status self.old position window receiver now }
        ensures never_falls { reached self.old ≤ reached self.new }
        ensures allows { allowed self.new ≤ max (clipped (position +ℤ window)) (allowed self.old) };

    /// The position that no frame may pass.
    fn limit(&self) -> i64
        ensures value { result ≡ pos (reached self.now) }
        ensures within { reached self.now ≤ allowed self.now };

    /// Whether such a status message has come of each receiver that is waited for: of one, whatever its id, or of all in a
    /// group.
    fn heard(&self) -> bool
        ensures { result ≡ has_heard self.now };

    /// Takes a moment, in nanoseconds.
    fn tick(&mut self, now: u64)
        ensures state { self.new ≡ after_tick self.old now }
        ensures never_falls { reached self.old ≤ reached self.new }
        ensures allows { allowed self.new ≤ allowed self.old };
}
