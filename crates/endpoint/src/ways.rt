//! A device of several ways.

use crate::datagrams::Datagrams;

/// A device that carries datagrams to several peers and from them, along a way to each. What is sent goes along every way; what
/// comes is taken from the one that was chosen last.
pub trait Ways: Datagrams {
    ghost use Rattle.std.specs.Prelude.{◌≡◌, ℕ};

    /// How many ways it has.
    ghost way_count: { Self → ℕ };

    /// What it becomes where a way is chosen, by its number from 0.
    ghost turned: { Self → ℕ → Self };

    /// How many ways it has.
    fn ways(&self) -> usize
        ensures { result ≡ way_count self.now };

    /// Chooses a way, by its number from 0: from now on what comes is taken from it. Nothing comes from one that isn't there.
    fn turn_to(&mut self, way: usize)
        ensures turned { self.new ≡ turned self.old way }
        ensures failures { (Self.device self.new).failures ≡ (Self.device self.old).failures };

    /// A law: where a way is chosen it lives on.
    ghost turned_lives: { (d : Self) (way : ℕ) → Self.lives d (turned d way) };
}
