//! Who has duties.

ghost use Rattle.std.specs.Prelude.{◌≡◌, ℕ, List, [], OnErr, OnOk};

use frames::Outbox;
use std::alloc::AllocError;

/// What hears datagrams and is told moments, and gives datagrams out: a sender's core, a receiver's core, or one with its subscriber.
pub trait Party {
    /// It is as its calls want it.
    ghost stands: { Self → Type 0 };

    /// How many bytes a datagram that it gives out has at the most.
    ghost mtu: { Self → ℕ };

    /// What it becomes by a datagram at a moment, and what it gives out.
    ghost hears: { Self → ℕ → List ℕ → Self → List (List ℕ) → Type 0 };

    /// What it becomes by a moment, and what it gives out.
    ghost ticks: { Self → ℕ → Self → List (List ℕ) → Type 0 };

    /// Takes a datagram, at a moment in nanoseconds. The outbox is emptied, and then holds what goes out. At an error
    /// memory was refused, and nothing has changed.
    fn hear(&mut self, datagram: &[u8], now: u64, outbox: &mut Outbox) -> Result<(), AllocError>
        requires stands { stands self.old }
        requires size { outbox.old.mtu ≡ mtu self.old }
        ensures heard { OnOk result (hears self.old now datagram.now self.new outbox.new.datagrams) }
        ensures refused { OnErr result (self.new ≡ self.old) }
        ensures stands { stands self.new }
        ensures same_mtu { mtu self.new ≡ mtu self.old }
        ensures size { outbox.new.mtu ≡ outbox.old.mtu };

    /// Takes a moment in nanoseconds. The outbox is emptied, and then holds what goes out.
    fn tick(&mut self, now: u64, outbox: &mut Outbox)
        requires stands { stands self.old }
        requires size { outbox.old.mtu ≡ mtu self.old }
        ensures ticks { ticks self.old now self.new outbox.new.datagrams }
        ensures stands { stands self.new }
        ensures same_mtu { mtu self.new ≡ mtu self.old }
        ensures size { outbox.new.mtu ≡ outbox.old.mtu };
}
