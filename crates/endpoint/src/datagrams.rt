//! What carries datagrams.

ghost use Rattle.std.specs.Prelude.{◌≡◌, Some};
ghost use Rattle.endpoint.specs.Devices.{Device, GrowsByOne, IsHigherOnceGrown, NeverFall};
ghost use Rattle.endpoint.specs.Texts.{device_text};

use std::fmt;
use thiserror::Error;

/// How many bytes a datagram has at the most.
pub const GREATEST_DATAGRAM: usize = 65_536;

/// The device failed in this call, and has counted it. It may be used again.
#[derive(Clone, Copy, Debug, PartialEq, Eq, Error)]
pub struct DeviceFailed;

impl fmt::Display for DeviceFailed {
    ghost output = { λ _. Some device_text };

    fn fmt<W: fmt::Write>(&self, f: &mut fmt::Formatter<W>) -> fmt::Result {
        f.write_str(self.text())
    }
}

impl DeviceFailed {
    /// What a user sees.
    pub fn text(self) -> &'static str
        ensures { result.now ≡ device_text }
    {
        "device"
    }
}

/// A law: a count that has grown isn't lower, and is the same only at its greatest; one more is grown.
pub fn counts_grow()
    ensures higher { IsHigherOnceGrown }
    ensures by_one { GrowsByOne }
{}

/// A device that carries datagrams to one peer and from it. No call waits. Whether the peer gets what is sent, and what
/// comes, isn't the device's to say.
pub trait Datagrams {
    /// What it has carried away and handed over, and its counts.
    ghost device: { Self → Device };

    /// What it has carried away and handed over is known: a device in memory tells it, the system doesn't.
    ghost tells: { Self → Type 0 };

    /// What it is behind some of its calls, where that is said.
    ghost lives: { Self → Self → Type 0 } = { λ _ _. ⊤ };

    ghost use Rattle.std.specs.Prelude.{⊤};
    ghost use Rattle.endpoint.specs.Calls.{Receives, Sends};

    /// Carries a datagram away. The error comes only where the device failed in this call; then nothing was carried away.
    fn send(&mut self, datagram: &[u8]) -> Result<(), DeviceFailed>
        ensures counts { NeverFall (device self.old) (device self.new) }
        ensures sends { Sends (tells self.old) (device self.old) datagram.now result (device self.new) }
        ensures still_tells { tells self.old → tells self.new }
        ensures lives { lives self.old self.new };

    /// Hands a datagram over, if one has come, and gives its length in bytes. It stands at the buffer's front; of a
    /// longer one the buffer gets the first bytes, and the others are lost. The error comes only where the device failed
    /// in this call; then nothing was handed over.
    fn recv(&mut self, buffer: &mut [u8]) -> Result<Option<usize>, DeviceFailed>
        ensures counts { NeverFall (device self.old) (device self.new) }
        ensures receives { Receives (tells self.old) (device self.old) buffer.old result buffer.new (device self.new) }
        ensures still_tells { tells self.old → tells self.new }
        ensures lives { lives self.old self.new };

    /// How many calls failed. At the greatest `u64` it stays.
    fn failures(&self) -> u64
        ensures { result ≡ (device self.now).failures };

    /// How many times nothing had come. At the greatest `u64` it stays.
    fn nones(&self) -> u64
        ensures { result ≡ (device self.now).nones };

    /// A law: behind no call it is itself.
    ghost lives_still: { (d : Self) → lives d d };

    /// A law: what it is behind further calls, it is behind all of them.
    ghost lives_on: { (d e f : Self) → lives d e → lives e f → lives d f };
}
