//! A device that fails on purpose.

ghost use Rattle.std.specs.Prelude.{◌≡◌, ◌↔◌, Err, IsTrue};
ghost use Rattle.endpoint.specs.Calls.{Receives, Sends};
ghost use Rattle.endpoint.specs.Devices.{NeverFall};
ghost use Rattle.endpoint.specs.Failing.{IsDue, PassesReceive, PassesSend, failing_device, own_failures, with_call};

use crate::datagrams::{Datagrams, DeviceFailed};
use std::marker::Model;

/// A device that fails its nth call, a send or a receive, and counts that failure. Every other call is the inner
/// device's.
#[derive(Drop)]
pub struct FailingDatagrams<D> {
    inner: D,
    nth: u64,
    calls: u64,
}

impl<D> Model for FailingDatagrams<D> {
    ghost use Rattle.endpoint.specs.Failing.{Failing};

    ghost Value = { Failing D };

    ghost view = { λ f. record { inner = f.inner; nth = f.nth; calls = f.calls } };
}

impl<D> FailingDatagrams<D> {
    /// A device whose nth call fails, counted from 1; none does at 0.
    pub fn new(device: D, nth: u64) -> FailingDatagrams<D>
        ensures { result ≡ record { inner = device; nth = nth; calls = 0 } }
    {
        FailingDatagrams {
            inner: device,
            nth,
            calls: 0,
        }
    }

    /// The device behind it.
    pub fn inner(&self) -> &D
        ensures { result.now ≡ self.now.inner }
    {
        &self.inner
    }

    /// Counts a call. The answer is whether it's the one that fails.
    fn is_due(&mut self) -> bool
        ensures due { IsTrue result ↔ IsDue self.old }
        ensures counted { self.new ≡ with_call self.old }
        ensures fails { IsDue self.old → (own_failures self.old ≡ 0) × (own_failures self.new ≡ 1) }
        ensures passes { ¬ IsDue self.old → own_failures self.new ≡ own_failures self.old }
    {
        let due = self.calls.checked_add(1) == Some(self.nth);
        self.calls = self.calls.saturating_add(1);
        due
    }

    /// The call that fails has been.
    fn has_failed(&self) -> bool
        ensures { IsTrue result ↔ (own_failures self.now ≡ 1) }
    {
        1 <= self.nth && self.nth <= self.calls
    }
}

impl<D: Datagrams> Datagrams for FailingDatagrams<D> {
    ghost device = { λ f. failing_device (D.device f.inner) f };

    ghost tells = { λ f. D.tells f.inner };

    ghost lives_still = { λ _. tt };

    ghost lives_on = { λ _ _ _ _ _. tt };

    fn send(&mut self, datagram: &[u8]) -> Result<(), DeviceFailed>
        ensures counts { NeverFall (failing_device (D.device self.old.inner) self.old) (failing_device (D.device self.new.inner) self.new) }
        ensures sends { Sends (D.tells self.old.inner) (failing_device (D.device self.old.inner) self.old) datagram.now result (failing_device (D.device self.new.inner) self.new) }
        ensures still_tells { D.tells self.old.inner → D.tells self.new.inner }
        ensures fails { IsDue self.old → (result ≡ Err (record {})) × (self.new ≡ with_call self.old) }
        ensures passes { ¬ IsDue self.old → PassesSend D.device D.tells self.old datagram.now result self.new }
    {
        if self.is_due() {
            return Err(DeviceFailed);
        }
        self.inner.send(datagram)
    }

    fn recv(&mut self, buffer: &mut [u8]) -> Result<Option<usize>, DeviceFailed>
        ensures counts { NeverFall (failing_device (D.device self.old.inner) self.old) (failing_device (D.device self.new.inner) self.new) }
        ensures receives { Receives (D.tells self.old.inner) (failing_device (D.device self.old.inner) self.old) buffer.old result buffer.new (failing_device (D.device self.new.inner) self.new) }
        ensures still_tells { D.tells self.old.inner → D.tells self.new.inner }
        ensures fails { IsDue self.old → (result ≡ Err (record {})) × (buffer.new ≡ buffer.old) × (self.new ≡ with_call self.old) }
        ensures passes { ¬ IsDue self.old → PassesReceive D.device D.tells self.old buffer.old result buffer.new self.new }
    {
        if self.is_due() {
            return Err(DeviceFailed);
        }
        self.inner.recv(buffer)
    }

    fn failures(&self) -> u64 {
        let own = u64::from(self.has_failed());
        self.inner.failures().saturating_add(own)
    }

    fn nones(&self) -> u64 {
        self.inner.nones()
    }
}
