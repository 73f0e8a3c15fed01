//! A device that never fails.

ghost use Rattle.std.specs.Prelude.{◌≡◌, ◌≤◌, IsOk, Ok};
ghost use Rattle.endpoint.specs.Calls.{CountsNone, Receives, Sends};
ghost use Rattle.endpoint.specs.Devices.{HasGrown, NeverFall};
ghost use Rattle.std.specs.Borrow.{Lends, sem};
ghost use Rattle.peer.specs.contracts.patient.PatientDevice.{the_row};
ghost use Rattle.peer.specs.Patience.{ReceivesPatiently, SendsPatiently, after_receive, found_by, patient, patient_device, with_loss, with_nothing, with_work};

use endpoint::{Datagrams, DeviceFailed};
use std::marker::Model;

/// A device round another. Where a call of that one fails, its datagram is lost: what was to be sent is gone, and nothing
/// has come. So no call of this one fails, and how many of the inner one did is counted.
#[derive(Drop)]
pub struct PatientDevice<D> {
    inner: D,
    nones: u64,
    lost: u64,
    worked: u64,
}

impl<D> Model for PatientDevice<D> {
    ghost use Rattle.peer.specs.Patience.{Patient};

    ghost Value = { Patient D };

    ghost view = { λ p. record { inner = p.inner; nones = p.nones; lost = p.lost; worked = p.worked } };
}

impl<D> PatientDevice<D> {
    /// A device round this one, through which nothing has gone yet.
    pub fn new(inner: D) -> PatientDevice<D>
        ensures { result ≡ patient inner }
    {
        PatientDevice {
            inner,
            nones: 0,
            lost: 0,
            worked: 0,
        }
    }

    /// The device behind it.
    pub fn inner(&self) -> &D
        ensures { result.now ≡ self.now.inner }
    {
        &self.inner
    }

    /// The device behind it, to be changed.
    pub fn inner_mut(&mut self) -> &mut D
        ensures value { result.now ≡ self.old.inner }
        ensures* writes_back { sem 𝓛 (Lends (the_row D.row) D.row self.entry result (λ w. record self.old { inner = w })) }
    {
        &mut self.inner
    }

    /// How many calls of the inner device failed. At the greatest `u64` it stays.
    pub fn lost(&self) -> u64
        ensures { result ≡ self.now.lost }
    {
        self.lost
    }

    /// How many didn't, modulo 2^64.
    pub fn worked(&self) -> u64
        ensures { result ≡ self.now.worked }
    {
        self.worked
    }

    /// Counts a call of the inner device that failed.
    fn lose(&mut self)
        ensures { self.new ≡ with_loss self.old }
    {
        self.lost = self.lost.saturating_add(1);
    }

    /// Counts one that didn't.
    fn work(&mut self)
        ensures { self.new ≡ with_work self.old }
    {
        self.worked = self.worked.wrapping_add(1);
    }

    /// Counts a receive that found nothing.
    fn find_none(&mut self)
        ensures counted { self.new ≡ with_nothing self.old }
        ensures grown { HasGrown self.old.nones self.new.nones }
        ensures not_fallen { self.old.nones ≤ self.new.nones }
    {
        self.nones = self.nones.saturating_add(1);
    }

    /// Counts a receive by what the inner device answered. What was found.
    fn note_receive(&mut self, answer: Result<Option<usize>, DeviceFailed>) -> Option<usize>
        ensures found { result ≡ found_by answer }
        ensures counted { self.new ≡ after_receive self.old answer }
        ensures inner { self.new.inner ≡ self.old.inner }
        ensures nones { CountsNone (Ok result) self.old.nones self.new.nones }
        ensures not_fallen { self.old.nones ≤ self.new.nones }
    {
        match answer {
            Ok(Some(length)) => {
                self.work();
                Some(length)
            }
            Ok(None) => {
                self.work();
                self.find_none();
                None
            }
            Err(_) => {
                self.lose();
                self.find_none();
                None
            }
        }
    }
}

impl<D: Datagrams> Datagrams for PatientDevice<D> {
    ghost device = { λ p. patient_device p.nones };

    ghost tells = { λ _. ⊥ };

    ghost lives_still = { λ _. tt };

    ghost lives_on = { λ _ _ _ _ _. tt };

    /// Hands a datagram to the inner device. Where that fails, the datagram is lost.
    fn send(&mut self, datagram: &[u8]) -> Result<(), DeviceFailed>
        ensures counts { NeverFall (patient_device self.old.nones) (patient_device self.new.nones) }
        ensures sends { Sends ⊥ (patient_device self.old.nones) datagram.now result (patient_device self.new.nones) }
        ensures never_fails { IsOk result }
        ensures patient { SendsPatiently D.device D.tells self.old datagram.now self.new }
    {
        match self.inner.send(datagram) {
            Ok(()) => self.work(),
            Err(_) => self.lose(),
        }
        Ok(())
    }

    /// Hands over what the inner device does. Where that fails, nothing has come.
    fn recv(&mut self, buffer: &mut [u8]) -> Result<Option<usize>, DeviceFailed>
        ensures counts { NeverFall (patient_device self.old.nones) (patient_device self.new.nones) }
        ensures receives { Receives ⊥ (patient_device self.old.nones) buffer.old result buffer.new (patient_device self.new.nones) }
        ensures patient { ReceivesPatiently D.device D.tells self.old buffer.old result buffer.new self.new }
    {
        let answer = self.inner.recv(buffer);
        Ok(self.note_receive(answer))
    }

    fn failures(&self) -> u64 {
        0
    }

    fn nones(&self) -> u64 {
        self.nones
    }
}
