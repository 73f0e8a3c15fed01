//! A device in memory.

ghost use Rattle.std.specs.Prelude.{◌≡◌, ⊤, Ok, length, map, OnErr, OnOk};
ghost use Rattle.endpoint.specs.Calls.{Receives, Sends};
ghost use Rattle.endpoint.specs.Devices.{NeverFall};
ghost use Rattle.endpoint.specs.Memory.{empty, fails, filled_by, found_length, hands_over, sends, with_waiting};

use crate::datagrams::{Datagrams, DeviceFailed};
use std::alloc::{AllocError, Global};
use std::marker::Model;

/// A device that keeps all that it carries: what was sent through it, and what is put into it to be received.
#[derive(Drop)]
pub struct MemoryDevice {
    alloc: Global,
    sent: Vec<Vec<u8>>,
    came: Vec<Vec<u8>>,
    handed: usize,
    failures: u64,
    nones: u64,
}

impl Model for MemoryDevice {
    ghost use Rattle.std.specs.Prelude.{◌≤◌, drop, map, take, vec_len};
    ghost use Rattle.endpoint.specs.Memory.{Memory};

    ghost Value = { Memory };

    ghost view = { λ m. record { device = record { sent = map (λ d. d.items) m.sent.items; received = map (λ d. d.items) (take m.handed m.came.items); failures = m.failures; nones = m.nones }; waiting = map (λ d. d.items) (drop m.handed m.came.items) } };

    ghost invariant = { λ m. m.handed ≤ vec_len m.came };
}

impl MemoryDevice {
    /// A device that has carried nothing, and to which nothing has come.
    pub fn new(alloc: Global) -> MemoryDevice
        ensures { result ≡ empty }
    {
        MemoryDevice {
            alloc,
            sent: Vec::new(alloc),
            came: Vec::new(alloc),
            handed: 0,
            failures: 0,
            nones: 0,
        }
    }

    /// Lets a datagram come in, behind those that wait. The error comes only where memory was refused; then nothing has
    /// come.
    pub fn put(&mut self, datagram: &[u8]) -> Result<(), AllocError>
        ensures put { OnOk result (self.new ≡ with_waiting self.old datagram.now) }
        ensures refused { OnErr result (self.new ≡ self.old) }
    {
        let copy = Vec::from_slice(self.alloc, datagram)?;
        self.came.push(copy)?;
        Ok(())
    }

    /// What was sent, the oldest first.
    pub fn sent(&self) -> &[Vec<u8>]
        ensures { map (λ d. d.items) result.now ≡ self.now.device.sent }
    {
        &self.sent
    }

    /// Keeps a datagram with those sent.
    fn keep(&mut self, datagram: &[u8]) -> Result<(), AllocError>
        ensures kept { OnOk result (self.new ≡ sends self.old datagram.now) }
        ensures refused { OnErr result (self.new ≡ self.old) }
    {
        let copy = Vec::from_slice(self.alloc, datagram)?;
        self.sent.push(copy)?;
        Ok(())
    }
}

impl Datagrams for MemoryDevice {
    ghost device = { λ m. m.device };

    ghost tells = { λ _. ⊤ };

    ghost lives_still = { λ _. tt };

    ghost lives_on = { λ _ _ _ _ _. tt };

    /// Carries a datagram away, if memory for it isn't refused.
    fn send(&mut self, datagram: &[u8]) -> Result<(), DeviceFailed>
        ensures counts { NeverFall self.old.device self.new.device }
        ensures sends { Sends ⊤ self.old.device datagram.now result self.new.device }
        ensures sent { OnOk result (self.new ≡ sends self.old datagram.now) }
        ensures failed { OnErr result (self.new ≡ fails self.old) }
    {
        if self.keep(datagram).is_err() {
            self.failures = self.failures.saturating_add(1);
            return Err(DeviceFailed);
        }
        Ok(())
    }

    /// Hands over the first of the datagrams that wait, and never fails.
    fn recv(&mut self, buffer: &mut [u8]) -> Result<Option<usize>, DeviceFailed>
        ensures counts { NeverFall self.old.device self.new.device }
        ensures receives { Receives ⊤ self.old.device buffer.old result buffer.new self.new.device }
        ensures found { result ≡ Ok (found_length self.old.waiting (length buffer.old)) }
        ensures filled { buffer.new ≡ filled_by self.old.waiting buffer.old }
        ensures handed_over { self.new ≡ hands_over self.old.device self.old.waiting (length buffer.old) }
    {
        let Some(datagram) = self.came.get_mut(self.handed) else {
            self.nones = self.nones.saturating_add(1);
            return Ok(None);
        };
        datagram.truncate(buffer.len());
        let length = datagram.len();
        buffer[..length].copy_from_slice(datagram);
        self.handed += 1;
        Ok(Some(length))
    }

    fn failures(&self) -> u64 {
        self.failures
    }

    fn nones(&self) -> u64 {
        self.nones
    }
}
