//! A device round another, through which datagrams get lost.

ghost use Rattle.std.specs.Prelude.{◌≡◌, map};
ghost use Rattle.std.specs.Borrow.{Lends, sem};
ghost use Rattle.loss_injector.specs.contracts.lossy.Lossy.{the_row};
ghost use Rattle.endpoint.specs.Calls.{Receives, Sends};
ghost use Rattle.endpoint.specs.Devices.{NeverFall};
ghost use Rattle.loss_injector.specs.Losing.{SendsAll, SendsThrough, begun};

use crate::injector::{Injector, Way};
use crate::rates::Rates;
use endpoint::{Datagrams, DeviceFailed};
use rand_core::SeedableRng;
use rand_core::utils::NextWord;
use rand_pcg::Pcg32;
use std::alloc::Global;
use std::marker::Model;

/// A device round another. Each send draws one word of its generator, and hands the inner device what the injector
/// makes of the datagram by that word, in order, up to a fault. A datagram that is to be held back is lost where memory is
/// refused; nothing else asks for any. A receive is the inner device's, and draws none.
///
/// What it tells is the inner device's traffic, and not what was handed to it: so as a device it tells nothing of its
/// own, and what becomes of a datagram is said of its `send` by name, wherever the inner device tells.
#[derive(Drop)]
pub struct Lossy<D> {
    inner: D,
    injector: Injector,
    draws: Pcg32,
}

impl<D> Model for Lossy<D> {
    ghost use Rattle.loss_injector.specs.Losing.{Losing};

    ghost Value = { Losing D };

    ghost view = { λ l. record { inner = l.inner; injector = l.injector; draws = l.draws } };
}

impl<D> Lossy<D> {
    /// A device round this one, with a generator of this seed, that holds nothing back yet.
    pub fn new(alloc: Global, device: D, rates: Rates, seed: u64) -> Lossy<D>
        ensures { result ≡ begun device rates seed }
    {
        Lossy {
            inner: device,
            injector: Injector::new(alloc, rates),
            draws: Pcg32::seed_from_u64(seed),
        }
    }

    /// The device behind it.
    pub fn inner(&self) -> &D
        ensures { result.now ≡ self.now.inner }
    {
        &self.inner
    }

    /// The device behind it, to be changed.
    pub fn inner_mut(&mut self) -> &mut D
        ensures value { result.now ≡ self.old.inner }
        ensures* writes_back { sem 𝓛 (Lends (the_row D.row) D.row self.entry result (λ w. record self.old { inner = w })) }
    {
        &mut self.inner
    }
}

/// Hands datagrams to a device one after the other, up to a fault.
fn send_all<D: Datagrams>(device: &mut D, out: &[&[u8]]) -> Result<(), DeviceFailed>
    ensures counts { NeverFall (D.device device.old) (D.device device.new) }
    ensures sends { SendsAll (D.tells device.old) (D.device device.old) (map (λ d. d.now) out.now) result (D.device device.new) }
    ensures still_tells { D.tells device.old → D.tells device.new }
{
    for datagram in out {
        device.send(datagram)?;
    }
    Ok(())
}

impl<D: Datagrams> Datagrams for Lossy<D> {
    ghost device = { λ l. D.device l.inner };

    ghost tells = { λ _. ⊥ };

    ghost lives_still = { λ _. tt };

    ghost lives_on = { λ _ _ _ _ _. tt };

    fn send(&mut self, datagram: &[u8]) -> Result<(), DeviceFailed>
        ensures counts { NeverFall (D.device self.old.inner) (D.device self.new.inner) }
        ensures sends { Sends ⊥ (D.device self.old.inner) datagram.now result (D.device self.new.inner) }
        ensures through { SendsThrough D.device D.tells self.old datagram.now result self.new }
        ensures inner_tells { D.tells self.old.inner → D.tells self.new.inner }
    {
        let word = self.draws.next_word();
        match self.injector.way(word) {
            Way::Nowhere => Ok(()),
            Way::Kept => {
                let _ = self.injector.keep(datagram);
                Ok(())
            }
            Way::Goes { twice, behind } => match (twice, &behind) {
                (false, None) => send_all(&mut self.inner, &[datagram]),
                (true, None) => send_all(&mut self.inner, &[datagram, datagram]),
                (false, Some(held)) => send_all(&mut self.inner, &[datagram, held.as_slice()]),
                (true, Some(held)) => {
                    send_all(&mut self.inner, &[datagram, datagram, held.as_slice()])
                }
            },
        }
    }

    fn recv(&mut self, buffer: &mut [u8]) -> Result<Option<usize>, DeviceFailed>
        ensures counts { NeverFall (D.device self.old.inner) (D.device self.new.inner) }
        ensures receives { Receives (D.tells self.old.inner) (D.device self.old.inner) buffer.old result buffer.new (D.device self.new.inner) }
        ensures same { self.new ≡ record self.old { inner = self.new.inner } }
        ensures inner_tells { D.tells self.old.inner → D.tells self.new.inner }
    {
        self.inner.recv(buffer)
    }

    fn failures(&self) -> u64 {
        self.inner.failures()
    }

    fn nones(&self) -> u64 {
        self.inner.nones()
    }
}
