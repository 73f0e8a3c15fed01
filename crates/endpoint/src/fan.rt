//! A device that sends along several others.

ghost use Rattle.std.specs.Prelude.{◌≡◌, Err, OnErr, OnOk};
ghost use Rattle.endpoint.specs.Calls.{CountsFailure, CountsNone, Receives, Sends};
ghost use Rattle.endpoint.specs.Devices.{NeverFall, counted};
ghost use Rattle.endpoint.specs.contracts.fan.Fan.{the_row};
ghost use Rattle.std.specs.Borrow.{Array, Lends, sem};
ghost use Rattle.endpoint.specs.Fans.{AllLive, ReceivesAlong, SendsAlong, all_live_on, all_still, fan_device, fanned, with_outcome, with_ways};

use crate::datagrams::{Datagrams, DeviceFailed};
use crate::ways::Ways;
use std::marker::Model;

/// A device over others, each the way to a peer of its own. A datagram goes along each way, in order, up to a fault: the ways
/// behind that one don't get it. What comes is taken from the way that was chosen last, at first from the first one. Its
/// counts are its own: a call fails where a way's does, and nothing has come where nothing came along the way.
///
/// As a device it tells nothing of its own. What each way carries is said of its `send` and `recv` by name, wherever that way
/// tells it.
#[derive(Drop)]
pub struct Fan<D> {
    ways: Vec<D>,
    turn: usize,
    failures: u64,
    nones: u64,
}

impl<D> Model for Fan<D> {
    ghost use Rattle.endpoint.specs.Fans.{Fanned};

    ghost Value = { Fanned D };

    ghost view = { λ f. record { ways = f.ways.items; turn = f.turn; failures = f.failures; nones = f.nones } };
}

impl<D> Fan<D> {
    /// A device over these, which has carried nothing.
    pub fn new(ways: Vec<D>) -> Fan<D>
        ensures { result ≡ fanned ways.items }
    {
        Fan {
            ways,
            turn: 0,
            failures: 0,
            nones: 0,
        }
    }

    /// The ways, in order.
    pub fn each(&self) -> &[D]
        ensures { result.now ≡ self.now.ways }
    {
        &self.ways
    }

    /// The ways, in order, to be changed.
    pub fn each_mut(&mut self) -> &mut [D]
        ensures value { result.now ≡ self.old.ways }
        ensures* writes_back { sem 𝓛 (Lends (the_row D.row) (Array D.row 0) self.entry result (with_ways self.old)) }
    {
        self.ways.as_mut_slice()
    }

    /// Counts what became of a receive.
    fn count(&mut self, received: &Result<Option<usize>, DeviceFailed>)
        ensures counted { self.new ≡ with_outcome received.now self.old }
        ensures not_fallen { NeverFall (fan_device self.old) (fan_device self.new) }
        ensures failures { CountsFailure received.now self.old.failures self.new.failures }
        ensures nones { CountsNone received.now self.old.nones self.new.nones }
    {
        match received {
            Ok(Some(_)) => {}
            Ok(None) => self.nones = self.nones.saturating_add(1),
            Err(_) => self.failures = self.failures.saturating_add(1),
        }
    }
}

/// Takes what has come along the way of this number. Nothing has where there is none.
fn receive_along<D: Datagrams>(
    ways: &mut [D],
    turn: usize,
    buffer: &mut [u8],
) -> Result<Option<usize>, DeviceFailed>
    ensures receives { ReceivesAlong D.device D.tells ways.old turn buffer.old result buffer.new ways.new }
    ensures lives { AllLive D.lives ways.old ways.new }
{
    if turn >= ways.len() {
        return Ok(None);
    }
    ways[turn].recv(buffer)
}

impl<D: Datagrams> Datagrams for Fan<D> {
    ghost device = { λ f. fan_device f };

    ghost tells = { λ _. ⊥ };

    ghost lives = { λ f g. AllLive D.lives f.ways g.ways };

    ghost lives_still = { λ f. all_still D.lives D.lives_still f.ways };

    ghost lives_on = { λ f g h. all_live_on D.lives D.lives_on f.ways g.ways h.ways };

    fn send(&mut self, datagram: &[u8]) -> Result<(), DeviceFailed>
        ensures counts { NeverFall (fan_device self.old) (fan_device self.new) }
        ensures sends { Sends ⊥ (fan_device self.old) datagram.now result (fan_device self.new) }
        ensures along { SendsAlong D.device D.tells self.old.ways datagram.now result self.new.ways }
        ensures lives { AllLive D.lives self.old.ways self.new.ways }
        ensures sent { OnOk result (self.new ≡ record self.old { ways = self.new.ways }) }
        ensures failed { OnErr result (self.new ≡ record self.old { ways = self.new.ways; failures = counted self.old.failures }) }
    {
        for way in self.ways.iter_mut() {
            if let Err(failed) = way.send(datagram) {
                self.failures = self.failures.saturating_add(1);
                return Err(failed);
            }
        }
        Ok(())
    }

    fn recv(&mut self, buffer: &mut [u8]) -> Result<Option<usize>, DeviceFailed>
        ensures counts { NeverFall (fan_device self.old) (fan_device self.new) }
        ensures receives { Receives ⊥ (fan_device self.old) buffer.old result buffer.new (fan_device self.new) }
        ensures along { ReceivesAlong D.device D.tells self.old.ways self.old.turn buffer.old result buffer.new self.new.ways }
        ensures lives { AllLive D.lives self.old.ways self.new.ways }
        ensures counted { self.new ≡ with_outcome result (record self.old { ways = self.new.ways }) }
    {
        let received = receive_along(&mut self.ways, self.turn, buffer);
        self.count(&received);
        received
    }

    fn failures(&self) -> u64 {
        self.failures
    }

    fn nones(&self) -> u64 {
        self.nones
    }
}

impl<D: Datagrams> Ways for Fan<D> {
    ghost use Rattle.std.specs.Prelude.{length};

    ghost way_count = { λ f. length f.ways };

    ghost turned = { λ f way. record f { turn = way } };

    ghost turned_lives = { λ f way. all_still D.lives D.lives_still f.ways };

    fn ways(&self) -> usize {
        self.ways.len()
    }

    fn turn_to(&mut self, way: usize) {
        self.turn = way;
    }
}
