//! A device with its room, and a party's cycle over it.

ghost use Rattle.std.specs.Prelude.{◌≡◌, ◌≤◌, IfErr, IfOk};
ghost use Rattle.endpoint.specs.declared.device_error.DeviceError.TheVariants.{Memory};
ghost use Rattle.endpoint.specs.Devices.{NeverFall};
ghost use Rattle.std.specs.Borrow.{sem};
ghost use Rattle.agents.specs.Cycles.{Cycle, FailuresAreCounted, Fault, Hearing, MemoryLosesOne, Ticking};
ghost use Rattle.agents.specs.DutyLends.{lends_device};
ghost use Rattle.agents.specs.Rounds.{HearsWays, WayFault, WaysCycle, WaysFault};

use crate::party::Party;
use crate::sending::send_all;
use endpoint::{Datagrams, DeviceError, DeviceFailed, GREATEST_DATAGRAM, Ways};
use frames::Outbox;
use std::alloc::{AllocError, Global};
use std::marker::Model;

/// How many datagrams a cycle takes at the most.
pub const CYCLE_DATAGRAMS: usize = 16;

/// A device, and room for the datagrams that come and go over it.
#[derive(Drop)]
pub struct Duty<D> {
    device: D,
    outbox: Outbox,
    buffer: Vec<u8>,
}

/// The room for a device couldn't be had, since memory was refused. The device is given back.
#[derive(Debug, Drop)]
pub struct Denied<D> {
    pub device: D,
}

impl<D: Drop> From<Denied<D>> for DeviceError {
    ghost from_gives = { λ _ error. error ≡ Memory };

    fn from(_denied: Denied<D>) -> DeviceError {
        DeviceError::Memory
    }
}

impl<D> Model for Duty<D> {
    ghost use Rattle.agents.specs.Cycles.{DutyState};

    ghost Value = { DutyState D };

    ghost view = { λ d. record { device = d.device; mtu = d.outbox.mtu } };
}

/// Room for datagrams that go out, of at most `mtu` bytes, and for one that comes.
fn room(alloc: Global, mtu: u32) -> Result<(Outbox, Vec<u8>), AllocError>
    ensures { IfOk result (λ r. r.0.mtu ≡ mtu) }
{
    let outbox = Outbox::new(alloc, mtu)?;
    let buffer = vec![in alloc; 0; GREATEST_DATAGRAM]?;
    Ok((outbox, buffer))
}

impl<D> Duty<D> {
    /// Room for a party that gives out datagrams of at most `mtu` bytes, over this device.
    pub fn new(alloc: Global, device: D, mtu: u32) -> Result<Duty<D>, Denied<D>>
        ensures made { IfOk result (λ d. d ≡ record { device = device; mtu = mtu }) }
        ensures denied { IfErr result (λ d. d ≡ record { device = device }) }
    {
        let Ok((outbox, buffer)) = room(alloc, mtu) else {
            return Err(Denied { device });
        };
        Ok(Duty {
            device,
            outbox,
            buffer,
        })
    }

    /// The device.
    pub fn device(&self) -> &D
        ensures { result.now ≡ self.now.device }
    {
        &self.device
    }

    /// Gives the device back.
    pub fn into_device(self) -> D
        ensures { result ≡ self.device }
    {
        self.device
    }

    /// The device, to be told something.
    pub fn device_mut(&mut self) -> &mut D
        ensures* writes_back { sem 𝓛 (lends_device D.row self.entry result) }
        ensures value { result.now ≡ self.old.device }
    {
        &mut self.device
    }
}

/// A law: a fault of memory loses one datagram, and one of the device, which has counted it, none.
pub fn faults_are_explained()
    ensures memory { MemoryLosesOne }
    ensures device { FailuresAreCounted }
{}

impl<D: Datagrams> Duty<D> {
    /// Takes the datagrams that have come, 16 at the most, and sends what the party gives for each. The answer is how many
    /// there were.
    fn hear_all<P: Party>(&mut self, party: &mut P, now: u64) -> Result<usize, DeviceError>
        requires stands { P.stands party.old }
        requires size { self.old.mtu ≡ P.mtu party.old }
        ensures counts { NeverFall (D.device self.old.device) (D.device self.new.device) }
        ensures hears { Hearing P.hears now (D.tells self.old.device) 16 party.old (D.device self.old.device) result party.new (D.device self.new.device) }
        ensures stands { P.stands party.new }
        ensures size { (self.new.mtu ≡ self.old.mtu) × (P.mtu party.new ≡ P.mtu party.old) }
        ensures still_tells { D.tells self.old.device → D.tells self.new.device }
        ensures lives { D.lives self.old.device self.new.device }
    {
        for count in 0..CYCLE_DATAGRAMS {
            let Some(length) = self.device.recv(self.buffer.as_mut_slice())? else {
                return Ok(count);
            };
            let datagram = &self.buffer[..length];
            party.hear(datagram, now, &mut self.outbox)?;
            send_all(&mut self.device, &self.outbox)?;
        }
        Ok(CYCLE_DATAGRAMS)
    }

    /// Tells the party the moment, and sends what is due. Whether anything was.
    fn tick<P: Party>(&mut self, party: &mut P, now: u64) -> Result<bool, DeviceFailed>
        requires stands { P.stands party.old }
        requires size { self.old.mtu ≡ P.mtu party.old }
        ensures counts { NeverFall (D.device self.old.device) (D.device self.new.device) }
        ensures nones { (D.device self.new.device).nones ≡ (D.device self.old.device).nones }
        ensures ticks { Ticking P.ticks now (D.tells self.old.device) party.old (D.device self.old.device) result party.new (D.device self.new.device) }
        ensures stands { P.stands party.new }
        ensures size { (self.new.mtu ≡ self.old.mtu) × (P.mtu party.new ≡ P.mtu party.old) }
        ensures still_tells { D.tells self.old.device → D.tells self.new.device }
        ensures lives { D.lives self.old.device self.new.device }
    {
        party.tick(now, &mut self.outbox);
        send_all(&mut self.device, &self.outbox)?;
        Ok(self.outbox.len() > 0)
    }

    /// A cycle, at a moment in nanoseconds. At most 16 datagrams that have come are handed to the party, and what it gives
    /// for each is sent; then it is told the moment, and what is due is sent. Whether a datagram came or went. At a fault
    /// the rest of what the party gave isn't sent. Where it came while datagrams were taken or answered, the party isn't told
    /// the moment; it has been told where the device failed behind that. The next cycle may be called after it.
    pub fn cycle<P: Party>(&mut self, party: &mut P, now: u64) -> Result<bool, DeviceError>
        requires stands { P.stands party.old }
        requires size { self.old.mtu ≡ P.mtu party.old }
        ensures counts { NeverFall (D.device self.old.device) (D.device self.new.device) }
        ensures cycle { IfOk result (λ busy. Cycle P.hears P.ticks now (D.tells self.old.device) party.old (D.device self.old.device) busy party.new (D.device self.new.device)) }
        ensures fault { IfErr result (λ fault. Fault P.hears P.ticks now (D.tells self.old.device) fault party.old (D.device self.old.device) party.new (D.device self.new.device)) }
        ensures stands { P.stands party.new }
        ensures size { (self.new.mtu ≡ self.old.mtu) × (P.mtu party.new ≡ P.mtu party.old) }
        ensures still_tells { D.tells self.old.device → D.tells self.new.device }
        ensures lives { D.lives self.old.device self.new.device }
    {
        let heard = self.hear_all(party, now)?;
        let sent = self.tick(party, now)?;
        Ok(heard > 0 || sent)
    }
}

impl<D: Ways> Duty<D> {
    /// Takes the datagrams that have come along each way, in order, 16 at the most along each. Whether there were any.
    fn hear_ways<P: Party>(&mut self, party: &mut P, now: u64) -> Result<bool, DeviceError>
        requires stands { P.stands party.old }
        requires size { self.old.mtu ≡ P.mtu party.old }
        ensures counts { (D.device self.old.device).failures ≤ (D.device self.new.device).failures }
        ensures lives { D.lives self.old.device self.new.device }
        ensures hears { IfOk result (λ any. HearsWays P.hears P.ticks now D.device D.tells D.turned (D.way_count self.old.device) any party.old self.old.device party.new self.new.device) }
        ensures fault { IfErr result (λ fault. WayFault P.hears P.ticks now D.device D.tells D.turned (D.way_count self.old.device) fault party.old self.old.device party.new self.new.device) }
        ensures stands { P.stands party.new }
        ensures size { (self.new.mtu ≡ self.old.mtu) × (P.mtu party.new ≡ P.mtu party.old) }
    {
        let mut any = false;
        for way in 0..self.device.ways() {
            self.device.turn_to(way);
            let count = self.hear_all(party, now)?;
            any = any || count > 0;
        }
        Ok(any)
    }

    /// A cycle over a device of several ways, at a moment in nanoseconds: as `cycle` does, but at most 16 datagrams are taken
    /// from each way, in the order of the ways, and then the party is told the moment, once. What it gives out goes along all
    /// ways. Where a fault came while a way was heard, those behind it weren't.
    pub fn cycle_ways<P: Party>(&mut self, party: &mut P, now: u64) -> Result<bool, DeviceError>
        requires stands { P.stands party.old }
        requires size { self.old.mtu ≡ P.mtu party.old }
        ensures counts { (D.device self.old.device).failures ≤ (D.device self.new.device).failures }
        ensures lives { D.lives self.old.device self.new.device }
        ensures cycle { IfOk result (λ busy. WaysCycle P.hears P.ticks now D.device D.tells D.turned (D.way_count self.old.device) party.old self.old.device busy party.new self.new.device) }
        ensures fault { IfErr result (λ fault. WaysFault P.hears P.ticks now D.device D.tells D.turned (D.way_count self.old.device) fault party.old self.old.device party.new self.new.device) }
        ensures stands { P.stands party.new }
        ensures size { (self.new.mtu ≡ self.old.mtu) × (P.mtu party.new ≡ P.mtu party.old) }
    {
        let heard = self.hear_ways(party, now)?;
        let sent = self.tick(party, now)?;
        Ok(heard || sent)
    }
}
