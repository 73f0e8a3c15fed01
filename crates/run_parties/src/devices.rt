//! The devices of a run.

ghost use Rattle.std.specs.Prelude.{◌≡◌, ◌≤◌, ◌<◌, ◌++◌, [], ◌∷◌, IfOk, OnOk};
ghost use Rattle.run_parties.specs.Devices.{AreLossy, IsLossy, reply_seed, way_seed};

use endpoint::{DeviceError, UdpDevice};
use loss_injector::{Lossy, Rates};
use std::alloc::{AllocError, Global};
use std::net::Net;

/// The devices of a run, by the receivers' numbers: the sender's ways, and the receivers'.
#[derive(Drop)]
pub struct LossyDevices {
    pub ways: Vec<Lossy<UdpDevice>>,
    pub replies: Vec<Lossy<UdpDevice>>,
}

impl LossyDevices {
    /// Puts a receiver's devices behind those that are there.
    fn put(&mut self, way: Lossy<UdpDevice>, reply: Lossy<UdpDevice>) -> Result<(), AllocError>
        ensures ways { OnOk result (self.new.ways.items ≡ self.old.ways.items ++ way ∷ []) }
        ensures replies { OnOk result (self.new.replies.items ≡ self.old.replies.items ++ reply ∷ []) }
    {
        self.ways.push(way)?;
        self.replies.push(reply)?;
        Ok(())
    }
}

/// The seed of the words by which the way of this number loses.
fn way_seed(seed: u64, number: u64) -> u64
    requires { number < 8 }
    ensures { result ≡ way_seed seed number }
{
    if number == 0 {
        seed
    } else {
        seed.wrapping_add(8 + number)
    }
}

/// The seed of the words by which the receiver of this number loses what it sends.
fn reply_seed(seed: u64, number: u64) -> u64
    requires { number < 8 }
    ensures { result ≡ reply_seed seed number }
{
    seed.wrapping_add(1 + number)
}

/// Two devices over UDP, each the other's peer. What goes from the first is lost, repeated and held back by words of the first
/// seed, and what goes from the second by those of the other.
fn lossy_pair<R: Net>(
    rt: &R,
    alloc: Global,
    rates: Rates,
    seeds: (u64, u64),
) -> Result<(Lossy<UdpDevice>, Lossy<UdpDevice>), DeviceError>
    ensures { IfOk result (λ pair. IsLossy rates seeds.0 pair.0 × IsLossy rates seeds.1 pair.1) }
{
    let (one, other) = UdpDevice::pair(rt, alloc)?;
    let way = Lossy::new(alloc, one, rates, seeds.0);
    let reply = Lossy::new(alloc, other, rates, seeds.1);
    Ok((way, reply))
}

/// Devices over UDP for so many receivers: a way of the sender's to each, and each receiver's own. What goes along the first
/// way is lost, repeated and held back by words of this seed, along way I by those of the seed and 8 + I, and what receiver I
/// sends by those of the seed and 1 + I, each wrapping. The fault is `Device` where the system refuses a socket, and `Memory`
/// where memory was refused.
pub fn lossy_devices<R: Net>(
    rt: &R,
    alloc: Global,
    rates: Rates,
    seed: u64,
    count: usize,
) -> Result<LossyDevices, DeviceError>
    requires { count ≤ 8 }
    ensures { IfOk result (λ d. AreLossy rates seed count d.ways.items d.replies.items) }
{
    let mut devices = LossyDevices {
        ways: Vec::new(alloc),
        replies: Vec::new(alloc),
    };
    for number in 0..count as u64 {
        let seeds = (way_seed(seed, number), reply_seed(seed, number));
        let (way, reply) = lossy_pair(rt, alloc, rates, seeds)?;
        devices.put(way, reply)?;
    }
    Ok(devices)
}
