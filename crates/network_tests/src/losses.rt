use endpoint::{Datagrams, FailingDatagrams, MemoryDevice};
use loss_injector::{Injector, Lossy, Rates};
use rand_core::SeedableRng;
use rand_core::utils::NextWord;
use rand_pcg::Pcg32;
use std::alloc::Global;
use std::test::*;

/// The seed of the words, and how many datagrams are sent.
const SEED: u64 = 1;

const DATAGRAMS: u32 = 200;

/// What an injector makes of numbered datagrams by the words of the seed.
fn injected(alloc: Global, rates: Rates) -> Result<Vec<Vec<u8>>, Fail> {
    let mut draws = Pcg32::seed_from_u64(SEED);
    let mut injector = Injector::new(alloc, rates);
    let mut out = Vec::new(alloc);
    for number in 0..DATAGRAMS {
        let datagram = Vec::from_slice(alloc, &number.to_le_bytes())?;
        let mut given = injector.push(datagram, draws.next_word())?;
        out.append(&mut given)?;
    }
    Ok(out)
}

/// What a device has sent on of the numbered datagrams.
fn sent_through(alloc: Global, rates: Rates) -> Result<Lossy<MemoryDevice>, Fail> {
    let mut device = Lossy::new(alloc, MemoryDevice::new(alloc), rates, SEED);
    for number in 0..DATAGRAMS {
        device.send(&number.to_le_bytes())?;
    }
    Ok(device)
}

#[test]
fn loses_what_the_injector_loses(rt: HostRuntime) -> Result<(), Fail> {
    let rates = Rates::new(100, 50, 50)?;
    let device = sent_through(rt.alloc(), rates)?;
    let wanted = injected(rt.alloc(), rates)?;
    assert!(rt; device.inner().sent() == wanted.as_slice());
    assert!(rt; wanted.len() == 184);
    Ok(())
}

/// A device that loses nothing, over one of which the second call fails.
fn failing(alloc: Global) -> Result<Lossy<FailingDatagrams<MemoryDevice>>, Fail> {
    let rates = Rates::new(0, 0, 0)?;
    let failing = FailingDatagrams::new(MemoryDevice::new(alloc), 2);
    Ok(Lossy::new(alloc, failing, rates, SEED))
}

/// Which of three sends are carried out.
fn sends<D: Datagrams>(device: &mut D) -> [bool; 3] {
    [
        device.send(b"a").is_ok(),
        device.send(b"b").is_ok(),
        device.send(b"c").is_ok(),
    ]
}

#[test]
fn passes_a_fault_on(rt: HostRuntime) -> Result<(), Fail> {
    let mut device = failing(rt.alloc())?;
    assert!(rt; sends(&mut device) == [true, false, true]);
    assert!(rt; device.failures() == 1);
    assert!(rt; device.inner().inner().sent().len() == 2);
    Ok(())
}
