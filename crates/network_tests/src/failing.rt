use endpoint::{Datagrams, FailingDatagrams, MemoryDevice};
use std::alloc::{AllocError, Global};
use std::test::*;

/// A device to which three datagrams have come, of which one call fails.
fn failing(alloc: Global, nth: u64) -> Result<FailingDatagrams<MemoryDevice>, AllocError> {
    let mut memory = MemoryDevice::new(alloc);
    for _ in 0..3 {
        memory.put(b"abc")?;
    }
    Ok(FailingDatagrams::new(memory, nth))
}

/// Whether a call fails: each odd one sends, each even one receives.
fn fails(device: &mut FailingDatagrams<MemoryDevice>, call: u64) -> bool {
    if call % 2 == 1 {
        device.send(b"xyz").is_err()
    } else {
        device.recv(&mut [0; 8]).is_err()
    }
}

/// Of six calls exactly this one fails.
fn fails_alone(device: &mut FailingDatagrams<MemoryDevice>, nth: u64) -> bool {
    for call in 1..=6u64 {
        if fails(device, call) != (call == nth) {
            return false;
        }
    }
    device.failures() == 1
}

#[test]
fn fails_the_nth_call(rt: HostRuntime) -> Result<(), Fail> {
    for nth in 1..=6u64 {
        let mut device = failing(rt.alloc(), nth)?;
        assert!(rt; fails_alone(&mut device, nth));
        let sends = if nth % 2 == 1 { 2 } else { 3 };
        assert!(rt; device.inner().sent().len() == sends);
    }
    Ok(())
}
