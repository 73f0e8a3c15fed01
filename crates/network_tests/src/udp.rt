use endpoint::{Datagrams, DeviceFailed, UdpDevice};
use loss_injector::Lossy;
use std::alloc::{AllocError, Global};
use std::process::Abort;
use std::test::*;
use std::thread;

/// How often a receive is tried at the most.
const TRIES: u32 = 1_000_000;

/// What comes next, if it comes within so many tries.
fn next_length(device: &mut UdpDevice, buffer: &mut [u8]) -> Result<Option<usize>, DeviceFailed> {
    for _ in 0..TRIES {
        let found = device.recv(buffer)?;
        if found.is_some() {
            return Ok(found);
        }
        thread::yield_now();
    }
    Ok(None)
}

/// A device may go to another thread.
fn may_move<D: Datagrams + Send>() {}

/// Whether a datagram of so many bytes comes, with which eight bytes of 7 become these.
fn brings(device: &mut UdpDevice, length: usize, bytes: &[u8; 8]) -> bool {
    let mut buffer = [7; 8];
    next_length(device, &mut buffer) == Ok(Some(length)) && buffer == *bytes
}

/// Nothing is there before it was sent; what is sent comes whole, or as far as the buffer goes.
fn hand_over<R: Abort>(rt: &R, near: &mut UdpDevice, far: &mut UdpDevice) {
    assert!(rt; far.recv(&mut [0; 8]) == Ok(None));
    assert!(rt; near.send(b"abc").is_ok());
    assert!(rt; brings(far, 3, b"abc\x07\x07\x07\x07\x07"));
    assert!(rt; far.send(b"longer than eight").is_ok());
    assert!(rt; brings(near, 8, b"longer t"));
}

#[test]
fn hands_over(rt: HostRuntime) -> Result<(), Fail> {
    let (mut near, mut far) = UdpDevice::pair(&rt, rt.alloc())?;
    hand_over(&rt, &mut near, &mut far);
    assert!(rt; near.failures() == 0 && far.failures() == 0);
    assert!(rt; far.nones() > 0);
    may_move::<UdpDevice>();
    may_move::<Lossy<UdpDevice>>();
    Ok(())
}

/// Whether a device sends, and nothing comes.
fn is_unheard(device: &mut UdpDevice) -> bool {
    device.send(b"abc").is_ok() && device.recv(&mut [0; 8]) == Ok(None)
}

#[test]
fn closed_port(rt: HostRuntime) -> Result<(), Fail> {
    let (mut near, far) = UdpDevice::pair(&rt, rt.alloc())?;
    drop(far);
    for _ in 0..8 {
        assert!(rt; is_unheard(&mut near));
    }
    assert!(rt; near.failures() == 0 && near.nones() == 8);
    Ok(())
}

/// Whether a device fails at a datagram that is too long.
fn fails_at_length(alloc: Global, device: &mut UdpDevice) -> Result<bool, AllocError> {
    let long = vec![in alloc; 0; 65_508]?;
    Ok(device.send(&long) == Err(DeviceFailed))
}

/// Fails without a peer, and with one at a datagram that is too long; and goes on behind both.
fn fail_and_go_on<R: Abort>(
    rt: &R,
    alloc: Global,
    lonely: &mut UdpDevice,
    port: u16,
) -> Result<(), Fail> {
    assert!(rt; lonely.send(b"abc") == Err(DeviceFailed));
    lonely.connect(port)?;
    assert!(rt; fails_at_length(alloc, lonely)?);
    assert!(rt; lonely.send(b"abc").is_ok());
    assert!(rt; lonely.failures() == 2);
    Ok(())
}

#[test]
fn fails_and_goes_on(rt: HostRuntime) -> Result<(), Fail> {
    let peer = UdpDevice::bind(&rt, rt.alloc())?;
    let mut lonely = UdpDevice::bind(&rt, rt.alloc())?;
    fail_and_go_on(&rt, rt.alloc(), &mut lonely, peer.port())
}

#[test]
fn text(rt: HostRuntime) {
    assert!(rt; DeviceFailed.text() == "device");
}
