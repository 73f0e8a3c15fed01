//! Where datagrams go out and come in: over UDP, in memory, and a device that fails on purpose, behind one trait of a
//! send and a receive (`Datagrams`).
//!
//! For any device it is said what each call leaves of it. A failure is answered exactly in a call that counts one,
//! and a receive that found nothing in one that counts that; neither count ever falls, and at the greatest of 64 bits
//! it stays, which is read as grown (`counts_grow`). What was found fits the buffer, whose bytes behind it stay. Where a device tells
//! what it carries, a send adds the datagram to what it has carried away, or nothing where it failed, and a receive
//! adds to what it has handed over what stands in the buffer.
//!
//! A device in memory tells: it hands over what was put into it, in order, cut to the buffer, and a receive from it
//! never fails (`MemoryDevice`). One that fails on purpose fails its nth call and no other; every other is the inner
//! device's (`FailingDatagrams`). One over UDP tells nothing, so what the system does with a datagram is only tested
//! (`UdpDevice`).
//!
//! One of several ways sends each datagram along all of them, in order, up to a fault, and takes what comes from the one that
//! was chosen last (`Ways`, `Fan`).
#![tactic(auto)]

mod datagrams;
mod device_error;
mod failing;
mod fan;
mod memory;
mod open_error;
mod udp;
mod ways;

pub use datagrams::{Datagrams, DeviceFailed, GREATEST_DATAGRAM, counts_grow};
pub use device_error::DeviceError;
pub use failing::FailingDatagrams;
pub use fan::Fan;
pub use memory::MemoryDevice;
pub use open_error::OpenError;
pub use udp::{Binding, Route, UdpDevice, is_loss};
pub use ways::Ways;
