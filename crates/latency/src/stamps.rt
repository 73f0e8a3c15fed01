//! Stamps in messages: the number of the publisher and the message's own number in four bytes each, and then the stamp in
//! eight, the lowest byte first.

ghost use Rattle.std.specs.Prelude.{◌≡◌, ◌<◌, ◌≤◌, ◌↔◌, IfOk, IfSome, IsNone, length, vec_len};
ghost use Rattle.latency.specs.Stamps.{stamp_of, stamped};

use byteorder::{ByteOrder, LittleEndian};
use std::alloc::{AllocError, Global};

/// A publisher's message that isn't stamped yet: its number, and then zeros.
pub fn first_message(alloc: Global, number: u64, size: usize) -> Result<Vec<u8>, AllocError>
    requires { 16 ≤ size }
    ensures { IfOk result (λ m. vec_len m ≡ size) }
{
    let mut message = vec![in alloc; 0; size]?;
    message[..4].copy_from_slice(&number.to_le_bytes()[..4]);
    Ok(message)
}

/// Numbers and stamps a message.
#[tactic(auto, using(crate::proofs::Stamped::reads_back))]
pub fn put_stamp(message: &mut [u8], number: u32, stamp: u64)
    requires { 16 ≤ length message.old }
    ensures stamp { stamp_of message.new ≡ stamp }
    ensures bytes { message.new ≡ stamped message.old number stamp }
{
    LittleEndian::write_u32(&mut message[4..], number);
    LittleEndian::write_u64(&mut message[8..], stamp);
}

/// The stamp of a message, if it is long enough for one.
pub fn stamp_in(message: &[u8]) -> Option<u64>
    ensures none { IsNone result ↔ (length message.now < 16) }
    ensures some { IfSome result (λ stamp. stamp ≡ stamp_of message.now) }
{
    if message.len() < 16 {
        return None;
    }
    Some(LittleEndian::read_u64(&message[8..]))
}
