//! Ranges with drawn messages.

use rand_core::utils::NextWord;
use rand_pcg::Pcg32;

/// The greatest length of a message that is drawn.
pub const LONGEST: usize = 5504;

/// A range of the stream that a publisher claimed, and what it put there: a padding, or a message whose bytes are drawn.
#[derive(Clone, Copy)]
pub struct Claimed {
    pub start: u64,
    pub end: u64,
    pub size: usize,
    pub key: u32,
    pub aborted: bool,
}

/// Draws the bytes of a message.
pub fn fill(message: &mut [u8], key: u32) {
    let mut draws = Pcg32::new(u64::from(key), 0);
    for byte in message.iter_mut() {
        *byte = (draws.next_word() >> 24) as u8;
    }
}
