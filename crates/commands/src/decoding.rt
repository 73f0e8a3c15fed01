//! Datagrams in hexadecimal digits, as a line for each of their frames.

mod datagram;
mod frame_line;
mod input;

pub use datagram::decode;
pub use frame_line::FrameLine;
pub use input::{LineFault, decode_input};
