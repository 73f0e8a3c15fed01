//! Ids that are drawn.

ghost use Rattle.std.specs.Prelude.{◌≡◌};
ghost use Rattle.options.specs.Ends.Ids.{drawn_of};

use byteorder::{ByteOrder, LittleEndian};

/// The ids that a process draws at its start.
#[derive(Clone, Copy, Debug, PartialEq, Eq)]
pub struct Drawn {
    pub session: i32,
    pub initial_term_id: i32,
    pub receiver: i64,
}

/// The ids that 16 random bytes spell.
pub fn draw(bytes: &[u8; 16]) -> Drawn
    ensures { result ≡ drawn_of bytes.now }
{
    Drawn {
        session: LittleEndian::read_i32(&bytes[..]),
        initial_term_id: LittleEndian::read_i32(&bytes[4..]),
        receiver: LittleEndian::read_i64(&bytes[8..]),
    }
}
