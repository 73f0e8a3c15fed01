//! What a publisher that claims has with it.

ghost use Rattle.std.specs.Prelude.{◌≡◌};

use shared_log::Publisher;

/// A publisher and memory for the bytes of its claims, which stand in a box: so whatever the publisher is up to, what is
/// moved is short.
#[derive(Drop)]
pub(crate) struct Equipped {
    pub(crate) publisher: Publisher,
    pub(crate) bytes: Vec<u8>,
    /// Makes its room greater, so that no two publishers write to one cache line.
    apart: [u64; 8],
}

impl Equipped {
    pub(crate) fn new(publisher: Publisher, bytes: Vec<u8>) -> Equipped
        ensures publisher { result.publisher ≡ publisher }
        ensures bytes { result.bytes ≡ bytes }
    {
        Equipped {
            publisher,
            bytes,
            apart: [0; 8],
        }
    }
}
