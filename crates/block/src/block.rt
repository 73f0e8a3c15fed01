ghost use Rattle.std.specs.Prelude.{◌≡◌, ◌+◌, ◌*◌, ◌/◌, ◌%◌, ◌<◌, ◌^◌, length, replicate, IfOk, IsTrue, ◌↔◌, []};
ghost use Rattle.std.specs.Borrow.{sem};
ghost use Rattle.block.specs.Bytes.{word_at, with_word};

use std::alloc::{AllocError, Global};
use std::marker::Model;

/// A run of bytes of a fixed length, a multiple of eight.
#[derive(Drop)]
pub struct Block {
    contents: Vec<u8>,
}

impl Model for Block {
    ghost use Rattle.std.specs.Prelude.{ℕ, List, length, ◌≡◌, ◌%◌};

    ghost Value = { List ℕ };

    ghost view = { λ b. b.contents.items };

    ghost invariant = { λ b. length b.contents.items % 8 ≡ 0 };
}

impl Block {
    ghost use Rattle.block.specs.Lending.{LendsBytes};

    /// A block of `length` zeros. The error comes only where memory was refused.
    pub fn new(alloc: Global, length: usize) -> Result<Block, AllocError>
        requires { length % 8 ≡ 0 }
        ensures { IfOk result (λ b. b ≡ replicate length 0) }
    {
        let contents = vec![in alloc; 0; length]?;
        Ok(Block { contents })
    }

    /// The number of bytes.
    pub fn len(&self) -> usize
        ensures value { result ≡ length self.now }
        ensures whole { length self.now % 8 ≡ 0 }
        ensures small { result < 2 ^ 63 }
    {
        self.contents.len()
    }

    /// Whether it has no byte.
    pub fn is_empty(&self) -> bool
        ensures { IsTrue result ↔ (self.now ≡ []) }
    {
        self.contents.is_empty()
    }

    /// The bytes.
    #[inline(always)]
    pub fn bytes(&self) -> &[u8]
        ensures { result.now ≡ self.now }
    {
        self.contents.as_slice()
    }

    /// The bytes, to be written.
    #[inline(always)]
    pub fn bytes_mut(&mut self) -> &mut [u8]
        ensures* writes_back { sem 𝓛 (LendsBytes self.entry result) }
        ensures value { result.now ≡ self.old }
    {
        self.contents.as_mut_slice()
    }

    /// The word of the eight bytes from `8 * index` on.
    pub fn word(&self, index: usize) -> u64
        requires { index < length self.now / 8 }
        ensures { result ≡ word_at self.now index }
    {
        let bytes = self.bytes();
        let at = 8 * index;
        u64::from_le_bytes([
            bytes[at],
            bytes[at + 1],
            bytes[at + 2],
            bytes[at + 3],
            bytes[at + 4],
            bytes[at + 5],
            bytes[at + 6],
            bytes[at + 7],
        ])
    }

    /// Stores a word at the eight bytes from `8 * index` on.
    pub fn set_word(&mut self, index: usize, word: u64)
        requires { index < length self.old / 8 }
        ensures stored { self.new ≡ with_word self.old index word }
        ensures same_length { length self.new ≡ length self.old }
    {
        let bytes = self.contents.as_mut_slice();
        let at = 8 * index;
        bytes[at..at + 8].copy_from_slice(&word.to_le_bytes());
    }
}
