//! A reader of bytes that it owns.

use std::alloc::{AllocError, Global};
use std::io;
use std::io::Read;

/// Bytes, and how many of them were read.
#[derive(Drop)]
pub struct Bytes {
    bytes: Vec<u8>,
    read: usize,
}

impl Bytes {
    /// A reader of a copy of these.
    pub fn new(alloc: Global, bytes: &[u8]) -> Result<Bytes, AllocError> {
        Ok(Bytes {
            bytes: Vec::from_slice(alloc, bytes)?,
            read: 0,
        })
    }
}

impl Read for Bytes {
    fn read(&mut self, buffer: &mut [u8]) -> io::Result<usize> {
        let rest = self.bytes.get(self.read..).unwrap_or(&[]);
        let count = rest.len().min(buffer.len());
        buffer[..count].copy_from_slice(&rest[..count]);
        self.read = self.read.saturating_add(count);
        Ok(count)
    }
}
