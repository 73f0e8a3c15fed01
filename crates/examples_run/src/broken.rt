//! Streams that fail, and such as count.

use std::io::{self, Error, ErrorKind, Read, Write};

/// A stream that always fails.
#[derive(Drop)]
pub struct Broken;

impl Read for Broken {
    fn read(&mut self, _buffer: &mut [u8]) -> io::Result<usize> {
        Err(Error::from(ErrorKind::Other))
    }
}

impl Write for Broken {
    fn write(&mut self, _bytes: &[u8]) -> io::Result<usize> {
        Err(Error::from(ErrorKind::Other))
    }

    fn flush(&mut self) -> io::Result<()> {
        Err(Error::from(ErrorKind::Other))
    }
}

/// A writer that takes all bytes, counts them, and tells how many were there at the last flush, or can't be flushed.
#[derive(Drop)]
pub struct Counted {
    pub fails: bool,
    pub written: usize,
    pub flushed: usize,
}

impl Write for Counted {
    fn write(&mut self, bytes: &[u8]) -> io::Result<usize> {
        self.written = self.written.saturating_add(bytes.len());
        Ok(bytes.len())
    }

    fn flush(&mut self) -> io::Result<()> {
        if self.fails {
            return Err(Error::from(ErrorKind::Other));
        }
        self.flushed = self.written;
        Ok(())
    }
}
