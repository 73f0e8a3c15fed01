//! A reader whose end is read once.

ghost use Rattle.std.specs.Prelude.{◌≡◌, ◌<◌, IsTrue, Ok, length};
ghost use Rattle.std.specs.Io.{ReadsAtMost};
ghost use Rattle.std.specs.Io.KnownBytes.{ReadConsumes};
ghost use Rattle.messages.specs.Fused.{fused_remaining, unread};

use std::io;
use std::io::Read;
use std::marker::Model;

/// A reader that keeps its end: once a read has found it, none goes to the reader behind any more, and nothing is left. A
/// terminal shows the end of its input once, and a further read of it would wait for the next line.
#[derive(Drop)]
pub struct FusedReader<R> {
    inner: R,
    /// Whether a read has found the end.
    ended: bool,
}

impl<R> Model for FusedReader<R> {
    ghost use Rattle.messages.specs.Fused.{Fused};

    ghost Value = { Fused R };

    ghost view = { λ f. record { inner = f.inner; ended = f.ended } };
}

impl<R> FusedReader<R> {
    /// A reader over this one, of which nothing was read yet.
    pub fn new(inner: R) -> FusedReader<R>
        ensures { result ≡ unread inner }
    {
        FusedReader {
            inner,
            ended: false,
        }
    }
}

impl<R: Read> Read for FusedReader<R> {
    ghost remaining = { fused_remaining R.remaining };

    /// Reads from the reader behind it, up to its end.
    fn read(&mut self, buf: &mut [u8]) -> io::Result<usize>
        ensures bound { ReadsAtMost result buf.new }
        ensures bytes { ReadConsumes (fused_remaining R.remaining self.old) (fused_remaining R.remaining self.new) result buf.new }
        // Behind the end nothing is read.
        ensures kept { IsTrue self.old.ended → (result ≡ Ok 0) × (self.new ≡ self.old) }
        // A read that finds nothing where there is room is the end.
        ensures ends { result ≡ Ok 0 → 0 < length buf.new → IsTrue self.new.ended }
    {
        if self.ended {
            return Ok(0);
        }
        let count = self.inner.read(buf)?;
        self.ended = count == 0 && !buf.is_empty();
        Ok(count)
    }
}
