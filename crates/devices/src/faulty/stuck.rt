//! A device that stands still.
ghost use Rattle.std.specs.Prelude.{◌≡◌, ◌+◌, IfOk, OnErr};
ghost use Rattle.std.specs.Io.{WritesAtMost};
ghost use Rattle.std.specs.Io.KnownBytes.{WriteAppends};

use std::io;
use std::io::Write;

/// A writer that takes no more bytes, and doesn't say why, once `left` more went through.
#[derive(Drop)]
pub struct Stuck<T> {
    /// The writer behind.
    pub inner: T,
    /// How many bytes still go through.
    pub left: usize,
}

impl<T> Stuck<T> {
    /// `inner` behind a device that takes `left` bytes.
    pub fn new(inner: T, left: usize) -> Stuck<T>
        ensures inner { result.inner ≡ inner }
        ensures left { result.left ≡ left }
    {
        Stuck { inner, left }
    }
}

impl<T: Write> Write for Stuck<T> {
    ghost contents = { λ s. T.contents s.inner };

    fn write(&mut self, buf: &[u8]) -> io::Result<usize>
        ensures bound { WritesAtMost result buf.now }
        ensures bytes { WriteAppends (T.contents self.old.inner) (T.contents self.new.inner) result buf.now }
        ensures stuck { self.old.left ≡ 0 → result ≡ Ok 0 }
        ensures ok { IfOk result (λ n. self.new.left + n ≡ self.old.left) }
        ensures err { OnErr result (self.new.left ≡ self.old.left) }
    {
        if self.left == 0 {
            return Ok(0);
        }
        let room = buf.len().min(self.left);
        let n = self.inner.write(&buf[..room])?;
        self.left -= n;
        Ok(n)
    }

    fn flush(&mut self) -> io::Result<()> {
        self.inner.flush()
    }
}
