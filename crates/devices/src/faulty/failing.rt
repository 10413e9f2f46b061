//! A device that fails.
ghost use Rattle.std.specs.Prelude.{◌≡◌, ◌+◌, IsErr, IfOk, OnErr};
ghost use Rattle.std.specs.Io.{ReadsAtMost, WritesAtMost};
ghost use Rattle.std.specs.Io.KnownBytes.{ReadConsumes, WriteAppends};

use std::io;
use std::io::{ErrorKind, Read, Write};

/// Fails for ever once `left` more bytes went through.
#[derive(Drop)]
pub struct Failing<T> {
    /// The reader or the writer behind.
    pub inner: T,
    /// How many bytes still go through.
    pub left: usize,
}

impl<T> Failing<T> {
    /// `inner` behind a device that lets `left` bytes through.
    pub fn new(inner: T, left: usize) -> Failing<T>
        ensures inner { result.inner ≡ inner }
        ensures left { result.left ≡ left }
    {
        Failing { inner, left }
    }
}

impl<T: Read> Read for Failing<T> {
    ghost remaining = { λ f. T.remaining f.inner };

    fn read(&mut self, buf: &mut [u8]) -> io::Result<usize>
        ensures bound { ReadsAtMost result buf.new }
        ensures bytes { ReadConsumes (T.remaining self.old.inner) (T.remaining self.new.inner) result buf.new }
        ensures fails { self.old.left ≡ 0 → IsErr result }
        ensures ok { IfOk result (λ n. self.new.left + n ≡ self.old.left) }
        ensures err { OnErr result (self.new.left ≡ self.old.left) }
    {
        if self.left == 0 {
            return Err(ErrorKind::Other.into());
        }
        let room = buf.len().min(self.left);
        let n = self.inner.read(&mut buf[..room])?;
        self.left -= n;
        Ok(n)
    }
}

impl<T: Write> Write for Failing<T> {
    ghost contents = { λ f. T.contents f.inner };

    fn write(&mut self, buf: &[u8]) -> io::Result<usize>
        ensures bound { WritesAtMost result buf.now }
        ensures bytes { WriteAppends (T.contents self.old.inner) (T.contents self.new.inner) result buf.now }
        ensures fails { self.old.left ≡ 0 → IsErr result }
        ensures ok { IfOk result (λ n. self.new.left + n ≡ self.old.left) }
        ensures err { OnErr result (self.new.left ≡ self.old.left) }
    {
        if self.left == 0 {
            return Err(ErrorKind::Other.into());
        }
        let room = buf.len().min(self.left);
        let n = self.inner.write(&buf[..room])?;
        self.left -= n;
        Ok(n)
    }

    fn flush(&mut self) -> io::Result<()> {
        self.inner.flush()
    }
}
