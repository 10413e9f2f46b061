//! A device that cuts.
ghost use Rattle.std.specs.Prelude.{◌≡◌, ◌<◌, ◌≤◌, IfOk};
ghost use Rattle.std.specs.Io.{ReadsAtMost, WritesAtMost};
ghost use Rattle.std.specs.Io.KnownBytes.{ReadConsumes, WriteAppends};

use std::io;
use std::io::{Read, Write};

/// Lets at most `most` bytes through at each call.
#[derive(Drop)]
pub struct Pieces<T> {
    /// The reader or the writer behind.
    pub inner: T,
    /// How many bytes at most, not 0.
    pub most: usize,
    ghost some: { 0 < most },
}

impl<T> Pieces<T> {
    /// `inner` behind a cut after each `most` bytes.
    pub fn new(inner: T, most: usize) -> Pieces<T>
        requires { 0 < most }
        ensures inner { result.inner ≡ inner }
        ensures most { result.most ≡ most }
    {
        Pieces { inner, most }
    }
}

impl<T: Read> Read for Pieces<T> {
    ghost remaining = { λ p. T.remaining p.inner };

    fn read(&mut self, buf: &mut [u8]) -> io::Result<usize>
        ensures bound { ReadsAtMost result buf.new }
        ensures bytes { ReadConsumes (T.remaining self.old.inner) (T.remaining self.new.inner) result buf.new }
        ensures cut { IfOk result (λ n. n ≤ self.old.most) }
        ensures most { self.new.most ≡ self.old.most }
    {
        let room = buf.len().min(self.most);
        self.inner.read(&mut buf[..room])
    }
}

impl<T: Write> Write for Pieces<T> {
    ghost contents = { λ p. T.contents p.inner };

    fn write(&mut self, buf: &[u8]) -> io::Result<usize>
        ensures bound { WritesAtMost result buf.now }
        ensures bytes { WriteAppends (T.contents self.old.inner) (T.contents self.new.inner) result buf.now }
        ensures cut { IfOk result (λ n. n ≤ self.old.most) }
        ensures most { self.new.most ≡ self.old.most }
    {
        let room = buf.len().min(self.most);
        self.inner.write(&buf[..room])
    }

    fn flush(&mut self) -> io::Result<()> {
        self.inner.flush()
    }
}
