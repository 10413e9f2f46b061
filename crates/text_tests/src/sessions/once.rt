//! A device that fails once.

ghost use Rattle.std.specs.Prelude.{◌<◌, ◌≤◌, IfSome};
ghost use Rattle.std.specs.Io.{ReadsAtMost, WritesAtMost};
ghost use Rattle.std.specs.Io.KnownBytes.{ReadConsumes, WriteAppends};

use std::io;
use std::io::{ErrorKind, Read, Write};

/// Fails once, when so many bytes went through, and never again.
#[derive(Drop)]
pub struct FailsOnce<T> {
    /// The reader or the writer behind.
    pub inner: T,
    // How many bytes go through before it fails; none once it has failed.
    left: Option<usize>,
}

impl<T> FailsOnce<T> {
    pub fn new(inner: T, left: usize) -> FailsOnce<T> {
        FailsOnce {
            inner,
            left: Some(left),
        }
    }
}

// How many of so many bytes go through now; none where it fails, and from then on all.
fn room(left: &mut Option<usize>, most: usize) -> Option<usize>
    ensures within { IfSome result (λ room. room ≤ most) }
    ensures some { IfSome result (λ room. 0 < most → 0 < room) }
{
    match *left {
        None => Some(most),
        Some(0) => {
            *left = None;
            None
        }
        Some(left) => Some(left.min(most)),
    }
}

// What is left once so many bytes more went through.
fn less(left: Option<usize>, bytes: usize) -> Option<usize> {
    match left {
        None => None,
        Some(left) => Some(left.saturating_sub(bytes)),
    }
}

impl<T: Read> Read for FailsOnce<T> {
    ghost remaining = { λ f. T.remaining f.inner };

    fn read(&mut self, buf: &mut [u8]) -> io::Result<usize>
        ensures bound { ReadsAtMost result buf.new }
        ensures bytes { ReadConsumes (T.remaining self.old.inner) (T.remaining self.new.inner) result buf.new }
    {
        let Some(room) = room(&mut self.left, buf.len()) else {
            return Err(ErrorKind::Other.into());
        };
        let read = self.inner.read(&mut buf[..room])?;
        self.left = less(self.left, read);
        Ok(read)
    }
}

impl<T: Write> Write for FailsOnce<T> {
    ghost contents = { λ f. T.contents f.inner };

    fn write(&mut self, buf: &[u8]) -> io::Result<usize>
        ensures bound { WritesAtMost result buf.now }
        ensures bytes { WriteAppends (T.contents self.old.inner) (T.contents self.new.inner) result buf.now }
    {
        let Some(room) = room(&mut self.left, buf.len()) else {
            return Err(ErrorKind::Other.into());
        };
        let written = self.inner.write(&buf[..room])?;
        self.left = less(self.left, written);
        Ok(written)
    }

    fn flush(&mut self) -> io::Result<()> {
        self.inner.flush()
    }
}
