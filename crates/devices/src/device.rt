//! std's readers and writers as devices.
ghost use Rattle.std.specs.Prelude.{◌≡◌, ◌+◌, [], None};
ghost use Rattle.devices.specs.kept.Devices.{failure_count, taken_pieces};

use crate::history::History;
use crate::sink::Sink;
use crate::source::Source;
use std::io::{Read, Write};

/// A reader as a source, or a writer as a sink. An error of the reader or of the writer is a failure,
/// and so is a write that takes no byte.
#[derive(Drop)]
pub struct Device<T> {
    /// The reader or the writer.
    pub inner: T,
    // The pieces that came.
    takes: History,
    // An empty piece for each failure: a number would stop at its greatest value.
    failures: History,
}

impl<T> Device<T> {
    /// A device of which nothing was taken, and that has not failed yet.
    pub fn new(inner: T) -> Device<T>
        ensures inner { result.inner ≡ inner }
        ensures untaken { taken_pieces result ≡ [] }
        ensures unfailed { failure_count result ≡ 0 }
    {
        Device {
            inner,
            takes: History::new(),
            failures: History::new(),
        }
    }

    // Counts a failure.
    fn fail(&mut self) -> Option<usize>
        ensures none { result ≡ None }
        ensures inner { self.new.inner ≡ self.old.inner }
        ensures takes { taken_pieces self.new ≡ taken_pieces self.old }
        ensures counted { failure_count self.new ≡ failure_count self.old + 1 }
    {
        self.failures.add(b"");
        None
    }
}

impl<T: Read> Source for Device<T> {
    ghost remaining = { λ d. T.remaining d.inner };

    ghost taken = { taken_pieces };

    ghost failures = { failure_count };

    fn take(&mut self, buffer: &mut [u8]) -> Option<usize> {
        match self.inner.read(buffer) {
            Ok(n) => {
                self.takes.add(&buffer[..n]);
                Some(n)
            }
            Err(_) => self.fail(),
        }
    }
}

impl<T: Write> Sink for Device<T> {
    ghost contents = { λ d. T.contents d.inner };

    ghost failures = { failure_count };

    fn put(&mut self, bytes: &[u8]) -> Option<usize> {
        match self.inner.write(bytes) {
            Ok(n) if n > 0 => Some(n),
            _ => self.fail(),
        }
    }
}
