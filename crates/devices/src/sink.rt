//! Where bytes go.
ghost use Rattle.std.specs.Prelude.{◌≡◌, ℕ, ◌<◌, List, Option, None, Some, length};
ghost use Rattle.devices.specs.Traffic.{Puts};

/// A device that takes bytes: a file, the standard output, or a piece of memory.
pub trait Sink {
    // The bytes that the device holds, where they are known.
    ghost contents: { Self → Option (List ℕ) };

    // How often the device has failed.
    ghost failures: { Self → ℕ };

    /// Sends the front of `bytes`, and answers how many went out, at least one. `None` where the
    /// device failed; then nothing went out, and the failure is counted.
    fn put(&mut self, bytes: &[u8]) -> Option<usize>
        requires { 0 < length bytes.now }
        ensures { Puts (record { contents = contents self.old; failures = failures self.old })
            (record { contents = contents self.new; failures = failures self.new }) bytes.now result };
}
