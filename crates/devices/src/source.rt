//! Where bytes come from.
ghost use Rattle.std.specs.Prelude.{◌≡◌, ℕ, ◌<◌, List, Option, None, Some, length};
ghost use Rattle.devices.specs.Traffic.{Takes};

/// A device that gives bytes: a file, the standard input, or a piece of memory.
pub trait Source {
    // The bytes that takes will bring from here on, where they are known.
    ghost remaining: { Self → Option (List ℕ) };

    // The pieces that takes brought so far, one for each that did not fail: an empty one at the end.
    ghost taken: { Self → List (List ℕ) };

    // How often the device has failed.
    ghost failures: { Self → ℕ };

    /// Fills the front of `buffer`, and answers how many bytes came: 0 only at the end. `None` where
    /// the device failed; then nothing came, and the failure is counted.
    fn take(&mut self, buffer: &mut [u8]) -> Option<usize>
        requires { 0 < length buffer.old }
        ensures { Takes (record { remaining = remaining self.old; taken = taken self.old; failures = failures self.old })
            (record { remaining = remaining self.new; taken = taken self.new; failures = failures self.new }) buffer.new result };
}
