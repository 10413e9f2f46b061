//! What has a name.

ghost use Rattle.std.specs.Prelude.{◌≡◌, ℕ, List};

/// What has a name (own).
pub trait Named: Drop {
    /// The name, as bytes.
    ghost name: { Self → List ℕ };

    /// The name as text.
    fn name(&self) -> &str
        ensures { result.now ≡ name self.now };
}
