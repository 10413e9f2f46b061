//! What a timeline holds at each time.

ghost use Rattle.std.specs.Prelude.{◌≡◌, ◌<◌, ◌≤◌, ℕ, Bool, true};
ghost use Rattle.waveform.specs.declared.times.TheConstants.{TIME_END};

/// What a timeline holds: a value that may move by itself while time goes on, and how one entry of it is stored (own).
pub trait Sample: Copy {
    /// A moment and a value, as they are stored.
    type Entry: Copy;

    /// The moment and the value that an entry stores.
    ghost stored: { Self.Entry → ℕ × Self };

    /// Two values are the same.
    ghost same: { Self → Self → Bool };

    /// What a value has become at a moment, if nothing but time acted on it.
    ghost drift: { Self → ℕ → Self };

    /// The value before any entry.
    ghost start: { Self };

    /// Which of four groups a value belongs to.
    ghost digit: { Self → ℕ };

    /// A value can be stored at a moment.
    ghost can_store: { ℕ → Self → Type 0 };

    /// The entry of a value from the moment `time` on, in time units.
    fn entry(self, time: u64) -> Self::Entry
        requires { can_store time self }
        ensures { stored result ≡ (time, self) };

    /// The moment of an entry, in time units.
    fn time(entry: &Self::Entry) -> u64
        ensures { result ≡ (stored entry.now).0 };

    /// The value of an entry.
    fn sample(entry: &Self::Entry) -> Self
        ensures { result ≡ (stored entry.now).1 };

    /// What the value has become at the moment `time`.
    fn drifted(self, time: u64) -> Self
        ensures { result ≡ drift self time };

    /// The two values are the same.
    fn is_same(self, other: Self) -> bool
        ensures { result ≡ same self other };

    /// Which of four groups the value belongs to.
    fn digit(self) -> u64
        ensures { result ≡ digit self };

    /// There are four groups.
    ghost digit_within: { (a : Self) → digit a < 4 };

    /// Values that are the same are equal.
    ghost same_is_equal: { (a b : Self) → same a b ≡ true → a ≡ b };

    /// A value is the same as itself.
    ghost equal_is_same: { (a : Self) → same a a ≡ true };

    /// A value that drifts to one moment and from there to a later one drifts to that one.
    ghost drift_twice: { (a : Self) (s u : ℕ) → s ≤ u → drift (drift a s) u ≡ drift a u };

    /// A value that can be stored at a moment is as it stands there.
    ghost stored_is_settled: { (t : ℕ) (a : Self) → can_store t a → drift a t ≡ a };

    /// A moment at which a value can be stored lies below `TIME_END`.
    ghost stored_within: { (t : ℕ) (a : Self) → can_store t a → t < TIME_END };

    /// A value that can be stored at a moment can be stored later, drifted to there.
    ghost stored_later: { (t u : ℕ) (a : Self) → t ≤ u → u < TIME_END → can_store t a → can_store u (drift a u) };
}
