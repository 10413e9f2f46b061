//! Laws of functions of time and of their timelines: each function does nothing, and its contract is the law.

ghost use Rattle.std.specs.Prelude.{◌≡◌, ◌<◌, ◌≤◌, ◌-◌, ℕ, suc, false, List, All, IfSome};
ghost use Rattle.waveform.specs.Timelines.{changes_below, entries_until, first_after, is_change, value_by};
ghost use Rattle.waveform.specs.kept.Timelines.{IsAlwaysSettled, IsTimeline, is_reached, pushed};
ghost use Rattle.waveform.specs.declared.times.TheConstants.{TIME_END};

use crate::sample::Sample;

/// How many moments can be stored.
pub fn stored_moments()
    ensures { TIME_END ≡ 1152920351686 }
{}

/// The changes of a function below a moment give its value at each moment before that one.
pub fn value_of_changes<V: Sample>()
    ensures { (f : ℕ → V) → IsAlwaysSettled V.drift f → (t n : ℕ) → t < n →
        value_by V.drift V.start (changes_below V.same V.drift f n) t ≡ f t }
{}

/// The changes of a function up to a moment are a timeline.
pub fn timeline_of_changes<V: Sample>()
    ensures { (f : ℕ → V) → IsAlwaysSettled V.drift f → (t : ℕ) → IsTimeline V.same V.drift (changes_below V.same V.drift f (suc t)) }
{}

/// A function has one timeline: two that have the same value at each moment are equal.
pub fn one_timeline<V: Sample>()
    ensures { (xs ys : List (ℕ × V)) → IsTimeline V.same V.drift xs → IsTimeline V.same V.drift ys →
        ((t : ℕ) → value_by V.drift V.start xs t ≡ value_by V.drift V.start ys t) → xs ≡ ys }
{}

/// The changes of a function below a moment lie before it.
pub fn changes_lie_before<V: Sample>()
    ensures { (f : ℕ → V) (n : ℕ) → All (λ e. e.0 < n) (changes_below V.same V.drift f n) }
{}

/// The changes of a function below a moment, with its value at that moment pushed, are those up to that moment.
pub fn push_to_changes<V: Sample>()
    ensures { (f : ℕ → V) → IsAlwaysSettled V.drift f → (t : ℕ) →
        pushed V.same V.drift (changes_below V.same V.drift f t) t (f t) ≡ changes_below V.same V.drift f (suc t) }
{}

/// What the changes of a function below a moment have become there is its value at the moment before, drifted to there.
pub fn reached_by_changes<V: Sample>()
    ensures { (f : ℕ → V) → IsAlwaysSettled V.drift f → (t : ℕ) → 0 < t → (v : V) →
        is_reached V.same V.drift (changes_below V.same V.drift f t) t v ≡ V.same v (V.drift (f (t - 1)) t) }
{}

/// The changes of a function below a moment, cut at an earlier one, are those up to the earlier one.
pub fn cut_of_changes<V: Sample>()
    ensures { (f : ℕ → V) (t n : ℕ) → t < n → entries_until (changes_below V.same V.drift f n) t ≡ changes_below V.same V.drift f (suc t) }
{}

/// A function that does not change from one moment on has no more changes below a later one than below that one.
pub fn no_change<V: Sample>()
    ensures { (f : ℕ → V) (t u : ℕ) → t ≤ u → ((k : ℕ) → t ≤ k → k < u → is_change V.same V.drift f k ≡ false) →
        changes_below V.same V.drift f u ≡ changes_below V.same V.drift f t }
{}

/// Nor does one moment add a change at which the value is the one before, drifted to there.
pub fn no_change_by_drift<V: Sample>()
    ensures { (f : ℕ → V) (t : ℕ) → f (suc t) ≡ V.drift (f t) (suc t) →
        changes_below V.same V.drift f (suc (suc t)) ≡ changes_below V.same V.drift f (suc t) }
{}

/// Functions that have the same values below a moment have the same changes below it.
pub fn same_changes<V: Sample>()
    ensures { (f g : ℕ → V) (n : ℕ) → ((t : ℕ) → t < n → f t ≡ g t) → changes_below V.same V.drift f n ≡ changes_below V.same V.drift g n }
{}

/// The function of a timeline is settled, and the timeline is that of its changes, up to a moment after which it has no entry.
pub fn changes_of_timeline<V: Sample>()
    ensures settled { (xs : List (ℕ × V)) → IsTimeline V.same V.drift xs → IsAlwaysSettled V.drift (value_by V.drift V.start xs) }
    ensures changes { (xs : List (ℕ × V)) → IsTimeline V.same V.drift xs → (t : ℕ) → All (λ e. e.0 ≤ t) xs →
        xs ≡ changes_below V.same V.drift (value_by V.drift V.start xs) (suc t) }
{}

/// A function merely drifts from a moment `t` on, up to its next change. That one, if there is one, lies at `u` or later.
pub fn drift_between<V: Sample>()
    ensures { (f : ℕ → V) → IsAlwaysSettled V.drift f → (n t k u : ℕ) → t ≤ k → k < u → u ≤ suc n →
        IfSome (first_after (changes_below V.same V.drift f (suc n)) t) (λ e. u ≤ e.0) → f k ≡ V.drift (f t) k }
{}
