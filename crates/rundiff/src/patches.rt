//! Functions of time by place, each kept by its patch and the old run.

ghost use Rattle.std.specs.Prelude.{◌≡◌, ◌<◌, ◌≤◌, ◌⊎◌, ℕ, suc, true, false, nat_eq, OnOk};
ghost use Rattle.std.specs.Option.{ForSome};
ghost use Rattle.rundiff.specs.kept.PlaceMaps.{kept_at};
ghost use Rattle.waveform.specs.Timelines.{changes_below};
ghost use Rattle.waveform.specs.kept.Timelines.{IsAlwaysSettled, end_of};
ghost use Rattle.rundiff.specs.kept.Fronts.{IsFree, IsOwn};
ghost use Rattle.waveform.specs.kept.Patches.{Keeps};
ghost use Rattle.waveform.specs.declared.times.TheConstants.{TIME_END};

use crate::place_map::PlaceMap;
use std::alloc::{AllocError, Global};
use waveform::{Patch, Sample, Timeline, laws};

/// Whether a place has a patch with all of the function so far.
#[inline(always)]
pub fn is_own<V: Sample>(patches: &PlaceMap<Patch<V>>, place: usize) -> bool
    ensures { result ≡ true → IsOwn (kept_at patches.now place) }
{
    match patches.get(place) {
        Some(patch) => patch.since().is_none(),
        None => false,
    }
}

/// The value at `m` of the function at a place: `old` is the old run's, or any one where the place's patch has all of the
/// function so far.
pub fn value_at<V: Sample>(
    patches: &PlaceMap<Patch<V>>,
    place: usize,
    old: &Timeline<V>,
    m: u64,
) -> V
    ensures value { (f g : ℕ → V) (h n : ℕ) → IsAlwaysSettled V.drift f → IsAlwaysSettled V.drift g
        → IsOwn (kept_at patches.now place) ⊎ (old.now ≡ changes_below V.same V.drift g h)
        → m < h → m < n → Keeps V.same V.drift g f (kept_at patches.now place) n → result ≡ f m }
    ensures can { m < TIME_END → V.can_store m result }
{
    laws::value_of_changes::<V>();
    laws::changes_of_timeline::<V>();
    old.last();
    match patches.get(place) {
        Some(patch) => patch.at(old, m),
        None => old.at(m),
    }
}

/// The function at a place goes along with the former one from `t` on, if it has a patch.
pub fn leave<V: Sample>(
    patches: &mut PlaceMap<Patch<V>>,
    place: usize,
    t: u64,
) -> Result<(), AllocError>
    requires later { ForSome (kept_at patches.old place) (λ patch. end_of patch.line ≤ t) }
    ensures free { OnOk result (IsFree (kept_at patches.new place)) }
    ensures end { OnOk result (ForSome (kept_at patches.new place) (λ patch. end_of patch.line ≤ t)) }
    ensures made { OnOk result ((f g : ℕ → V) → Keeps V.same V.drift g f (kept_at patches.old place) t → Keeps V.same V.drift g f (kept_at patches.new place) t) }
    ensures others { OnOk result ((q : ℕ) → nat_eq place q ≡ false → kept_at patches.new q ≡ kept_at patches.old q) }
{
    match patches.take(place) {
        None => Ok(()),
        Some(patch) => {
            let mut left = patch;
            left.leave(t);
            patches.put(place, left)
        }
    }
}

/// Gives the function at a place this value at `t`, where all moments before `t` are known: `old` is the old run's, or any
/// one where the place's patch has all of the function so far.
pub fn put<V: Sample>(
    patches: &mut PlaceMap<Patch<V>>,
    alloc: Global,
    place: usize,
    old: &Timeline<V>,
    t: u64,
    value: V,
) -> Result<(), AllocError>
    requires can { V.can_store t value }
    requires later { ForSome (kept_at patches.old place) (λ patch. end_of patch.line ≤ t) }
    ensures own { OnOk result (IsOwn (kept_at patches.new place)) }
    ensures end { OnOk result (ForSome (kept_at patches.new place) (λ patch. end_of patch.line ≤ suc t)) }
    ensures made { OnOk result ((f g : ℕ → V) (h : ℕ) → IsAlwaysSettled V.drift f → IsAlwaysSettled V.drift g
        → IsOwn (kept_at patches.old place) ⊎ (old.now ≡ changes_below V.same V.drift g h)
        → t ≤ h → Keeps V.same V.drift g f (kept_at patches.old place) t → value ≡ f t → Keeps V.same V.drift g f (kept_at patches.new place) (suc t)) }
    ensures others { OnOk result ((q : ℕ) → nat_eq place q ≡ false → kept_at patches.new q ≡ kept_at patches.old q) }
{
    laws::changes_of_timeline::<V>();
    old.last();
    let patch = Patch::put_or_open(patches.take(place), alloc, old, t, value)?;
    patches.put(place, patch)?;
    Ok(())
}
