//! The live nets at one moment: what they have, and whose readers differ.

ghost use Rattle.std.specs.Prelude.{◌≡◌, ◌<◌, ◌≤◌, ◌||◌, ℕ, suc, true, false, nat_eq, All, AllPairs, OnOk, length};
ghost use Rattle.std.specs.BTreeSet.{contains};
ghost use Rattle.std.specs.Option.{ForSome};
ghost use Rattle.std.specs.Ordering.{nat_cmp};
ghost use Rattle.rundiff.specs.kept.PlaceMaps.{kept_at};
ghost use Rattle.design.specs.Connections.{to_net};
ghost use Rattle.design.specs.Keys.{netlist};
ghost use Rattle.design.specs.Netlist.{reads};
ghost use Rattle.waveform.specs.kept.Timelines.{end_of};
ghost use Rattle.scratch.specs.Run.{value};
ghost use Rattle.scratch.specs.kept.Run.{IsRun};
ghost use Rattle.rundiff.specs.kept.Fronts.{AreTraces, AreWaves, EndBy, IsAlike, IsOwn, IsWave};
ghost use Rattle.rundiff.specs.kept.Places.{gate_at, is_among, is_live, net_at};
ghost use Rattle.rundiff.specs.kept.Kept.{read_at};

use crate::former::{Former, former_wave};
use crate::old::old_wave;
use crate::patches::{put, value_at};
use crate::place_map::PlaceMap;
use crate::place_set::PlaceSet;
use crate::reading::driven_value;
use design::Design;
use fourstate::Value;
use gatestep::{Driver, Stepper};
use std::alloc::{AllocError, Global};
use waveform::{Patch, Sample, laws};

/// Puts the value at the moment `t` of each of these nets, where all before `t` is known.
pub fn put_values<S: Stepper>(
    alloc: Global,
    waves: &mut PlaceMap<Patch<Value>>,
    traces: &PlaceMap<Patch<Driver>>,
    former: &Former,
    live: &[usize],
    t: u64,
) -> Result<(), AllocError>
    requires there { (p : ℕ) → is_among live.now p ≡ true → p < length (netlist former.now.new.now).nets }
    requires rising { AllPairs (λ p q. p < q) live.now }
    requires within { t ≤ (netlist former.now.old.now).horizon }
    requires run { IsRun S.answer former.now.old.now former.now.run.now }
    requires waves { AreWaves S.answer (netlist former.now.old.now) (netlist former.now.new.now) waves.old t }
    requires ends { EndBy waves.old t }
    requires traces { AreTraces S.answer (netlist former.now.old.now) (netlist former.now.new.now) traces.now t }
    ensures put { OnOk result ((p : ℕ) → is_among live.now p ≡ true → IsWave S.answer (netlist former.now.old.now) (netlist former.now.new.now) waves.new p (suc t)) }
    ensures own { OnOk result ((p : ℕ) → is_among live.now p ≡ true → IsOwn (kept_at waves.new p)) }
    ensures ends { OnOk result (EndBy waves.new (suc t)) }
    ensures others { OnOk result ((p : ℕ) → is_among live.now p ≡ false → kept_at waves.new p ≡ kept_at waves.old p) }
{
    for place in live {
        put_value::<S>(alloc, waves, traces, former, *place, t)?;
    }
    Ok(())
}

/// Puts the value at the moment `t` of one net.
fn put_value<S: Stepper>(
    alloc: Global,
    waves: &mut PlaceMap<Patch<Value>>,
    traces: &PlaceMap<Patch<Driver>>,
    former: &Former,
    place: usize,
    t: u64,
) -> Result<(), AllocError>
    requires there { place < length (netlist former.now.new.now).nets }
    requires within { t ≤ (netlist former.now.old.now).horizon }
    requires run { IsRun S.answer former.now.old.now former.now.run.now }
    requires wave { IsWave S.answer (netlist former.now.old.now) (netlist former.now.new.now) waves.old place t }
    requires end { ForSome (kept_at waves.old place) (λ patch. end_of patch.line ≤ t) }
    requires traces { AreTraces S.answer (netlist former.now.old.now) (netlist former.now.new.now) traces.now t }
    ensures put { OnOk result (IsWave S.answer (netlist former.now.old.now) (netlist former.now.new.now) waves.new place (suc t)) }
    ensures own { OnOk result (IsOwn (kept_at waves.new place)) }
    ensures end { OnOk result (ForSome (kept_at waves.new place) (λ patch. end_of patch.line ≤ suc t)) }
    ensures others { OnOk result ((q : ℕ) → nat_eq place q ≡ false → kept_at waves.new q ≡ kept_at waves.old q) }
{
    former.old.lawful();
    let value = driven_value::<S>(alloc, traces, former, place, t)?;
    let was = former_wave(waves, former, place);
    put(waves, alloc, place, was, t, value)
}

/// Finds the nets that the readers of those of these nets drive that have another value at the moment `t` than in the old run.
/// Where they are live already they may be left out.
pub fn find_differing<S: Stepper>(
    waves: &PlaceMap<Patch<Value>>,
    former: &Former,
    live: &[usize],
    all_live: &PlaceSet,
    t: u64,
    found: &mut Vec<usize>,
) -> Result<(), AllocError>
    requires there { (p : ℕ) → is_among live.now p ≡ true → p < length (netlist former.now.new.now).nets }
    requires within { t ≤ (netlist former.now.old.now).horizon }
    requires run { IsRun S.answer former.now.old.now former.now.run.now }
    requires waves { (p : ℕ) → is_among live.now p ≡ true → IsWave S.answer (netlist former.now.old.now) (netlist former.now.new.now) waves.now p (suc t) }
    ensures there { OnOk result (All (λ p. p < length (netlist former.now.new.now).nets) found.new.items) }
    ensures alike { OnOk result ((p : ℕ) → is_among live.now p ≡ true → IsAlike S.answer (netlist former.now.old.now) (netlist former.now.new.now) (λ q. is_among found.new.items q || contains nat_cmp all_live.now q) t p) }
{
    found.clear();
    for place in live {
        add_differing::<S>(waves, former, *place, all_live, t, found)?;
    }
    Ok(())
}

/// Adds the nets that the readers of a net drive, where it has another value at the moment `t` than in the old run, unless all
/// of them are live.
fn add_differing<S: Stepper>(
    waves: &PlaceMap<Patch<Value>>,
    former: &Former,
    place: usize,
    all_live: &PlaceSet,
    t: u64,
    found: &mut Vec<usize>,
) -> Result<(), AllocError>
    requires there { place < length (netlist former.now.new.now).nets }
    requires within { t ≤ (netlist former.now.old.now).horizon }
    requires run { IsRun S.answer former.now.old.now former.now.run.now }
    requires wave { IsWave S.answer (netlist former.now.old.now) (netlist former.now.new.now) waves.now place (suc t) }
    ensures there { OnOk result (All (λ p. p < length (netlist former.now.new.now).nets) found.old.items → All (λ p. p < length (netlist former.now.new.now).nets) found.new.items) }
    ensures more { OnOk result ((p : ℕ) → is_among found.old.items p ≡ true → is_among found.new.items p ≡ true) }
    ensures alike { OnOk result (IsAlike S.answer (netlist former.now.old.now) (netlist former.now.new.now) (λ q. is_among found.new.items q || contains nat_cmp all_live.now q) t place) }
{
    if readers_drive_live(former.new, place, all_live) {
        return Ok(());
    }
    if differs::<S>(waves, former, place, t) {
        return add_readers(former.new, place, found);
    }
    Ok(())
}

/// Whether the readers of a net drive live nets alone.
fn readers_drive_live(new: &Design, place: usize, all_live: &PlaceSet) -> bool
    requires there { place < length (netlist new.now).nets }
    ensures { result ≡ true → (q : ℕ) → q < length (netlist new.now).gates → reads (gate_at (netlist new.now) q) (net_at (netlist new.now) place).name ≡ true
        → is_live (netlist new.now) (contains nat_cmp all_live.now) (gate_at (netlist new.now) q).output ≡ true }
{
    new.lawful();
    new.places_are_keys();
    let readers = new.fanout(new.net_key_at(place));
    for reader in readers {
        let Some(output) = new.net_place_of(new.gate_of(*reader).output()) else {
            unreachable!();
        };
        if !all_live.contains(output) {
            return false;
        }
    }
    true
}

/// Whether a net has another value at the moment `t` than in the old run.
fn differs<S: Stepper>(
    waves: &PlaceMap<Patch<Value>>,
    former: &Former,
    place: usize,
    t: u64,
) -> bool
    requires there { place < length (netlist former.now.new.now).nets }
    requires within { t ≤ (netlist former.now.old.now).horizon }
    requires run { IsRun S.answer former.now.old.now former.now.run.now }
    requires wave { IsWave S.answer (netlist former.now.old.now) (netlist former.now.new.now) waves.now place (suc t) }
    ensures { result ≡ false → read_at S.answer (netlist former.now.old.now) (to_net (net_at (netlist former.now.new.now) place).name) t ≡ value S.answer (netlist former.now.new.now) (net_at (netlist former.now.new.now) place) t }
{
    laws::value_of_changes::<Value>();
    let key = former.new.net_key_at(place);
    let was = old_wave(former, key, former.new.net_at(place).name().as_str());
    !value_at(waves, place, was, t).is_same(was.at(t))
}

/// Adds the nets that the readers of a net drive.
fn add_readers(new: &Design, place: usize, found: &mut Vec<usize>) -> Result<(), AllocError>
    requires there { place < length (netlist new.now).nets }
    ensures there { OnOk result (All (λ p. p < length (netlist new.now).nets) found.old.items → All (λ p. p < length (netlist new.now).nets) found.new.items) }
    ensures more { OnOk result ((p : ℕ) → is_among found.old.items p ≡ true → is_among found.new.items p ≡ true) }
    ensures readers { OnOk result ((q : ℕ) → q < length (netlist new.now).gates → reads (gate_at (netlist new.now) q) (net_at (netlist new.now) place).name ≡ true
        → is_live (netlist new.now) (is_among found.new.items) (gate_at (netlist new.now) q).output ≡ true) }
{
    new.lawful();
    new.places_are_keys();
    let readers = new.fanout(new.net_key_at(place));
    for reader in readers {
        let Some(output) = new.net_place_of(new.gate_of(*reader).output()) else {
            unreachable!();
        };
        found.push(output)?;
    }
    Ok(())
}
