//! The new run, once all moments up to the horizon are done.

ghost use Rattle.std.specs.Prelude.{◌≡◌, ◌<◌, ◌≤◌, ℕ, suc, true, false, nat_eq, [], ◌∷◌, AllPairs, IfOk, OnOk, length};
ghost use Rattle.std.specs.Option.{ForSome};
ghost use Rattle.rundiff.specs.kept.PlaceMaps.{kept_at};
ghost use Rattle.design.specs.Keys.{netlist};
ghost use Rattle.catalog.specs.kept.Catalog.{keys_of};
ghost use Rattle.waveform.specs.kept.Patches.{Keeps};
ghost use Rattle.waveform.specs.Timelines.{changes_below};
ghost use Rattle.waveform.specs.kept.Timelines.{IsAlwaysSettled, end_of};
ghost use Rattle.waveform.specs.declared.times.TheConstants.{TIME_END};
ghost use Rattle.scratch.specs.kept.Run.{IsRun};
ghost use Rattle.rundiff.specs.kept.Finishing.{ArePut, AreCleared, new_trace, new_wave};
ghost use Rattle.rundiff.specs.kept.Fronts.{AreTraces, AreWaves, EndBy, IsTrace, IsWave};
ghost use Rattle.rundiff.specs.kept.Places.{is_among};

use crate::former::Former;
use crate::old::{old_trace, old_wave};
use crate::place_map::PlaceMap;
use edits::Touched;
use fourstate::Value;
use gatestep::{Driver, Stepper};
use std::alloc::{AllocError, Global};
use waveform::{Patch, Run, Sample, Timeline, laws};

/// Takes away what a run has under keys that edits touched. Where an allocation was refused, which are gone is not known.
pub fn clear_touched(run: &mut Run, touched: &Touched) -> Result<(), AllocError>
    ensures waves { OnOk result (AreCleared touched.now.nets.items run.old.waves run.new.waves) }
    ensures traces { OnOk result (AreCleared touched.now.gates.items run.old.traces run.new.traces) }
    ensures horizon { run.new.horizon ≡ run.old.horizon }
{
    for net in &touched.nets {
        run.clear_wave(net.number())?;
    }
    for gate in &touched.gates {
        run.clear_trace(gate.number())?;
    }
    Ok(())
}

/// Puts the waves of the nets at these places. Where an allocation was refused, which are put is not known.
pub fn put_waves<S: Stepper>(
    alloc: Global,
    made: &mut Run,
    waves: &mut PlaceMap<Patch<Value>>,
    former: &Former,
    live: &[usize],
) -> Result<(), AllocError>
    requires there { (p : ℕ) → is_among live.now p ≡ true → p < length (netlist former.now.new.now).nets }
    requires rising { AllPairs (λ p q. p < q) live.now }
    requires horizon { (netlist former.now.new.now).horizon ≡ (netlist former.now.old.now).horizon }
    requires run { IsRun S.answer former.now.old.now former.now.run.now }
    requires waves { AreWaves S.answer (netlist former.now.old.now) (netlist former.now.new.now) waves.old (suc (netlist former.now.new.now).horizon) }
    requires ends { EndBy waves.old (suc (netlist former.now.new.now).horizon) }
    ensures waves { OnOk result (ArePut (new_wave S.answer former.now.new.now) (keys_of former.now.new.now.nets) live.now made.old.waves made.new.waves) }
    ensures traces { made.new.traces ≡ made.old.traces }
    ensures horizon { made.new.horizon ≡ made.old.horizon }
{
    for place in live {
        put_wave::<S>(alloc, made, waves, former, *place)?;
    }
    Ok(())
}

/// Puts the wave of the net at a place.
fn put_wave<S: Stepper>(
    alloc: Global,
    made: &mut Run,
    waves: &mut PlaceMap<Patch<Value>>,
    former: &Former,
    place: usize,
) -> Result<(), AllocError>
    requires there { place < length (netlist former.now.new.now).nets }
    requires horizon { (netlist former.now.new.now).horizon ≡ (netlist former.now.old.now).horizon }
    requires run { IsRun S.answer former.now.old.now former.now.run.now }
    requires wave { IsWave S.answer (netlist former.now.old.now) (netlist former.now.new.now) waves.old place (suc (netlist former.now.new.now).horizon) }
    requires end { ForSome (kept_at waves.old place) (λ patch. end_of patch.line ≤ suc (netlist former.now.new.now).horizon) }
    ensures waves { OnOk result (ArePut (new_wave S.answer former.now.new.now) (keys_of former.now.new.now.nets) (place ∷ []) made.old.waves made.new.waves) }
    ensures others { (q : ℕ) → nat_eq place q ≡ false → kept_at waves.new q ≡ kept_at waves.old q }
    ensures traces { made.new.traces ≡ made.old.traces }
    ensures horizon { made.new.horizon ≡ made.old.horizon }
{
    former.new.lawful();
    let key = former.new.net_key_at(place);
    let was = old_wave(former, key, former.new.net_at(place).name().as_str());
    let wave = whole(waves.take(place), alloc, was, former.new.horizon() + 1)?;
    made.put_wave(key.number(), wave)
}

/// Puts the traces of the gates at these places. Where an allocation was refused, which are put is not known.
pub fn put_traces<S: Stepper>(
    alloc: Global,
    made: &mut Run,
    traces: &mut PlaceMap<Patch<Driver>>,
    former: &Former,
    held: &[usize],
) -> Result<(), AllocError>
    requires there { (p : ℕ) → is_among held.now p ≡ true → p < length (netlist former.now.new.now).gates }
    requires rising { AllPairs (λ p q. p < q) held.now }
    requires horizon { (netlist former.now.new.now).horizon ≡ (netlist former.now.old.now).horizon }
    requires run { IsRun S.answer former.now.old.now former.now.run.now }
    requires traces { AreTraces S.answer (netlist former.now.old.now) (netlist former.now.new.now) traces.old (suc (netlist former.now.new.now).horizon) }
    requires ends { EndBy traces.old (suc (netlist former.now.new.now).horizon) }
    ensures traces { OnOk result (ArePut (new_trace S.answer former.now.new.now) (keys_of former.now.new.now.gates) held.now made.old.traces made.new.traces) }
    ensures waves { made.new.waves ≡ made.old.waves }
    ensures horizon { made.new.horizon ≡ made.old.horizon }
{
    for place in held {
        put_trace::<S>(alloc, made, traces, former, *place)?;
    }
    Ok(())
}

/// Puts the trace of the gate at a place.
fn put_trace<S: Stepper>(
    alloc: Global,
    made: &mut Run,
    traces: &mut PlaceMap<Patch<Driver>>,
    former: &Former,
    place: usize,
) -> Result<(), AllocError>
    requires there { place < length (netlist former.now.new.now).gates }
    requires horizon { (netlist former.now.new.now).horizon ≡ (netlist former.now.old.now).horizon }
    requires run { IsRun S.answer former.now.old.now former.now.run.now }
    requires trace { IsTrace S.answer (netlist former.now.old.now) (netlist former.now.new.now) traces.old place (suc (netlist former.now.new.now).horizon) }
    requires end { ForSome (kept_at traces.old place) (λ patch. end_of patch.line ≤ suc (netlist former.now.new.now).horizon) }
    ensures traces { OnOk result (ArePut (new_trace S.answer former.now.new.now) (keys_of former.now.new.now.gates) (place ∷ []) made.old.traces made.new.traces) }
    ensures others { (q : ℕ) → nat_eq place q ≡ false → kept_at traces.new q ≡ kept_at traces.old q }
    ensures waves { made.new.waves ≡ made.old.waves }
    ensures horizon { made.new.horizon ≡ made.old.horizon }
{
    former.old.lawful();
    former.new.lawful();
    let key = former.new.gate_key_at(place);
    let was = old_trace(former, key, former.new.gate_at(place).name().as_str());
    let trace = whole(traces.take(place), alloc, was, former.new.horizon() + 1)?;
    made.put_trace(key.number(), trace)
}

/// The whole function below `end`, of which a patch may be kept: with none it is the former one.
fn whole<V: Sample>(
    patch: Option<Patch<V>>,
    alloc: Global,
    old: &Timeline<V>,
    end: u64,
) -> Result<Timeline<V>, AllocError>
    requires some { 0 < end }
    requires within { end ≤ TIME_END }
    requires later { ForSome patch (λ p. end_of p.line ≤ end) }
    ensures { IfOk result (λ line. (f g : ℕ → V) → IsAlwaysSettled V.drift f → IsAlwaysSettled V.drift g
        → old.now ≡ changes_below V.same V.drift g end → Keeps V.same V.drift g f patch end → line ≡ changes_below V.same V.drift f end) }
{
    laws::same_changes::<V>();
    laws::cut_of_changes::<V>();
    match patch {
        None => old.fork(alloc, end - 1, 0),
        Some(patch) => patch.finish(old, end),
    }
}
