//! What comes of one gate at one moment: whether it is dirty, whether it is stirred, and its task or its state.

ghost use Rattle.std.specs.Prelude.{◌≡◌, ◌<◌, ◌≤◌, ℕ, suc, false, Some, map, length};
ghost use Rattle.std.specs.BTreeSet.{contains};
ghost use Rattle.std.specs.Ordering.{nat_cmp};
ghost use Rattle.gatestep.specs.Tasks.{PendingFrom};
ghost use Rattle.design.specs.Keys.{entry_in, netlist};
ghost use Rattle.design.specs.kept.Keys.{IsConnected};
ghost use Rattle.design.specs.Netlist.{GateEntry, gate_named};
ghost use Rattle.waveform.specs.kept.Entries.{CanStore};
ghost use Rattle.scratch.specs.Run.{state_after, state_before};
ghost use Rattle.scratch.specs.kept.Run.{IsRun};
ghost use Rattle.rundiff.specs.Dirty.{is_dirty, is_new};
ghost use Rattle.rundiff.specs.kept.Fronts.{AreTraces, AreWaves, IsOutcome};
ghost use Rattle.rundiff.specs.kept.Kept.{IsClosed};
ghost use Rattle.rundiff.specs.kept.Places.{gate_at, is_live};
ghost use Rattle.scratch.specs.Work.{is_due, is_stirred, task_at};

use crate::former::Former;
use crate::old::old_trace;
use crate::place_map::PlaceMap;
use crate::place_set::PlaceSet;
use crate::reading::{gate_state, inputs_at, old_inputs_at};
use crate::same::is_new_gate;
use design::{Design, Gate, GateKey};
use fourstate::{Inputs, Value};
use gatestep::{Driver, Stepper, Task};
use waveform::{Patch, Sample, laws};

/// What comes of a gate at a moment.
#[derive(Drop)]
pub enum Outcome {
    /// It is evaluated.
    Working(Task),
    /// It is not, and this is its state after the moment.
    Resting(Driver),
    /// It is not dirty, and this is its state after the moment, in both runs.
    Clean(Driver),
}

/// The state after the moment `t` of the gate of this name in the old run; it most likely has this key.
fn old_state<S: Stepper>(former: &Former, gate: GateKey, name: &str, t: u64) -> Driver
    requires within { t ≤ (netlist former.now.old.now).horizon }
    requires run { IsRun S.answer former.now.old.now former.now.run.now }
    ensures state { (g : GateEntry) → gate_named (netlist former.now.old.now) name.now ≡ Some g → result ≡ state_after S.answer (netlist former.now.old.now) g t }
    ensures can { CanStore t result }
{
    former.old.lawful();
    laws::value_of_changes::<Driver>();
    old_trace(former, gate, name).at(t)
}

/// The state before the moment `t` of the gate of this name in the old run; it most likely has this key.
fn old_state_before<S: Stepper>(former: &Former, gate: GateKey, name: &str, t: u64) -> Driver
    requires within { t ≤ (netlist former.now.old.now).horizon }
    requires run { IsRun S.answer former.now.old.now former.now.run.now }
    ensures { (g : GateEntry) → gate_named (netlist former.now.old.now) name.now ≡ Some g → result ≡ state_before S.answer (netlist former.now.old.now) t g }
{
    if t == 0 {
        return Driver::start();
    }
    old_state::<S>(former, gate, name, t - 1)
}

/// Whether a gate of the new design, which has this key, is dirty at the moment `t`; its state before it and its inputs at
/// it are given, and whether edits may have touched it.
fn is_dirty<S: Stepper>(
    former: &Former,
    key: GateKey,
    gate: &Gate,
    touched: bool,
    state: Driver,
    inputs: Inputs,
    t: u64,
) -> bool
    requires connected { IsConnected former.now.new.now.nets gate.now }
    requires within { t ≤ (netlist former.now.old.now).horizon }
    requires known { touched ≡ false → is_new (netlist former.now.old.now) (entry_in former.now.new.now.nets gate.now) ≡ false }
    requires run { IsRun S.answer former.now.old.now former.now.run.now }
    requires state { state ≡ (task_at S.answer (netlist former.now.new.now) (entry_in former.now.new.now.nets gate.now) t).state }
    requires inputs { inputs ≡ (task_at S.answer (netlist former.now.new.now) (entry_in former.now.new.now.nets gate.now) t).inputs }
    ensures { result ≡ is_dirty S.answer (netlist former.now.old.now) (netlist former.now.new.now) (entry_in former.now.new.now.nets gate.now) t }
{
    former.old.lawful();
    let was = old_state_before::<S>(former, key, gate.name().as_str(), t);
    if !was.is_same(state) {
        return true;
    }
    let former_inputs = old_inputs_at::<S>(former, gate, t);
    if !former_inputs.is_same(inputs) {
        return true;
    }
    touched && is_new_gate(former.old, former.new, key, gate)
}

/// Whether edits touched the net that a gate drives, or a gate that drives it.
fn is_touched(fixed: &PlaceSet, new: &Design, gate: &Gate) -> bool
    ensures { result ≡ false → is_live (netlist new.now) (contains nat_cmp fixed.now) (entry_in new.now.nets gate.now).output ≡ false }
{
    new.places_are_keys();
    match new.net_place_of(gate.output()) {
        Some(output) => fixed.contains(output),
        None => true,
    }
}

/// Whether a gate is stirred at the moment `t`; its state before it and its inputs at it are given.
fn is_stirred<S: Stepper>(
    waves: &PlaceMap<Patch<Value>>,
    former: &Former,
    gate: &Gate,
    state: Driver,
    inputs: Inputs,
    t: u64,
) -> bool
    requires connected { IsConnected former.now.new.now.nets gate.now }
    requires within { t ≤ (netlist former.now.old.now).horizon }
    requires run { IsRun S.answer former.now.old.now former.now.run.now }
    requires waves { AreWaves S.answer (netlist former.now.old.now) (netlist former.now.new.now) waves.now (suc t) }
    requires state { state ≡ (task_at S.answer (netlist former.now.new.now) (entry_in former.now.new.now.nets gate.now) t).state }
    requires inputs { inputs ≡ (task_at S.answer (netlist former.now.new.now) (entry_in former.now.new.now.nets gate.now) t).inputs }
    ensures { result ≡ is_stirred S.answer (netlist former.now.new.now) (entry_in former.now.new.now.nets gate.now) t }
{
    if t == 0 {
        return true;
    }
    if is_due(state, t) {
        return true;
    }
    let before = inputs_at::<S>(waves, former, gate, t - 1, t);
    !inputs.is_same(before)
}

/// Whether an event of the state is due at the moment `t`.
fn is_due(state: Driver, t: u64) -> bool
    ensures { result ≡ is_due state t }
{
    match state.pending() {
        Some((_, due)) => due <= t,
        None => false,
    }
}

/// What comes of the gate at a place at the moment `t`, where all before `t` is known, and what each net has at `t`.
pub fn look<S: Stepper>(
    waves: &PlaceMap<Patch<Value>>,
    traces: &PlaceMap<Patch<Driver>>,
    former: &Former,
    fixed: &PlaceSet,
    place: usize,
    t: u64,
) -> Outcome
    requires there { place < length (netlist former.now.new.now).gates }
    requires within { t ≤ (netlist former.now.old.now).horizon }
    requires run { IsRun S.answer former.now.old.now former.now.run.now }
    requires base { IsClosed (netlist former.now.old.now) (netlist former.now.new.now) (is_live (netlist former.now.new.now) (contains nat_cmp fixed.now)) }
    requires waves { AreWaves S.answer (netlist former.now.old.now) (netlist former.now.new.now) waves.now (suc t) }
    requires traces { AreTraces S.answer (netlist former.now.old.now) (netlist former.now.new.now) traces.now t }
    ensures { IsOutcome S.answer (netlist former.now.old.now) (netlist former.now.new.now) t place result }
{
    former.old.lawful();
    former.new.lawful();
    let key = former.new.gate_key_at(place);
    let gate = former.new.gate_at(place);
    let state = gate_state::<S>(traces, former, place, t);
    let inputs = inputs_at::<S>(waves, former, gate, t, t);
    let touched = is_touched(fixed, former.new, gate);
    if !is_dirty::<S>(former, key, gate, touched, state, inputs, t) {
        return Outcome::Clean(old_state::<S>(former, key, gate.name().as_str(), t));
    }
    if !is_stirred::<S>(waves, former, gate, state, inputs, t) {
        return Outcome::Resting(state);
    }
    Outcome::Working(Task::new(gate.kind(), gate.delays(), state, inputs))
}
