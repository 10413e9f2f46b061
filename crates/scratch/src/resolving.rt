//! The values of nets at a moment, from the states of the gates.

ghost use Rattle.std.specs.Prelude.{List, ◌≡◌, ◌<◌, ◌≤◌, ◌+◌, ◌++◌, ℕ, Some, false, not, map, length, slice_get, unwrap_or, OnOk, IfOk, IfSome};
ghost use Rattle.fourstate.specs.declared.limits.TheConstants.{MAX_TIME};
ghost use Rattle.fourstate.specs.Nets.{net_of};
ghost use Rattle.fourstate.specs.Values.{same_value};
ghost use Rattle.design.specs.Keys.{netlist};
ghost use Rattle.design.specs.kept.Places.{driver_places};
ghost use Rattle.scratch.specs.kept.Kept.{IsWiring, currents_of, net_from, values_at};
ghost use Rattle.scratch.specs.kept.Nets.{Part};
ghost use Rattle.scratch.specs.kept.Places.{changes_at, has};
ghost use Rattle.scratch.specs.kept.Recorded.{recorded_below};
ghost use Rattle.scratch.specs.Run.{state_before, value};
ghost use Rattle.scratch.specs.kept.Tallies.{Counts};
ghost use Rattle.scratch.specs.kept.Tally.{tally_of};
ghost use Rattle.scratch.specs.declared.tally.Tally.{Tally};

use crate::setting::Setting;
use crate::tallies::Tallies;
use crate::wiring::Wiring;
use design::Design;
use fourstate::{NetKind, Value, resolve};
use gatestep::{Driver, Stepper};
use std::alloc::AllocError;
use waveform::{Lines, laws};

/// The current value at a place once due events have become current, x where there is none.
#[inline(always)]
pub fn current_at(states: &[Driver], place: usize, t: u64) -> Value
    ensures { result ≡ unwrap_or (slice_get (currents_of states.now t) place) Value.Unknown }
{
    match states.get(place) {
        Some(state) => state.due(t).current(),
        None => Value::Unknown,
    }
}

/// The current values at some places.
fn gather_currents(
    states: &[Driver],
    places: &[u32],
    t: u64,
    out: &mut Vec<Value>,
) -> Result<(), AllocError>
    ensures { OnOk result (out.new.items ≡ values_at (currents_of states.now t) places.now) }
{
    out.clear();
    for place in places {
        out.push(current_at(states, *place as usize, t))?;
    }
    Ok(())
}

/// What the net of this kind at a place has at the moment `t` from the states of its drivers at some places: from its tally, if it
/// has one.
#[inline(never)]
fn resolve_drivers(
    kind: NetKind,
    place: usize,
    places: &[u32],
    states: &[Driver],
    t: u64,
    tallies: &mut Tallies,
) -> Result<Value, AllocError>
    requires { (tally : Tally) → slice_get tallies.old.nets.items place ≡ Some (Some tally) → tally ≡ tally_of (values_at (currents_of states.now t) places.now) }
    ensures value { IfOk result (λ v. v ≡ net_of kind (values_at (currents_of states.now t) places.now)) }
    ensures nets { tallies.new.nets ≡ tallies.old.nets }
    ensures counted { tallies.new.counted ≡ tallies.old.counted }
{
    if let Some(tally) = tallies.of_net(place) {
        return Ok(tally.resolve(kind));
    }
    gather_currents(states, places, t, &mut tallies.room)?;
    Ok(resolve(kind, tallies.room.as_slice()))
}

/// The value of the net at a place at the moment `t` from the states of the gates. A lone driver gives it what it drives.
#[inline(always)]
fn resolved(
    design: &Design,
    wiring: &Wiring,
    place: usize,
    states: &[Driver],
    t: u64,
    tallies: &mut Tallies,
) -> Result<Value, AllocError>
    requires wired { IsWiring (netlist design.now) wiring.now }
    requires there { place < length (netlist design.now).nets }
    requires counts { Counts (netlist design.now) tallies.old (currents_of states.now t) }
    ensures value { IfOk result (λ v. IfSome (slice_get (netlist design.now).nets place)
        (λ n. v ≡ net_from (currents_of states.now t) t n (driver_places (netlist design.now).gates n.name))) }
    ensures counts { OnOk result (Counts (netlist design.now) tallies.new (currents_of states.now t)) }
{
    if let Some(driver) = wiring.lone_drivers[place] {
        return Ok(current_at(states, driver as usize, t));
    }
    match wiring.kinds[place] {
        None => Ok(design.net_at(place).stimulus_at(t)),
        Some(kind) => {
            let places = wiring.drivers[place].as_slice();
            let value = resolve_drivers(kind, place, places, states, t, tallies)?;
            Ok(value)
        }
    }
}

/// Whether the two values differ.
#[inline(always)]
pub fn is_other(value: Value, other: Value) -> bool
    ensures { result ≡ not (same_value value other) }
{
    value != other
}

/// Goes on to the values at the moment, where nets at other places than these, or those that are listed as changed, have theirs,
/// and lists the other nets that have another value than before. The wave of a net to which one driver alone gives its value is
/// found later, from the driver's trace.
pub fn resolve_nets<S: Stepper>(
    setting: &Setting,
    states: &[Driver],
    nets: &[usize],
    tallies: &mut Tallies,
    values: &mut Vec<Value>,
    waves: &mut Lines<Value>,
    changed: &mut Vec<usize>,
) -> Result<(), AllocError>
    requires wired { IsWiring (netlist setting.now.design.now) setting.now.wiring.now }
    requires begun { 0 < setting.now.t }
    requires within { setting.now.t ≤ MAX_TIME }
    requires states { states.now ≡ map (state_before S.answer (netlist setting.now.design.now) setting.now.t) (netlist setting.now.design.now).gates }
    requires counts { Counts (netlist setting.now.design.now) tallies.old (currents_of states.now setting.now.t) }
    requires part { Part S.answer (netlist setting.now.design.now) setting.now.t changed.old.items values.old.items waves.old changed.old.items }
    requires others { (k : ℕ) → has k nets.now ≡ false → has k changed.old.items ≡ false → changes_at S.answer (netlist setting.now.design.now) k setting.now.t ≡ false }
    ensures counts { OnOk result (Counts (netlist setting.now.design.now) tallies.new (currents_of states.now setting.now.t)) }
    ensures values { OnOk result (values.new.items ≡ map (λ n. value S.answer (netlist setting.now.design.now) n setting.now.t) (netlist setting.now.design.now).nets) }
    ensures waves { OnOk result (waves.new ≡ map (λ n. recorded_below S.answer (netlist setting.now.design.now) n (setting.now.t + 1)) (netlist setting.now.design.now).nets) }
    ensures changed { OnOk result ((k : ℕ) → has k changed.new.items ≡ changes_at S.answer (netlist setting.now.design.now) k setting.now.t) }
    ensures grows { OnOk result ((more : List ℕ) × (changed.new.items ≡ changed.old.items ++ more)) }
{
    let setting = *setting;
    laws::push_to_changes::<Value>();
    laws::reached_by_changes::<Value>();
    laws::changes_lie_before::<Value>();
    laws::no_change::<Value>();
    for place in nets {
        if *place < values.len() {
            let value = resolved(
                setting.design,
                setting.wiring,
                *place,
                states,
                setting.t,
                tallies,
            )?;
            let former = values[*place];
            if is_other(value, former) {
                values[*place] = value;
                if setting.wiring.lone_drivers[*place].is_none() {
                    waves.push_known(*place, setting.t, former, value)?;
                }
                changed.push(*place)?;
            }
        }
    }
    Ok(())
}
