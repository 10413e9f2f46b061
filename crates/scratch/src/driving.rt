//! The nets to which gates with a due event alone give their values, and the gates that feel that.

ghost use Rattle.std.specs.Prelude.{◌≡◌, ◌<◌, ◌-◌, ◌||◌, ◌&&◌, ℕ, Bool, true, false, Some, map, slice_get, unwrap_or, IfSome, IfNone, OnOk};
ghost use Rattle.std.specs.List.{list_any};
ghost use Rattle.design.specs.Keys.{netlist};
ghost use Rattle.design.specs.Netlist.{NetEntry};
ghost use Rattle.scratch.specs.Run.{state_before, value};
ghost use Rattle.scratch.specs.kept.Kept.{IsWiring, currents_of, lone_driver, output_at, places_at};
ghost use Rattle.scratch.specs.kept.Nets.{Part, waves_of};
ghost use Rattle.scratch.specs.kept.Places.{changes_at, has, is_due_at};

use crate::resolving::is_other;
use crate::setting::Setting;
use crate::stirred_gates::StirredGates;
use crate::stirring::insert_readers_of;
use fourstate::Value;
use gatestep::{Driver, Stepper};
use std::alloc::AllocError;
use waveform::laws;

/// The value of the event of the state at a place that is due at the moment `t`, in time units, if one is.
#[inline(always)]
fn due_value(states: &[Driver], place: usize, t: u64) -> Option<Value>
    ensures some { IfSome result (λ v. (is_due_at states.now place t ≡ true) × (v ≡ unwrap_or (slice_get (currents_of states.now t) place) Value.Unknown)) }
    ensures none { IfNone result (is_due_at states.now place t ≡ false) }
{
    match states.get(place) {
        None => None,
        Some(state) => match state.pending() {
            Some((value, time)) if time <= t => Some(value),
            _ => None,
        },
    }
}

/// Gives the net that the gate at a place drives this value, where that gate alone gives it its value, lists it where it had another
/// one, and adds the gates that read it then. Another net is added to `nets`.
#[inline(always)]
fn drive_net<S: Stepper>(
    setting: &Setting,
    gate: usize,
    given: Value,
    values: &mut Vec<Value>,
    nets: &mut Vec<usize>,
    changed: &mut Vec<usize>,
    gates: &mut StirredGates,
) -> Result<(), AllocError>
    requires wired { IsWiring (netlist setting.now.design.now) setting.now.wiring.now }
    requires begun { 0 < setting.now.t }
    requires gives { (n : NetEntry) → lone_driver (netlist setting.now.design.now) n ≡ Some gate → given ≡ value S.answer (netlist setting.now.design.now) n setting.now.t }
    requires part { Part S.answer (netlist setting.now.design.now) setting.now.t changed.old.items values.old.items (waves_of S.answer (netlist setting.now.design.now) setting.now.t) changed.old.items }
    ensures part { OnOk result (Part S.answer (netlist setting.now.design.now) setting.now.t changed.new.items values.new.items (waves_of S.answer (netlist setting.now.design.now) setting.now.t) changed.new.items) }
    ensures gates { OnOk result ((due : ℕ → Bool) → ((k : ℕ) → has k gates.old ≡ (due k || list_any (λ m. has k (places_at setting.now.wiring.now.readers.items m)) changed.old.items)) →
        (k : ℕ) → has k gates.new ≡ (due k || list_any (λ m. has k (places_at setting.now.wiring.now.readers.items m)) changed.new.items)) }
    ensures driven { OnOk result ((m : ℕ) → has m (output_at setting.now.wiring.now.outputs.items gate) ≡ true → has m nets.new.items ≡ false → has m changed.new.items ≡ false →
        changes_at S.answer (netlist setting.now.design.now) m setting.now.t ≡ false) }
    ensures kept { OnOk result ((m : ℕ) → has m nets.new.items ≡ false → has m nets.old.items ≡ false) }
    ensures listed { OnOk result ((m : ℕ) → has m changed.new.items ≡ false → has m changed.old.items ≡ false) }
{
    laws::no_change::<Value>();
    let Some(net) = setting.wiring.outputs.get(gate) else {
        return Ok(());
    };
    let net = *net as usize;
    if net >= values.len() || !is_alone(setting, gate, net) {
        nets.push(net)?;
        return Ok(());
    }
    if is_other(given, values[net]) {
        values[net] = given;
        changed.push(net)?;
        insert_readers_of(setting.wiring, net, gates)?;
    }
    Ok(())
}

/// Whether the gate at a place alone gives the net at a place its value.
#[inline(always)]
fn is_alone(setting: &Setting, gate: usize, net: usize) -> bool
    ensures { result ≡ true → slice_get setting.now.wiring.now.lone_drivers.items net ≡ Some (Some gate) }
{
    match setting.wiring.lone_drivers.get(net) {
        Some(Some(driver)) => *driver as usize == gate,
        _ => false,
    }
}

/// Goes through the gates that are noted for the moment: finds those of which an event is due, gives the nets that these alone drive
/// their values, lists the nets that had other ones, and finds the gates that read them. The nets that other due gates drive are
/// added to `nets`.
pub fn drive_each<S: Stepper>(
    setting: &Setting,
    states: &[Driver],
    noted: &[usize],
    values: &mut Vec<Value>,
    nets: &mut Vec<usize>,
    changed: &mut Vec<usize>,
    gates: &mut StirredGates,
) -> Result<(), AllocError>
    requires wired { IsWiring (netlist setting.now.design.now) setting.now.wiring.now }
    requires begun { 0 < setting.now.t }
    requires states { states.now ≡ map (state_before S.answer (netlist setting.now.design.now) setting.now.t) (netlist setting.now.design.now).gates }
    requires values { values.old.items ≡ map (λ n. value S.answer (netlist setting.now.design.now) n (setting.now.t - 1)) (netlist setting.now.design.now).nets }
    ensures part { OnOk result (Part S.answer (netlist setting.now.design.now) setting.now.t changed.new.items values.new.items (waves_of S.answer (netlist setting.now.design.now) setting.now.t) changed.new.items) }
    ensures gates { OnOk result ((k : ℕ) → has k gates.new ≡ ((has k noted.now && is_due_at states.now k setting.now.t)
        || list_any (λ m. has k (places_at setting.now.wiring.now.readers.items m)) changed.new.items)) }
    ensures driven { OnOk result ((k m : ℕ) → has k noted.now ≡ true → is_due_at states.now k setting.now.t ≡ true → has m (output_at setting.now.wiring.now.outputs.items k) ≡ true →
        has m nets.new.items ≡ false → has m changed.new.items ≡ false → changes_at S.answer (netlist setting.now.design.now) m setting.now.t ≡ false) }
    ensures kept { OnOk result ((m : ℕ) → has m nets.new.items ≡ false → has m nets.old.items ≡ false) }
{
    changed.clear();
    gates.clear();
    for gate in noted {
        if let Some(value) = due_value(states, *gate, setting.t) {
            gates.insert(*gate)?;
            drive_net::<S>(setting, *gate, value, values, nets, changed, gates)?;
        }
    }
    Ok(())
}
