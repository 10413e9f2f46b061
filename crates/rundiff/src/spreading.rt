//! What follows from the values of the nets that are looked at: which gates are to be looked at, and which nets become live.

ghost use Rattle.std.specs.Prelude.{◌≡◌, ◌<◌, ◌≤◌, ◌-◌, ◌||◌, ℕ, suc, true, false, not, All, OnOk, length};
ghost use Rattle.std.specs.List.{filter};
ghost use Rattle.std.specs.BTreeSet.{contains};
ghost use Rattle.std.specs.Ordering.{nat_cmp};
ghost use Rattle.design.specs.Keys.{netlist};
ghost use Rattle.design.specs.Netlist.{reads};
ghost use Rattle.design.specs.kept.Places.{driver_places};
ghost use Rattle.scratch.specs.Run.{value};
ghost use Rattle.scratch.specs.kept.Run.{IsRun};
ghost use Rattle.rundiff.specs.kept.Fronts.{AreDrivers, IsWave};
ghost use Rattle.rundiff.specs.kept.Places.{gate_at, is_among, is_live, net_at};
ghost use Rattle.rundiff.specs.kept.Steady.{IsSteady};

use crate::choosing::put_in_order;
use crate::former::{Former, former_wave};
use crate::holding::hold;
use crate::patches::value_at;
use crate::place_map::PlaceMap;
use crate::place_set::PlaceSet;
use design::Design;
use fourstate::Value;
use gatestep::Stepper;
use std::alloc::AllocError;
use waveform::{Patch, Sample};

/// Adds the gates that read those of these nets that have another value at the moment `t` than at the moment before.
pub fn add_changed<S: Stepper>(
    waves: &PlaceMap<Patch<Value>>,
    former: &Former,
    nets: &[usize],
    t: u64,
    gates: &mut Vec<usize>,
) -> Result<(), AllocError>
    requires there { (p : ℕ) → is_among nets.now p ≡ true → p < length (netlist former.now.new.now).nets }
    requires within { t ≤ (netlist former.now.old.now).horizon }
    requires run { IsRun S.answer former.now.old.now former.now.run.now }
    requires waves { (p : ℕ) → is_among nets.now p ≡ true → IsWave S.answer (netlist former.now.old.now) (netlist former.now.new.now) waves.now p (suc t) }
    ensures more { OnOk result ((q : ℕ) → is_among gates.old.items q ≡ true → is_among gates.new.items q ≡ true) }
    ensures steady { OnOk result ((p : ℕ) → is_among nets.now p ≡ true → IsSteady S.answer (netlist former.now.new.now) (is_among gates.new.items) t p) }
{
    for place in nets {
        add_if_changed::<S>(waves, former, *place, t, gates)?;
    }
    Ok(())
}

/// Adds the gates that read a net, where it has another value at the moment `t` than at the moment before.
fn add_if_changed<S: Stepper>(
    waves: &PlaceMap<Patch<Value>>,
    former: &Former,
    place: usize,
    t: u64,
    gates: &mut Vec<usize>,
) -> Result<(), AllocError>
    requires there { place < length (netlist former.now.new.now).nets }
    requires within { t ≤ (netlist former.now.old.now).horizon }
    requires run { IsRun S.answer former.now.old.now former.now.run.now }
    requires wave { IsWave S.answer (netlist former.now.old.now) (netlist former.now.new.now) waves.now place (suc t) }
    ensures more { OnOk result ((q : ℕ) → is_among gates.old.items q ≡ true → is_among gates.new.items q ≡ true) }
    ensures steady { OnOk result (IsSteady S.answer (netlist former.now.new.now) (is_among gates.new.items) t place) }
{
    if changes::<S>(waves, former, place, t) {
        return add_readers(former.new, place, gates);
    }
    Ok(())
}

/// Whether a net has another value at the moment `t` than at the moment before.
fn changes<S: Stepper>(
    waves: &PlaceMap<Patch<Value>>,
    former: &Former,
    place: usize,
    t: u64,
) -> bool
    requires there { place < length (netlist former.now.new.now).nets }
    requires within { t ≤ (netlist former.now.old.now).horizon }
    requires run { IsRun S.answer former.now.old.now former.now.run.now }
    requires wave { IsWave S.answer (netlist former.now.old.now) (netlist former.now.new.now) waves.now place (suc t) }
    ensures { result ≡ false → value S.answer (netlist former.now.new.now) (net_at (netlist former.now.new.now) place) t ≡ value S.answer (netlist former.now.new.now) (net_at (netlist former.now.new.now) place) (t - 1) }
{
    if t == 0 {
        return false;
    }
    let was = former_wave(waves, former, place);
    let before = value_at(waves, place, was, t - 1);
    !value_at(waves, place, was, t).is_same(before)
}

/// Adds the gates that read a net.
fn add_readers(new: &Design, place: usize, gates: &mut Vec<usize>) -> Result<(), AllocError>
    requires there { place < length (netlist new.now).nets }
    ensures more { OnOk result ((q : ℕ) → is_among gates.old.items q ≡ true → is_among gates.new.items q ≡ true) }
    ensures readers { OnOk result ((q : ℕ) → q < length (netlist new.now).gates → reads (gate_at (netlist new.now) q) (net_at (netlist new.now) place).name ≡ true → is_among gates.new.items q ≡ true) }
{
    new.lawful();
    new.places_are_keys();
    let readers = new.fanout(new.net_key_at(place));
    for reader in readers {
        let Some(gate) = new.gate_place_of(*reader) else {
            unreachable!();
        };
        gates.push(gate)?;
    }
    Ok(())
}

/// Makes those of the found nets live that are not, and holds their drivers. It adds these nets and these drivers to what is
/// looked at, and leaves them alone in `found`.
pub fn hold_found(
    live: &mut PlaceSet,
    held: &mut PlaceSet,
    new: &Design,
    found: &mut Vec<usize>,
    nets: &mut Vec<usize>,
    gates: &mut Vec<usize>,
) -> Result<(), AllocError>
    requires there { All (λ p. p < length (netlist new.now).nets) found.old.items }
    requires drivers { AreDrivers (netlist new.now) (contains nat_cmp live.old) (contains nat_cmp held.old) }
    ensures drivers { OnOk result (AreDrivers (netlist new.now) (contains nat_cmp live.new) (contains nat_cmp held.new)) }
    ensures live { OnOk result ((p : ℕ) → contains nat_cmp live.new p ≡ (is_among found.old.items p || contains nat_cmp live.old p)) }
    ensures nets { OnOk result ((p : ℕ) → contains nat_cmp live.new p ≡ true → contains nat_cmp live.old p ≡ false → is_among nets.new.items p ≡ true) }
    ensures nets_more { OnOk result ((p : ℕ) → is_among nets.old.items p ≡ true → is_among nets.new.items p ≡ true) }
    ensures nets_live { OnOk result ((p : ℕ) → is_among nets.old.items p ≡ false → is_among nets.new.items p ≡ true → contains nat_cmp live.new p ≡ true) }
    ensures gates { OnOk result ((q : ℕ) → contains nat_cmp held.new q ≡ true → contains nat_cmp held.old q ≡ false → is_among gates.new.items q ≡ true) }
    ensures gates_more { OnOk result ((q : ℕ) → is_among gates.old.items q ≡ true → is_among gates.new.items q ≡ true) }
{
    put_in_order(found);
    leave_new(found, live);
    nets.extend_from_slice(found.as_slice())?;
    add_drivers(new, found.as_slice(), gates)?;
    hold(live, held, new, found.as_slice())
}

/// Leaves those of some places that are not in a set.
fn leave_new(places: &mut Vec<usize>, set: &PlaceSet)
    ensures { places.new.items ≡ filter (λ p. not (contains nat_cmp set.now p)) places.old.items }
{
    places.retain(|place| !set.contains(*place));
}

/// Adds the gates that drive some nets.
fn add_drivers(new: &Design, nets: &[usize], gates: &mut Vec<usize>) -> Result<(), AllocError>
    requires there { All (λ p. p < length (netlist new.now).nets) nets.now }
    ensures more { OnOk result ((q : ℕ) → is_among gates.old.items q ≡ true → is_among gates.new.items q ≡ true) }
    ensures drivers { OnOk result ((q : ℕ) → q < length (netlist new.now).gates → is_live (netlist new.now) (is_among nets.now) (gate_at (netlist new.now) q).output ≡ true → is_among gates.new.items q ≡ true) }
{
    for place in nets {
        add_drivers_of(new, *place, gates)?;
    }
    Ok(())
}

/// Adds the gates that drive a net.
fn add_drivers_of(new: &Design, place: usize, gates: &mut Vec<usize>) -> Result<(), AllocError>
    requires there { place < length (netlist new.now).nets }
    ensures { OnOk result ((q : ℕ) → is_among gates.new.items q ≡ (is_among (driver_places (netlist new.now).gates (net_at (netlist new.now) place).name) q || is_among gates.old.items q)) }
{
    new.places_are_keys();
    let drivers = new.drivers(new.net_key_at(place));
    for driver in drivers {
        let Some(gate) = new.gate_place_of(*driver) else {
            unreachable!();
        };
        gates.push(gate)?;
    }
    Ok(())
}
