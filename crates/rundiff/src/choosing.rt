//! Which live nets and which held gates are to be looked at, by what is noted.

ghost use Rattle.std.specs.Prelude.{◌≡◌, ◌<◌, ◌&&◌, ℕ, true, All, AllPairs, OnOk, length};
ghost use Rattle.std.specs.BTreeSet.{contains};
ghost use Rattle.std.specs.Ordering.{nat_cmp};
ghost use Rattle.event_queue.specs.kept.Noted.{IsTaken, noted};
ghost use Rattle.design.specs.Keys.{netlist};
ghost use Rattle.rundiff.specs.kept.Fronts.{ArePlaces};
ghost use Rattle.rundiff.specs.kept.Places.{gate_at, is_among, is_live};
ghost use Rattle.scratch.specs.kept.Places.{has};

use crate::place_set::PlaceSet;
use design::Design;
use event_queue::EventQueue;
use std::alloc::AllocError;

/// Puts some places in order, each once.
pub fn put_in_order(places: &mut Vec<usize>)
    ensures same { (p : ℕ) → is_among places.new.items p ≡ is_among places.old.items p }
    ensures there { (n : ℕ) → All (λ p. p < n) places.old.items → All (λ p. p < n) places.new.items }
    ensures once { ArePlaces places.new.items (is_among places.new.items) }
{
    places.sort_unstable();
    places.dedup();
}

/// Leaves those of some places that are in a set, in order, each once.
fn keep_in_order(places: &mut Vec<usize>, set: &PlaceSet)
    ensures { ArePlaces places.new.items (λ p. is_among places.old.items p && contains nat_cmp set.now p) }
{
    put_in_order(places);
    places.retain(|place| set.contains(*place));
}

/// Adds the net that a gate drives.
fn add_output(new: &Design, place: usize, nets: &mut Vec<usize>) -> Result<(), AllocError>
    requires there { place < length (netlist new.now).gates }
    ensures there { OnOk result (All (λ p. p < length (netlist new.now).nets) nets.old.items → All (λ p. p < length (netlist new.now).nets) nets.new.items) }
    ensures more { OnOk result ((p : ℕ) → is_among nets.old.items p ≡ true → is_among nets.new.items p ≡ true) }
    ensures driven { OnOk result (is_live (netlist new.now) (is_among nets.new.items) (gate_at (netlist new.now) place).output ≡ true) }
{
    new.places_are_keys();
    let Some(net) = new.net_place_of(new.gate_at(place).output()) else {
        unreachable!();
    };
    nets.push(net)?;
    Ok(())
}

/// Adds the nets that some gates drive.
pub fn add_outputs(new: &Design, gates: &[usize], nets: &mut Vec<usize>) -> Result<(), AllocError>
    requires there { (q : ℕ) → is_among gates.now q ≡ true → q < length (netlist new.now).gates }
    ensures there { OnOk result (All (λ p. p < length (netlist new.now).nets) nets.old.items → All (λ p. p < length (netlist new.now).nets) nets.new.items) }
    ensures more { OnOk result ((p : ℕ) → is_among nets.old.items p ≡ true → is_among nets.new.items p ≡ true) }
    ensures driven { OnOk result ((q : ℕ) → is_among gates.now q ≡ true → is_live (netlist new.now) (is_among nets.new.items) (gate_at (netlist new.now) q).output ≡ true) }
{
    for place in gates {
        add_output(new, *place, nets)?;
    }
    Ok(())
}

/// Takes the nets that are noted for the moment `t`, and leaves, of these and of the outputs of some gates, the live ones, in
/// order, each once.
pub fn choose_nets(
    queue: &mut EventQueue,
    live: &PlaceSet,
    new: &Design,
    t: u64,
    gates: &[usize],
    nets: &mut Vec<usize>,
) -> Result<(), AllocError>
    requires there { (q : ℕ) → is_among gates.now q ≡ true → q < length (netlist new.now).gates }
    requires live { (q : ℕ) → is_among gates.now q ≡ true → is_live (netlist new.now) (contains nat_cmp live.now) (gate_at (netlist new.now) q).output ≡ true }
    ensures queue { OnOk result (IsTaken t queue.old queue.new) }
    ensures rising { OnOk result (AllPairs (λ p q. p < q) nets.new.items) }
    ensures live { OnOk result ((p : ℕ) → is_among nets.new.items p ≡ true → contains nat_cmp live.now p ≡ true) }
    ensures noted { OnOk result ((p : ℕ) → contains nat_cmp live.now p ≡ true → has p (noted queue.old t) ≡ true → is_among nets.new.items p ≡ true) }
    ensures driven { OnOk result ((q : ℕ) → is_among gates.now q ≡ true → is_live (netlist new.now) (is_among nets.new.items) (gate_at (netlist new.now) q).output ≡ true) }
{
    nets.clear();
    queue.take(t, nets)?;
    add_outputs(new, gates, nets)?;
    keep_in_order(nets, live);
    Ok(())
}

/// Takes the gates that are noted for the moment `t` and leaves, of these and of those that were there, the held ones, in
/// order, each once.
pub fn choose_gates(
    queue: &mut EventQueue,
    held: &PlaceSet,
    t: u64,
    gates: &mut Vec<usize>,
) -> Result<(), AllocError>
    ensures queue { OnOk result (IsTaken t queue.old queue.new) }
    ensures rising { OnOk result (ArePlaces gates.new.items (is_among gates.new.items)) }
    ensures held { OnOk result ((q : ℕ) → is_among gates.new.items q ≡ true → contains nat_cmp held.now q ≡ true) }
    ensures more { OnOk result ((q : ℕ) → contains nat_cmp held.now q ≡ true → is_among gates.old.items q ≡ true → is_among gates.new.items q ≡ true) }
    ensures noted { OnOk result ((q : ℕ) → contains nat_cmp held.now q ≡ true → has q (noted queue.old t) ≡ true → is_among gates.new.items q ≡ true) }
{
    queue.take(t, gates)?;
    keep_in_order(gates, held);
    Ok(())
}
