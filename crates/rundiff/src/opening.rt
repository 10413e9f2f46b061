//! A front before moment 0: what edits touched is live.

ghost use Rattle.std.specs.Prelude.{◌≡◌, ◌<◌, ℕ, [], All, IfOk, OnOk, Some, length, true};
ghost use Rattle.std.specs.BTreeSet.{contains};
ghost use Rattle.std.specs.Ordering.{nat_cmp};
ghost use Rattle.catalog.specs.kept.Catalog.{place_of};
ghost use Rattle.event_queue.specs.kept.Noted.{noted};
ghost use Rattle.gatestep.specs.Step.{Evaluation, State};
ghost use Rattle.design.specs.Keys.{KeyedGate, netlist};
ghost use Rattle.design.specs.kept.Keys.{gate_by_key};
ghost use Rattle.edits.specs.kept.Touched.{IsTouched};
ghost use Rattle.rundiff.specs.kept.Fronts.{AreTouched, IsFront};
ghost use Rattle.rundiff.specs.kept.Places.{is_among};
ghost use Rattle.scratch.specs.kept.Places.{has};

use crate::former::Former;
use crate::front::Front;
use crate::gates::Outcomes;
use crate::holding::hold;
use crate::place_map::PlaceMap;
use crate::place_set::PlaceSet;
use crate::places::places_of;
use design::{Design, GateKey, NetKey};
use edits::Touched;
use event_queue::EventQueue;
use std::alloc::{AllocError, Global};

impl Front {
    /// The front before moment 0, where the new design is the old one with edits that touched this. It fails where memory
    /// runs out.
    pub fn open(alloc: Global, former: &Former, touched: &Touched) -> Result<Front, AllocError>
        requires { IsTouched former.now.old.now former.now.new.now touched.now.nets.items touched.now.gates.items }
        ensures front { IfOk result (λ front. (answer : Evaluation → ℕ → State) → IsFront answer (netlist former.now.old.now) (netlist former.now.new.now) front 0) }
        ensures done { IfOk result (λ front. front.done ≡ 0) }
    {
        former.old.lawful();
        former.new.lawful();
        former.old.names_are_keys();
        former.new.names_are_keys();
        former.new.places_are_keys();
        let found = touched_places(alloc, former.new, touched)?;
        let mut live = PlaceSet::new(alloc);
        let mut held = PlaceSet::new(alloc);
        hold(&mut live, &mut held, former.new, found.as_slice())?;
        let fixed = set_of(alloc, found.as_slice())?;
        let inputs = note_all(alloc, &held, 0)?;
        let nets = note_all(alloc, &live, 0)?;
        let waves = PlaceMap::new(alloc);
        let traces = PlaceMap::new(alloc);
        let events = EventQueue::new(alloc);
        Ok(Front {
            live,
            held,
            fixed,
            waves,
            traces,
            events,
            inputs,
            nets,
            gates: Vec::new(alloc),
            net_places: Vec::new(alloc),
            found,
            outcomes: Outcomes::new(alloc),
            done: 0,
        })
    }
}

/// The set of these places.
fn set_of(alloc: Global, places: &[usize]) -> Result<PlaceSet, AllocError>
    ensures { IfOk result (λ set. (p : ℕ) → contains nat_cmp set p ≡ is_among places.now p) }
{
    let mut set = PlaceSet::new(alloc);
    for place in places {
        set.insert(*place)?;
    }
    Ok(set)
}

/// The places of a set, each noted for the moment `t`, and nothing else.
pub fn note_all(alloc: Global, places: &PlaceSet, t: u64) -> Result<EventQueue, AllocError>
    ensures noted { IfOk result (λ queue. (p : ℕ) → contains nat_cmp places.now p ≡ true → has p (noted queue t) ≡ true) }
    ensures early { IfOk result (λ queue. (u : ℕ) → u < t → noted queue u ≡ []) }
{
    let listed = places_of(alloc, places)?;
    let mut queue = EventQueue::new(alloc);
    for place in &listed {
        queue.add(alloc, t, *place)?;
    }
    Ok(queue)
}

/// The places of the nets of the new design that are touched, and of those that gates drive that are touched.
pub fn touched_places(
    alloc: Global,
    new: &Design,
    touched: &Touched,
) -> Result<Vec<usize>, AllocError>
    ensures there { IfOk result (λ places. All (λ p. p < length (netlist new.now).nets) places.items) }
    ensures touched { IfOk result (λ places. AreTouched new.now touched.now.nets.items touched.now.gates.items places.items) }
{
    let mut places = Vec::new(alloc);
    for net in &touched.nets {
        add_net(new, *net, &mut places)?;
    }
    for gate in &touched.gates {
        add_output(new, *gate, &mut places)?;
    }
    Ok(places)
}

/// Adds the place of a net, if it is there.
fn add_net(new: &Design, net: NetKey, places: &mut Vec<usize>) -> Result<(), AllocError>
    ensures there { OnOk result (All (λ p. p < length (netlist new.now).nets) places.old.items → All (λ p. p < length (netlist new.now).nets) places.new.items) }
    ensures more { OnOk result ((p : ℕ) → is_among places.old.items p ≡ true → is_among places.new.items p ≡ true) }
    ensures net { OnOk result ((p : ℕ) → place_of new.now.nets net ≡ Some p → is_among places.new.items p ≡ true) }
{
    if let Some(place) = new.net_place_of(net) {
        places.push(place)?;
    }
    Ok(())
}

/// Adds the place of the net that a gate drives, if the gate is there.
fn add_output(new: &Design, gate: GateKey, places: &mut Vec<usize>) -> Result<(), AllocError>
    ensures there { OnOk result (All (λ p. p < length (netlist new.now).nets) places.old.items → All (λ p. p < length (netlist new.now).nets) places.new.items) }
    ensures more { OnOk result ((p : ℕ) → is_among places.old.items p ≡ true → is_among places.new.items p ≡ true) }
    ensures output { OnOk result ((g : KeyedGate) → gate_by_key new.now gate ≡ Some g → (p : ℕ) → place_of new.now.nets g.output ≡ Some p → is_among places.new.items p ≡ true) }
{
    if new.gate_place_of(gate).is_none() {
        return Ok(());
    }
    add_net(new, new.gate_of(gate).output(), places)
}
