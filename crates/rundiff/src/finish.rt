//! The new run, once all moments up to the horizon are done.

ghost use Rattle.std.specs.Prelude.{◌≡◌, ◌<◌, ℕ, List, All, None, true, false, suc, IfOk, OnOk, length};
ghost use Rattle.std.specs.BTreeSet.{contains};
ghost use Rattle.std.specs.Ordering.{nat_cmp};
ghost use Rattle.catalog.specs.kept.Catalog.{keys_of};
ghost use Rattle.design.specs.Keys.{netlist};
ghost use Rattle.edits.specs.kept.Touched.{IsTouched};
ghost use Rattle.scratch.specs.kept.Run.{IsRun};
ghost use Rattle.rundiff.specs.kept.Finishing.{ArePut, AreCleared, new_trace, new_wave};
ghost use Rattle.rundiff.specs.kept.Fronts.{AreDrivers, ArePlaces, AreTouched, AreTraces, AreWaves, EndBy, IsFront};
ghost use Rattle.rundiff.specs.kept.PlaceMaps.{kept_at};
ghost use Rattle.rundiff.specs.kept.Places.{gate_at, is_among, is_live};

use crate::choosing::add_outputs;
use crate::finishing::{clear_touched, put_traces, put_waves};
use crate::former::Former;
use crate::front::Front;
use crate::holding::hold;
use crate::opening::touched_places;
use crate::place_map::PlaceMap;
use crate::place_set::PlaceSet;
use crate::places::places_of;
use design::Design;
use edits::Touched;
use fourstate::Value;
use gatestep::{Driver, Stepper};
use std::alloc::{AllocError, Global};
use waveform::{Patch, Run, laws};

impl Front {
    /// The run of the new design, once all moments up to the horizon, which is that of the old one, are done. What is not
    /// live is shared with the old run. It fails where memory runs out.
    pub fn finish<S: Stepper>(
        self,
        alloc: Global,
        former: &Former,
        touched: &Touched,
    ) -> Result<Run, AllocError>
        requires run { IsRun S.answer former.now.old.now former.now.run.now }
        requires touched { IsTouched former.now.old.now former.now.new.now touched.now.nets.items touched.now.gates.items }
        requires horizon { (netlist former.now.new.now).horizon ≡ (netlist former.now.old.now).horizon }
        requires front { IsFront S.answer (netlist former.now.old.now) (netlist former.now.new.now) self (suc (netlist former.now.new.now).horizon) }
        ensures { IfOk result (λ made. IsRun S.answer former.now.new.now made) }
    {
        let mut front = self;
        front.give_run::<S>(alloc, former, touched)
    }

    /// The run of the new design; what is touched becomes live, and the patches go into the run.
    fn give_run<S: Stepper>(
        &mut self,
        alloc: Global,
        former: &Former,
        touched: &Touched,
    ) -> Result<Run, AllocError>
        requires run { IsRun S.answer former.now.old.now former.now.run.now }
        requires touched { IsTouched former.now.old.now former.now.new.now touched.now.nets.items touched.now.gates.items }
        requires horizon { (netlist former.now.new.now).horizon ≡ (netlist former.now.old.now).horizon }
        requires front { IsFront S.answer (netlist former.now.old.now) (netlist former.now.new.now) self.old (suc (netlist former.now.new.now).horizon) }
        ensures { IfOk result (λ made. IsRun S.answer former.now.new.now made) }
    {
        former.old.lawful();
        former.new.lawful();
        former.new.places_are_keys();
        laws::same_changes::<Value>();
        laws::same_changes::<Driver>();
        hold_all(
            &mut self.live,
            &mut self.held,
            alloc,
            former.new,
            touched,
            &self.waves,
            &self.traces,
        )?;
        let mut made = cleared_copy(former.run, touched)?;
        put_live::<S>(alloc, &mut made, &mut self.waves, former, &self.live)?;
        put_held::<S>(alloc, &mut made, &mut self.traces, former, &self.held)?;
        Ok(made)
    }
}

/// Makes the nets live that edits touched, those that touched gates drive, and all that were live at any moment.
fn hold_all(
    live: &mut PlaceSet,
    held: &mut PlaceSet,
    alloc: Global,
    new: &Design,
    touched: &Touched,
    waves: &PlaceMap<Patch<Value>>,
    traces: &PlaceMap<Patch<Driver>>,
) -> Result<(), AllocError>
    requires drivers { AreDrivers (netlist new.now) (contains nat_cmp live.old) (contains nat_cmp held.old) }
    ensures drivers { OnOk result (AreDrivers (netlist new.now) (contains nat_cmp live.new) (contains nat_cmp held.new)) }
    ensures more { OnOk result ((p : ℕ) → contains nat_cmp live.old p ≡ true → contains nat_cmp live.new p ≡ true) }
    ensures touched { OnOk result ((places : List ℕ) × AreTouched new.now touched.now.nets.items touched.now.gates.items places
        × ((p : ℕ) → is_among places p ≡ true → contains nat_cmp live.new p ≡ true)) }
    ensures waves { OnOk result ((p : ℕ) → p < length (netlist new.now).nets → contains nat_cmp live.new p ≡ false → kept_at waves.now p ≡ None) }
    ensures traces { OnOk result ((q : ℕ) → q < length (netlist new.now).gates → contains nat_cmp held.new q ≡ false → kept_at traces.now q ≡ None) }
{
    new.lawful();
    let mut found = touched_places(alloc, new, touched)?;
    waves.add_places(new.net_count(), &mut found)?;
    let mut gates = Vec::new(alloc);
    traces.add_places(new.gate_count(), &mut gates)?;
    add_outputs(new, gates.as_slice(), &mut found)?;
    hold(live, held, new, found.as_slice())
}

/// A copy of a run without what stands under keys that edits touched.
fn cleared_copy(run: &Run, touched: &Touched) -> Result<Run, AllocError>
    ensures waves { IfOk result (λ made. AreCleared touched.now.nets.items run.now.waves made.waves) }
    ensures traces { IfOk result (λ made. AreCleared touched.now.gates.items run.now.traces made.traces) }
    ensures horizon { IfOk result (λ made. made.horizon ≡ run.now.horizon) }
{
    let mut made = run.try_clone()?;
    clear_touched(&mut made, touched)?;
    Ok(made)
}

/// Puts the waves of the live nets. Where an allocation was refused, which are put is not known.
fn put_live<S: Stepper>(
    alloc: Global,
    made: &mut Run,
    waves: &mut PlaceMap<Patch<Value>>,
    former: &Former,
    live: &PlaceSet,
) -> Result<(), AllocError>
    requires there { (p : ℕ) → contains nat_cmp live.now p ≡ true → p < length (netlist former.now.new.now).nets }
    requires horizon { (netlist former.now.new.now).horizon ≡ (netlist former.now.old.now).horizon }
    requires run { IsRun S.answer former.now.old.now former.now.run.now }
    requires waves { AreWaves S.answer (netlist former.now.old.now) (netlist former.now.new.now) waves.old (suc (netlist former.now.new.now).horizon) }
    requires ends { EndBy waves.old (suc (netlist former.now.new.now).horizon) }
    ensures waves { OnOk result ((places : List ℕ) × ArePlaces places (contains nat_cmp live.now)
        × ArePut (new_wave S.answer former.now.new.now) (keys_of former.now.new.now.nets) places made.old.waves made.new.waves) }
    ensures traces { made.new.traces ≡ made.old.traces }
    ensures horizon { made.new.horizon ≡ made.old.horizon }
{
    let places = places_of(alloc, live)?;
    put_waves::<S>(alloc, made, waves, former, places.as_slice())
}

/// Puts the traces of the held gates. Where an allocation was refused, which are put is not known.
fn put_held<S: Stepper>(
    alloc: Global,
    made: &mut Run,
    traces: &mut PlaceMap<Patch<Driver>>,
    former: &Former,
    held: &PlaceSet,
) -> Result<(), AllocError>
    requires there { (p : ℕ) → contains nat_cmp held.now p ≡ true → p < length (netlist former.now.new.now).gates }
    requires horizon { (netlist former.now.new.now).horizon ≡ (netlist former.now.old.now).horizon }
    requires run { IsRun S.answer former.now.old.now former.now.run.now }
    requires traces { AreTraces S.answer (netlist former.now.old.now) (netlist former.now.new.now) traces.old (suc (netlist former.now.new.now).horizon) }
    requires ends { EndBy traces.old (suc (netlist former.now.new.now).horizon) }
    ensures traces { OnOk result ((places : List ℕ) × ArePlaces places (contains nat_cmp held.now)
        × ArePut (new_trace S.answer former.now.new.now) (keys_of former.now.new.now.gates) places made.old.traces made.new.traces) }
    ensures waves { made.new.waves ≡ made.old.waves }
    ensures horizon { made.new.horizon ≡ made.old.horizon }
{
    let places = places_of(alloc, held)?;
    put_traces::<S>(alloc, made, traces, former, places.as_slice())
}
