//! The held gates at one moment: tasks of those that are evaluated, and states of all others.

ghost use Rattle.std.specs.Prelude.{◌≡◌, ◌<◌, ◌≤◌, ◌++◌, ℕ, suc, true, false, nat_eq, List, [], ◌∷◌, All, AllPairs, OnOk, length, map};
ghost use Rattle.std.specs.BTreeSet.{contains};
ghost use Rattle.std.specs.Option.{ForSome};
ghost use Rattle.std.specs.Ordering.{nat_cmp};
ghost use Rattle.rundiff.specs.kept.PlaceMaps.{kept_at};
ghost use Rattle.gatestep.specs.Step.{Evaluation, State};
ghost use Rattle.gatestep.specs.Tasks.{IsReady};
ghost use Rattle.design.specs.Keys.{netlist};
ghost use Rattle.design.specs.Netlist.{Netlist};
ghost use Rattle.waveform.specs.kept.Entries.{CanStore};
ghost use Rattle.waveform.specs.kept.Timelines.{end_of};
ghost use Rattle.scratch.specs.Run.{state_after};
ghost use Rattle.scratch.specs.kept.Run.{IsRun};
ghost use Rattle.rundiff.specs.kept.Fronts.{AreOutcomes, AreTraces, AreWaves, IsClean, IsOutcome, IsOwn, IsTrace, is_working};
ghost use Rattle.rundiff.specs.kept.Kept.{IsClosed};
ghost use Rattle.rundiff.specs.kept.Places.{gate_at, is_among, is_live};
ghost use Rattle.scratch.specs.Work.{task_at};

use crate::former::{Former, former_trace};
use crate::looking::{Outcome, look};
use crate::patches::put;
use crate::place_map::PlaceMap;
use crate::place_set::PlaceSet;
use fourstate::Value;
use gatestep::{Driver, Stepper, Task};
use std::alloc::{AllocError, Global};
use waveform::Patch;

/// What comes of each of some gates.
#[derive(Drop)]
pub struct Outcomes {
    /// The tasks of those that are evaluated.
    pub tasks: Vec<Task>,
    /// Their places.
    pub working: Vec<usize>,
    /// The places of those that are not dirty.
    pub clean: Vec<usize>,
    /// The places of the others.
    pub resting: Vec<usize>,
    /// Their states after the moment.
    pub states: Vec<Driver>,
}

impl Outcomes {
    /// What comes of no gate.
    pub fn new(alloc: Global) -> Outcomes {
        Outcomes {
            tasks: Vec::new(alloc),
            working: Vec::new(alloc),
            clean: Vec::new(alloc),
            resting: Vec::new(alloc),
            states: Vec::new(alloc),
        }
    }

    /// Leaves what comes of no gate.
    fn clear(&mut self)
        ensures { (answer : Evaluation → ℕ → State) (old new : Netlist) (t : ℕ) → AreOutcomes answer old new t [] self.new }
    {
        self.tasks.clear();
        self.working.clear();
        self.clean.clear();
        self.resting.clear();
        self.states.clear();
    }
}

/// What comes of each of these gates at the moment `t`, where all before `t` is known, and what each net has at `t`.
pub fn look_at<S: Stepper>(
    waves: &PlaceMap<Patch<Value>>,
    traces: &PlaceMap<Patch<Driver>>,
    former: &Former,
    fixed: &PlaceSet,
    held: &[usize],
    t: u64,
    out: &mut Outcomes,
) -> Result<(), AllocError>
    requires there { (p : ℕ) → is_among held.now p ≡ true → p < length (netlist former.now.new.now).gates }
    requires within { t ≤ (netlist former.now.old.now).horizon }
    requires run { IsRun S.answer former.now.old.now former.now.run.now }
    requires base { IsClosed (netlist former.now.old.now) (netlist former.now.new.now) (is_live (netlist former.now.new.now) (contains nat_cmp fixed.now)) }
    requires waves { AreWaves S.answer (netlist former.now.old.now) (netlist former.now.new.now) waves.now (suc t) }
    requires traces { AreTraces S.answer (netlist former.now.old.now) (netlist former.now.new.now) traces.now t }
    ensures { OnOk result (AreOutcomes S.answer (netlist former.now.old.now) (netlist former.now.new.now) t held.now out.new) }
{
    out.clear();
    for place in held {
        let outcome = look::<S>(waves, traces, former, fixed, *place, t);
        add(out, *place, outcome)?;
    }
    Ok(())
}

/// Adds what comes of one gate.
fn add(out: &mut Outcomes, place: usize, outcome: Outcome) -> Result<(), AllocError>
    ensures { OnOk result ((answer : Evaluation → ℕ → State) (old new : Netlist) (t : ℕ) (places : List ℕ) → AreOutcomes answer old new t places out.old
        → IsOutcome answer old new t place outcome → AreOutcomes answer old new t (places ++ place ∷ []) out.new) }
{
    match outcome {
        Outcome::Working(task) => add_working(out, place, task),
        Outcome::Resting(state) => add_resting(out, place, state),
        Outcome::Clean(state) => add_clean(out, place, state),
    }
}

/// Adds a gate that is not dirty.
fn add_clean(out: &mut Outcomes, place: usize, state: Driver) -> Result<(), AllocError>
    ensures { OnOk result ((answer : Evaluation → ℕ → State) (old new : Netlist) (t : ℕ) (places : List ℕ) → AreOutcomes answer old new t places out.old
        → is_working answer old new t place ≡ false → state ≡ state_after answer new (gate_at new place) t → CanStore t state → IsClean answer old new t place → AreOutcomes answer old new t (places ++ place ∷ []) out.new) }
{
    out.clean.push(place)?;
    add_resting(out, place, state)
}

/// Adds a gate that is evaluated.
fn add_working(out: &mut Outcomes, place: usize, task: Task) -> Result<(), AllocError>
    ensures { OnOk result ((answer : Evaluation → ℕ → State) (old new : Netlist) (t : ℕ) (places : List ℕ) → AreOutcomes answer old new t places out.old
        → is_working answer old new t place ≡ true → task ≡ task_at answer new (gate_at new place) t → IsReady t task → AreOutcomes answer old new t (places ++ place ∷ []) out.new) }
{
    out.tasks.push(task)?;
    out.working.push(place)?;
    Ok(())
}

/// Adds a gate that is not evaluated.
fn add_resting(out: &mut Outcomes, place: usize, state: Driver) -> Result<(), AllocError>
    ensures { OnOk result ((answer : Evaluation → ℕ → State) (old new : Netlist) (t : ℕ) (places : List ℕ) → AreOutcomes answer old new t places out.old
        → is_working answer old new t place ≡ false → state ≡ state_after answer new (gate_at new place) t → CanStore t state → AreOutcomes answer old new t (places ++ place ∷ []) out.new) }
{
    out.states.push(state)?;
    out.resting.push(place)?;
    Ok(())
}

/// Puts the states of some gates after the moment `t`, where all before `t` is known.
pub fn put_states<S: Stepper>(
    alloc: Global,
    traces: &mut PlaceMap<Patch<Driver>>,
    former: &Former,
    places: &[usize],
    states: &[Driver],
    t: u64,
) -> Result<(), AllocError>
    requires there { (p : ℕ) → is_among places.now p ≡ true → p < length (netlist former.now.new.now).gates }
    requires rising { AllPairs (λ p q. p < q) places.now }
    requires within { t ≤ (netlist former.now.old.now).horizon }
    requires run { IsRun S.answer former.now.old.now former.now.run.now }
    requires traces { (p : ℕ) → is_among places.now p ≡ true → IsTrace S.answer (netlist former.now.old.now) (netlist former.now.new.now) traces.old p t }
    requires ends { (p : ℕ) → is_among places.now p ≡ true → ForSome (kept_at traces.old p) (λ patch. end_of patch.line ≤ t) }
    requires states { states.now ≡ map (λ p. state_after S.answer (netlist former.now.new.now) (gate_at (netlist former.now.new.now) p) t) places.now }
    requires can { All (CanStore t) states.now }
    ensures put { OnOk result ((p : ℕ) → is_among places.now p ≡ true → IsTrace S.answer (netlist former.now.old.now) (netlist former.now.new.now) traces.new p (suc t)) }
    ensures own { OnOk result ((p : ℕ) → is_among places.now p ≡ true → IsOwn (kept_at traces.new p)) }
    ensures ends { OnOk result ((p : ℕ) → is_among places.now p ≡ true → ForSome (kept_at traces.new p) (λ patch. end_of patch.line ≤ suc t)) }
    ensures others { OnOk result ((p : ℕ) → is_among places.now p ≡ false → kept_at traces.new p ≡ kept_at traces.old p) }
{
    for i in 0..places.len() {
        put_state::<S>(alloc, traces, former, places[i], states[i], t)?;
    }
    Ok(())
}

/// Puts the state of one gate after the moment `t`.
fn put_state<S: Stepper>(
    alloc: Global,
    traces: &mut PlaceMap<Patch<Driver>>,
    former: &Former,
    place: usize,
    state: Driver,
    t: u64,
) -> Result<(), AllocError>
    requires there { place < length (netlist former.now.new.now).gates }
    requires within { t ≤ (netlist former.now.old.now).horizon }
    requires run { IsRun S.answer former.now.old.now former.now.run.now }
    requires trace { IsTrace S.answer (netlist former.now.old.now) (netlist former.now.new.now) traces.old place t }
    requires end { ForSome (kept_at traces.old place) (λ patch. end_of patch.line ≤ t) }
    requires state { state ≡ state_after S.answer (netlist former.now.new.now) (gate_at (netlist former.now.new.now) place) t }
    requires can { CanStore t state }
    ensures put { OnOk result (IsTrace S.answer (netlist former.now.old.now) (netlist former.now.new.now) traces.new place (suc t)) }
    ensures own { OnOk result (IsOwn (kept_at traces.new place)) }
    ensures end { OnOk result (ForSome (kept_at traces.new place) (λ patch. end_of patch.line ≤ suc t)) }
    ensures others { OnOk result ((q : ℕ) → nat_eq place q ≡ false → kept_at traces.new q ≡ kept_at traces.old q) }
{
    former.old.lawful();
    former.new.lawful();
    let was = former_trace(traces, former, place);
    put(traces, alloc, place, was, t, state)
}
