//! A design that commits change, and its snapshots.

ghost use Rattle.std.specs.Prelude.{◌≡◌, ◌<◌, ◌+◌, ◌-◌, ◌^◌, ◌⊎◌, ℕ, List, false, None, Ok, Err, IfErr, IfOk, IfSome, OnErr, OnOk, MatchResult, if◌then◌else◌, length, slice_get};
ghost use Rattle.std.specs.Arc.{arc_value};
ghost use Rattle.gatestep.specs.Step.{advance};
ghost use Rattle.design.specs.Keys.{netlist};
ghost use Rattle.design.specs.Netlist.{net_named};
ghost use Rattle.edits.specs.kept.Touched.{IsTouched};
ghost use Rattle.scratch.specs.kept.Lost as lost;
ghost use Rattle.scratch.specs.Asked.{IsAskedInSomeOrder};
ghost use Rattle.scratch.specs.kept.Run.{IsRun};
ghost use Rattle.rundiff.specs.kept.Changed.{AreChanged};
ghost use Rattle.resim.specs.kept.Changes.{has_changed};
ghost use Rattle.resim.specs.Reruns.{HasGrownInPart};
ghost use Rattle.bench.specs.Benches.{IsNewOrStays, IsPast, SnapshotRecord, since_of, snapshot_of};
ghost use Rattle.bench.specs.Commits.{commit_of};
ghost use Rattle.bench.specs.Refusals.{LeavesBehind, MayRefuse, loses_a_worker};
ghost use Rattle.bench.specs.kept.Refusals.{IsRefusal};
ghost use Rattle.bench.specs.kept.Since.{HasSince, KeepsName, since_name};
ghost use Rattle.bench.specs.Work.{AskedByAccepted, AskedByRefused, work_of};

use crate::fault::CommitFault;
use crate::simulated::Simulated;
use crate::since::{Since, is_any_gone};
use crate::snapshot::Snapshot;
use design::Design;
use edits::{Edit, EditFault, Touched, apply_all_with_touched};
use gatestep::{StepFault, Stepper};
use resim::Changed;
use std::alloc::{AllocError, Global};
use std::marker::Model;
use std::mem;
use std::sync::Arc;

/// A design that commits change one after another, and the stepper that makes its runs. Contracts see the present snapshot and, of
/// the stepper, what it was asked and how often it lost a worker.
#[derive(Drop)]
pub struct Bench<S: Stepper + Drop> {
    alloc: Global,
    present: Arc<Snapshot>,
    simulated: Arc<Simulated>,
    since: Since,
    stepper: S,
}

impl<S: Stepper + Drop> Model for Bench<S> {
    ghost use Rattle.std.specs.Prelude.{◌≡◌};
    ghost use Rattle.std.specs.Arc.{arc_value};
    ghost use Rattle.gatestep.specs.Step.{advance};
    ghost use Rattle.bench.specs.Benches.{BenchRecord};

    ghost Value = { BenchRecord };

    ghost use Rattle.bench.specs.kept.Kept.{IsPresent};
    ghost use Rattle.bench.specs.kept.Since.{versions_in};

    ghost view = { λ b. record {
      snapshot = arc_value b.present;
      since = versions_in b.since (arc_value b.simulated).design;
      gone = b.since.gone;
      asked = S.asked b.stepper;
      losses = S.losses b.stepper;
    } };

    ghost invariant = { λ b. (S.answer ≡ advance) × IsPresent (arc_value b.present) (arc_value b.simulated) };
}

impl<S: Stepper + Drop> Bench<S> {
    /// The design at version 0, with its run. `OutOfMemory` where an allocation was refused, here or in a step; `WorkerLost` where
    /// the stepper lost a worker, and nowhere else. Where it fails the design and the stepper are dropped.
    pub fn open(alloc: Global, design: Design, stepper: S) -> Result<Bench<S>, StepFault>
        requires { S.answer ≡ advance }
        ensures snapshot { IfOk result (λ bench. bench.snapshot ≡ snapshot_of 0 (netlist design)) }
        ensures asked { IfOk result (λ bench. IsAskedInSomeOrder (S.asked stepper) bench.asked (work_of (netlist design))) }
        ensures since { IfOk result (λ bench. (name : List ℕ) → since_of bench name ≡ 0) }
        ensures losses { IfOk result (λ bench. bench.losses ≡ S.losses stepper) }
        ensures lost { IfErr result (LeavesBehind S.losses (S.losses stepper)) }
    {
        let mut stepper = stepper;
        let simulated = Simulated::open(alloc, design, &mut stepper)?;
        let present = Snapshot::of(alloc, 0, &simulated)?;
        Ok(Bench {
            alloc,
            present,
            simulated,
            since: Since::open(alloc, 0),
            stepper,
        })
    }

    /// Carries out the edits, one after another, and makes the run of the design with them from the present one: all of it, or
    /// nothing. Gives the new version. The empty list is a commit. At the version 2^64 - 1 each commit is refused as
    /// `Edit(0, TooMany)`. Snapshots that are held stay as they are.
    #[tactic(auto, using(crate::proofs::CommitLemmas::may_refuse, crate::proofs::CommitLemmas::no_loss, crate::proofs::CommitLemmas::asked_nothing, crate::proofs::CommitLemmas::asked_part))]
    pub fn commit(&mut self, edits: &[Edit]) -> Result<u64, CommitFault>
        ensures design { OnOk result (commit_of self.old.snapshot.version self.old.snapshot.design edits.now
            ≡ Ok self.new.snapshot.design) }
        ensures version { IfOk result (λ version. (version ≡ self.old.snapshot.version + 1)
            × (version ≡ self.new.snapshot.version)) }
        ensures refused { IfErr result (MayRefuse self.old.snapshot edits.now) }
        ensures unchanged { OnErr result (self.new.snapshot ≡ self.old.snapshot) }

        // Since when each net has its wave.
        ensures since { OnOk result ((name : List ℕ) → IsNewOrStays self.old self.new name) }
        ensures same { OnErr result ((name : List ℕ) → since_of self.new name ≡ since_of self.old name) }
        ensures past { (held : SnapshotRecord) → IsPast self.old held → IsPast self.new held }

        // What the stepper was asked.
        ensures asked { OnOk result (AskedByAccepted self.old.snapshot.design self.new.snapshot.design self.old.asked self.new.asked) }
        ensures part { OnErr result (AskedByRefused self.old.snapshot.design
            (commit_of self.old.snapshot.version self.old.snapshot.design edits.now) self.old.asked self.new.asked) }
        ensures lost { self.new.losses ≡ self.old.losses + (if loses_a_worker result then 1 else 0) }
    {
        let version = self.present.version();
        match edited(self.alloc, version, &self.simulated.design, edits) {
            Ok(made) => {
                let (simulated, present) = next_of(
                    self.alloc,
                    version + 1,
                    &self.simulated,
                    made,
                    &mut self.since,
                    &mut self.stepper,
                )?;
                self.present = present;
                self.simulated = simulated;
                Ok(version + 1)
            }
            Err((place, fault)) => Err(edit_refusal(place, fault)),
        }
    }

    /// Puts another stepper in the place of the present one, which it gives back. The snapshot stays. It takes no memory.
    pub fn restep(&mut self, stepper: S) -> S
        ensures snapshot { self.new.snapshot ≡ self.old.snapshot }
        ensures since { (self.new.since ≡ self.old.since) × (self.new.gone ≡ self.old.gone) }
        ensures asked { self.new.asked ≡ S.asked stepper }
        ensures losses { self.new.losses ≡ S.losses stepper }
        ensures former { (S.asked result ≡ self.old.asked) × (S.losses result ≡ self.old.losses) }
    {
        mem::replace(&mut self.stepper, stepper)
    }

    /// The present snapshot. Who holds it copies the pointer by `try_clone`.
    pub fn snapshot(&self) -> &Arc<Snapshot>
        ensures { arc_value result.now ≡ self.now.snapshot }
    {
        &self.present
    }

    /// The version since which the net at a place in the order of the present design's nets has its wave: it is as new as that, or
    /// a commit of that version made its wave. It may be later than the commit that changed the wave last.
    pub fn since_at(&self, place: usize) -> u64
        requires { place < length self.now.snapshot.design.nets }
        ensures { IfSome (slice_get self.now.snapshot.design.nets place) (λ net. result ≡ since_of self.now net.name) }
    {
        let design = &self.simulated.design;
        design.lawful();
        let key = design.net_key_at(place);
        self.since.version_of(key)
    }

    /// The version since which no net has a name that no net has at present.
    pub fn since_gone(&self) -> u64
        ensures { (name : List ℕ) → net_named self.now.snapshot.design name ≡ None → result ≡ since_of self.now name }
    {
        self.since.gone
    }
}

// The design with its run that follows a version, and its snapshot, of what edits made of the present one; the versions of its nets.
fn next_of<S: Stepper>(
    alloc: Global,
    version: u64,
    old: &Simulated,
    made: (Design, Touched),
    since: &mut Since,
    stepper: &mut S,
) -> Result<(Arc<Simulated>, Arc<Snapshot>), StepFault>
    requires answer { S.answer ≡ advance }
    requires run { IsRun advance old.now.design old.now.run }
    requires touched { IsTouched old.now.design made.0 made.1.nets.items made.1.gates.items }
    ensures design { IfOk result (λ next. (arc_value next.0).design ≡ made.0) }
    ensures run { IfOk result (λ next. IsRun advance (arc_value next.0).design (arc_value next.0).run) }
    ensures snapshot { IfOk result (λ next. arc_value next.1 ≡ snapshot_of version (netlist made.0)) }
    ensures since { OnOk result ((name : List ℕ) → HasSince version old.now.design made.0 since.old since.new name) }
    ensures same { OnErr result ((name : List ℕ) → since_name since.new old.now.design name ≡ since_name since.old old.now.design name) }
    ensures asked { OnOk result (AskedByAccepted (netlist old.now.design) (netlist made.0) (S.asked stepper.old) (S.asked stepper.new)) }
    ensures part { OnErr result (HasGrownInPart advance (netlist old.now.design) (netlist made.0) (S.asked stepper.old) (S.asked stepper.new)) }
    ensures lost { S.losses stepper.new ≡ S.losses stepper.old + (if lost.loses_a_worker result then 1 else 0) }
{
    let mut changed = Changed::All;
    let is_gone = is_any_gone(&old.design, &made.0, &made.1);
    let next = Simulated::from(alloc, old, made, &mut changed, stepper)?;
    let present = settle(alloc, version, &old.design, &next, &changed, is_gone, since)?;
    Ok((next, present))
}

// The snapshot of a design with its run, and the versions of its nets: of these some changed, and one may be gone.
fn settle(
    alloc: Global,
    version: u64,
    old: &Design,
    next: &Arc<Simulated>,
    changed: &Changed,
    is_gone: bool,
    since: &mut Since,
) -> Result<Arc<Snapshot>, AllocError>
    requires run { IsRun advance (arc_value next.now).design (arc_value next.now).run }
    requires changed { AreChanged advance old.now (arc_value next.now).design (has_changed changed.now) }
    requires gone { is_gone ≡ false → (key : ℕ) → KeepsName old.now (arc_value next.now).design key }
    ensures snapshot { IfOk result (λ snapshot. arc_value snapshot ≡ snapshot_of version (netlist (arc_value next.now).design)) }
    ensures since { OnOk result ((name : List ℕ) → HasSince version old.now (arc_value next.now).design since.old since.new name) }
    ensures same { OnErr result ((name : List ℕ) → since_name since.new old.now name ≡ since_name since.old old.now name) }
{
    old.lawful();
    old.names_are_keys();
    let design = &next.design;
    design.lawful();
    design.names_are_keys();
    since.make_room(changed)?;
    let snapshot = Snapshot::of(alloc, version, next)?;
    since.note(changed, is_gone, version);
    Ok(snapshot)
}

// The design with the edits, which follows a version, and what they touched.
fn edited(
    alloc: Global,
    version: u64,
    design: &Design,
    edits: &[Edit],
) -> Result<(Design, Touched), (usize, EditFault)>
    ensures design { IfOk result (λ made. commit_of version (netlist design.now) edits.now ≡ Ok (netlist made.0)) }
    ensures touched { IfOk result (λ made. IsTouched design.now made.0 made.1.nets.items made.1.gates.items) }
    ensures room { OnOk result (version < 2 ^ 64 - 1) }
    ensures refused { IfErr result (λ refused. (refused.1 ≡ EditFault.OutOfMemory)
        ⊎ (commit_of version (netlist design.now) edits.now ≡ Err refused)) }
{
    if version == u64::MAX {
        return Err((0, EditFault::TooMany));
    }
    apply_all_with_touched(alloc, design, edits)
}

// The fault of a commit for the fault of the edit at a place.
fn edit_refusal(place: usize, fault: EditFault) -> CommitFault
    ensures { IsRefusal place fault result }
{
    match fault {
        EditFault::OutOfMemory => CommitFault::OutOfMemory,
        _ => CommitFault::Edit(place, fault),
    }
}
