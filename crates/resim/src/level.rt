//! The run of a design from the run of a former one with the same horizon.

ghost use Rattle.std.specs.Prelude.{◌≡◌, ◌<◌, ◌≤◌, ◌+◌, ◌++◌, [], suc, map, All, IfOk, OnErr, OnOk, if◌then◌else◌};
ghost use Rattle.fourstate.specs.declared.limits.TheConstants.{MAX_TIME};
ghost use Rattle.gatestep.specs.Faults.{is_lost};
ghost use Rattle.gatestep.specs.Record.{at_moment};
ghost use Rattle.gatestep.specs.Tasks.{IsReady};
ghost use Rattle.design.specs.Keys.{netlist};
ghost use Rattle.edits.specs.kept.Touched.{IsTouched};
ghost use Rattle.scratch.specs.kept.Lost.{CountsLoss};
ghost use Rattle.scratch.specs.kept.Run.{IsRun};
ghost use Rattle.scratch.specs.kept.Work.{HasGrownOrNot};
ghost use Rattle.rundiff.specs.kept.Changed.{AreChanged};
ghost use Rattle.rundiff.specs.Dirty.{rework_at, rework_below};
ghost use Rattle.rundiff.specs.kept.Fronts.{IsFront};
ghost use Rattle.resim.specs.kept.Changes.{has_changed};
ghost use Rattle.resim.specs.Reruns.{HasGrownInPart};
ghost use Rattle.resim.specs.kept.Reruns.{IsTouchedIfKnown, Reruns};

use crate::changed::Changed;
use crate::spending::{Limit, Spending};
use crate::through::run_through;
use crate::wide::is_wide;
use crate::widening::widen;
use design::Design;
use edits::Touched;
use gatestep::{Driver, StepFault, Stepper, Task};
use rundiff::{Blanks, Former, Front};
use std::alloc::{AllocError, Global};
use waveform::Run;

/// The run of the new design, which has the horizon of the old one, and the nets that it changed. Where what edits touched is not
/// known or too much, it goes through the whole design.
pub fn rerun_level<S: Stepper>(
    alloc: Global,
    old: &Design,
    run: &Run,
    new: &Design,
    touched: Option<&Touched>,
    changed: &mut Changed,
    stepper: &mut S,
) -> Result<Run, StepFault>
    requires run { IsRun S.answer old.now run.now }
    requires touched { IsTouchedIfKnown old.now new.now touched }
    requires horizon { (netlist new.now).horizon ≡ (netlist old.now).horizon }
    ensures reruns { Reruns S.answer old.now new.now (S.asked stepper.old) (S.asked stepper.new)
        (S.losses stepper.old) (S.losses stepper.new) result }
    ensures changed { OnOk result (AreChanged S.answer old.now new.now (has_changed changed.new)) }
{
    *changed = Changed::All;
    let blanks = Blanks::new(alloc)?;
    let former = Former {
        old,
        run,
        new,
        blanks: &blanks,
    };
    if let Some(touched) = touched {
        if !is_wide(alloc, old, run, new, touched)? {
            return follow_beside(alloc, &former, touched, Limit::Cost, changed, stepper);
        }
    }
    run_through(alloc, &former, stepper)
}

/// The run of the new design, which has the horizon of the old one: it goes from one moment at which something may differ to the
/// next, and once that has reached a limit it goes on through the whole design.
pub fn follow<S: Stepper>(
    alloc: Global,
    old: &Design,
    run: &Run,
    new: &Design,
    touched: &Touched,
    limit: Limit,
    stepper: &mut S,
) -> Result<Run, StepFault>
    requires run { IsRun S.answer old.now run.now }
    requires touched { IsTouched old.now new.now touched.now.nets.items touched.now.gates.items }
    requires horizon { (netlist new.now).horizon ≡ (netlist old.now).horizon }
    ensures reruns { Reruns S.answer old.now new.now (S.asked stepper.old) (S.asked stepper.new)
        (S.losses stepper.old) (S.losses stepper.new) result }
{
    let blanks = Blanks::new(alloc)?;
    let former = Former {
        old,
        run,
        new,
        blanks: &blanks,
    };
    let mut changed = Changed::All;
    follow_beside(alloc, &former, touched, limit, &mut changed, stepper)
}

/// As `follow`, and the nets that it changed: all, once it goes through the whole design.
fn follow_beside<S: Stepper>(
    alloc: Global,
    former: &Former,
    touched: &Touched,
    limit: Limit,
    changed: &mut Changed,
    stepper: &mut S,
) -> Result<Run, StepFault>
    requires run { IsRun S.answer former.now.old.now former.now.run.now }
    requires touched { IsTouched former.now.old.now former.now.new.now touched.now.nets.items touched.now.gates.items }
    requires horizon { (netlist former.now.new.now).horizon ≡ (netlist former.now.old.now).horizon }
    ensures reruns { Reruns S.answer former.now.old.now former.now.new.now (S.asked stepper.old) (S.asked stepper.new)
        (S.losses stepper.old) (S.losses stepper.new) result }
    ensures changed { OnOk result (AreChanged S.answer former.now.old.now former.now.new.now (has_changed changed.new)) }
{
    *changed = Changed::All;
    let mut front = open::<S>(alloc, former, touched)?;
    let next = follow_until(&mut front, alloc, former, limit, stepper)?;
    if next > former.new.horizon() {
        return Ok(finish::<S>(alloc, front, former, touched, changed)?);
    }
    widen(alloc, front, former, touched, next - 1, stepper)
}

/// The run of the new design and the nets that it changed, from a front at which all moments are done.
fn finish<S: Stepper>(
    alloc: Global,
    front: Front,
    former: &Former,
    touched: &Touched,
    changed: &mut Changed,
) -> Result<Run, AllocError>
    requires run { IsRun S.answer former.now.old.now former.now.run.now }
    requires touched { IsTouched former.now.old.now former.now.new.now touched.now.nets.items touched.now.gates.items }
    requires horizon { (netlist former.now.new.now).horizon ≡ (netlist former.now.old.now).horizon }
    requires front { IsFront S.answer (netlist former.now.old.now) (netlist former.now.new.now) front (suc (netlist former.now.new.now).horizon) }
    ensures run { IfOk result (λ made. IsRun S.answer former.now.new.now made) }
    ensures changed { OnOk result (AreChanged S.answer former.now.old.now former.now.new.now (has_changed changed.new)) }
{
    let keys = front.changed_nets::<S>(alloc, former, touched)?;
    let run = front.finish::<S>(alloc, former, touched)?;
    *changed = Changed::Nets(keys);
    Ok(run)
}

/// The front at the first moment at which something may differ. It fails where memory runs out.
fn open<S: Stepper>(alloc: Global, former: &Former, touched: &Touched) -> Result<Front, AllocError>
    requires { IsTouched former.now.old.now former.now.new.now touched.now.nets.items touched.now.gates.items }
    ensures front { IfOk result (λ front. IsFront S.answer (netlist former.now.old.now) (netlist former.now.new.now) front front.done) }
    ensures until { IfOk result (λ front. front.done ≤ suc (netlist former.now.old.now).horizon) }
    ensures idle { IfOk result (λ front. rework_below S.answer (netlist former.now.old.now) (netlist former.now.new.now) front.done ≡ []) }
{
    former.old.lawful();
    let mut front = Front::open(alloc, former, touched)?;
    front.leap::<S>(alloc, former, former.old.horizon() + 1)?;
    Ok(front)
}

/// Goes from one moment at which something may differ to the next, up to the horizon or until the limit is reached, and gives the
/// moment before which all is done. After a fault the front is to be dropped.
fn follow_until<S: Stepper>(
    front: &mut Front,
    alloc: Global,
    former: &Former,
    limit: Limit,
    stepper: &mut S,
) -> Result<u64, StepFault>
    requires run { IsRun S.answer former.now.old.now former.now.run.now }
    requires horizon { (netlist former.now.new.now).horizon ≡ (netlist former.now.old.now).horizon }
    requires front { IsFront S.answer (netlist former.now.old.now) (netlist former.now.new.now) front.old front.old.done }
    requires until { front.old.done ≤ suc (netlist former.now.old.now).horizon }
    requires idle { rework_below S.answer (netlist former.now.old.now) (netlist former.now.new.now) front.old.done ≡ [] }
    ensures front { IfOk result (IsFront S.answer (netlist former.now.old.now) (netlist former.now.new.now) front.new) }
    ensures begun { IfOk result (λ next. 0 < next) }
    ensures within { IfOk result (λ next. next ≤ suc (netlist former.now.new.now).horizon) }
    ensures asked { IfOk result (λ next. S.asked stepper.new ≡ S.asked stepper.old ++ rework_below S.answer (netlist former.now.old.now) (netlist former.now.new.now) next) }
    ensures part { OnErr result (HasGrownInPart S.answer (netlist former.now.old.now) (netlist former.now.new.now) (S.asked stepper.old) (S.asked stepper.new)) }
    ensures lost { CountsLoss (S.losses stepper.old) (S.losses stepper.new) result }
{
    former.new.lawful();
    let end = former.new.horizon() + 1;
    let mut answers = Vec::new(alloc);
    let mut spending = Spending::new(limit);
    let first = front.next_moment::<S>(former, end);
    let mut next = first;
    while next < end {
        let t = next;
        pass(front, alloc, former, stepper, t, &mut answers)?;
        next = front.next_moment::<S>(former, end);
        if spending.add(front, former.run, former.new, next.saturating_sub(t)) {
            return Ok(next);
        }
    }
    Ok(next)
}

/// Goes through the moment `t`, before which all is done, and past those behind it at which nothing differs; a step is made only
/// where a gate is evaluated. After a fault the front is to be dropped.
fn pass<S: Stepper>(
    front: &mut Front,
    alloc: Global,
    former: &Former,
    stepper: &mut S,
    t: u64,
    answers: &mut Vec<Driver>,
) -> Result<(), StepFault>
    requires run { IsRun S.answer former.now.old.now former.now.run.now }
    requires front { IsFront S.answer (netlist former.now.old.now) (netlist former.now.new.now) front.old t }
    requires within { t ≤ (netlist former.now.old.now).horizon }
    ensures front { OnOk result (IsFront S.answer (netlist former.now.old.now) (netlist former.now.new.now) front.new front.new.done) }
    ensures later { OnOk result (t < front.new.done) }
    ensures until { OnOk result (front.new.done ≤ suc (netlist former.now.old.now).horizon) }
    ensures idle { OnOk result (rework_below S.answer (netlist former.now.old.now) (netlist former.now.new.now) front.new.done ≡ rework_below S.answer (netlist former.now.old.now) (netlist former.now.new.now) (suc t)) }
    ensures asked { OnOk result (S.asked stepper.new ≡ S.asked stepper.old ++ rework_at S.answer (netlist former.now.old.now) (netlist former.now.new.now) t) }
    ensures part { OnErr result (HasGrownOrNot (S.asked stepper.old) (S.asked stepper.new) (rework_at S.answer (netlist former.now.old.now) (netlist former.now.new.now) t)) }
    ensures lost { CountsLoss (S.losses stepper.old) (S.losses stepper.new) result }
{
    former.old.lawful();
    front.due::<S>(alloc, former, t)?;
    step_some(stepper, front.tasks(), t, answers)?;
    front.settle::<S>(alloc, former, t, answers.as_slice())?;
    front.leap::<S>(alloc, former, former.old.horizon() + 1)?;
    Ok(())
}

/// The answers to some tasks; no step is made where there is none.
fn step_some<S: Stepper>(
    stepper: &mut S,
    tasks: &[Task],
    t: u64,
    answers: &mut Vec<Driver>,
) -> Result<(), StepFault>
    requires ready { All (IsReady t) tasks.now }
    requires within { t ≤ MAX_TIME }
    ensures answers { OnOk result (answers.new.items ≡ map (λ task. S.answer task t) tasks.now) }
    ensures asked { S.asked stepper.new ≡ S.asked stepper.old ++ at_moment t tasks.now }
    ensures lost { S.losses stepper.new ≡ S.losses stepper.old + (if is_lost result then 1 else 0) }
{
    answers.clear();
    if !tasks.is_empty() {
        stepper.step(tasks, t, answers)?;
    }
    Ok(())
}
