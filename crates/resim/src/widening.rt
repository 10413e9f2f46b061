//! The change of way in the middle of a run: what followed what differs goes on through the whole design.

ghost use Rattle.std.specs.Prelude.{◌≡◌, ◌<◌, ◌≤◌, ◌++◌, ℕ, suc, List, IfOk};
ghost use Rattle.gatestep.specs.Step.{Evaluation};
ghost use Rattle.design.specs.Keys.{netlist};
ghost use Rattle.edits.specs.kept.Touched.{IsTouched};
ghost use Rattle.scratch.specs.kept.Run.{IsRun};
ghost use Rattle.rundiff.specs.Dirty.{rework_below};
ghost use Rattle.rundiff.specs.kept.Fronts.{IsFront};
ghost use Rattle.resim.specs.kept.Reruns.{Reruns};

use crate::cut::shorten;
use crate::other_horizon::with_horizon;
use crate::through::run_on;
use design::Design;
use edits::Touched;
use gatestep::{StepFault, Stepper};
use rundiff::{Former, Front};
use std::alloc::{AllocError, Global};
use waveform::Run;

/// The run of the new design, from a front at which all moments up to `last` are done, in time units.
pub fn widen<S: Stepper>(
    alloc: Global,
    front: Front,
    former: &Former,
    touched: &Touched,
    last: u64,
    stepper: &mut S,
) -> Result<Run, StepFault>
    requires run { IsRun S.answer former.now.old.now former.now.run.now }
    requires touched { IsTouched former.now.old.now former.now.new.now touched.now.nets.items touched.now.gates.items }
    requires horizon { (netlist former.now.new.now).horizon ≡ (netlist former.now.old.now).horizon }
    requires front { IsFront S.answer (netlist former.now.old.now) (netlist former.now.new.now) front (suc last) }
    requires within { last < (netlist former.now.new.now).horizon }
    ensures reruns { (was : List (Evaluation × ℕ)) →
        S.asked stepper.old ≡ was ++ rework_below S.answer (netlist former.now.old.now) (netlist former.now.new.now) (suc last) →
        Reruns S.answer former.now.old.now former.now.new.now was (S.asked stepper.new) (S.losses stepper.old) (S.losses stepper.new) result }
{
    former.new.lawful();
    let level = with_horizon(former.new, last)?;
    let made = run_until::<S>(alloc, front, former, &level, touched, last)?;
    run_on(alloc, former, &level, &made, stepper)
}

/// The run of the new design up to the moment `last`, at which its horizon is, from a front at which all moments up to it are done.
fn run_until<S: Stepper>(
    alloc: Global,
    front: Front,
    former: &Former,
    level: &Design,
    touched: &Touched,
    last: u64,
) -> Result<Run, AllocError>
    requires run { IsRun S.answer former.now.old.now former.now.run.now }
    requires touched { IsTouched former.now.old.now level.now touched.now.nets.items touched.now.gates.items }
    requires front { IsFront S.answer (netlist former.now.old.now) (netlist level.now) front (suc last) }
    requires horizon { (netlist level.now).horizon ≡ last }
    requires within { last < (netlist former.now.old.now).horizon }
    ensures { IfOk result (IsRun S.answer level.now) }
{
    former.old.lawful();
    let run = shorten(alloc, former.old, former.run, last)?;
    let old = with_horizon(former.old, last)?;
    let short = Former {
        old: &old,
        run: &run,
        new: level,
        blanks: former.blanks,
    };
    front.finish::<S>(alloc, &short, touched)
}
