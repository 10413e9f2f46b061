//! The run of a design from the run of a former one.

ghost use Rattle.std.specs.Prelude.{◌≡◌, OnOk};
ghost use Rattle.design.specs.Keys.{netlist};
ghost use Rattle.edits.specs.kept.Touched.{IsTouched};
ghost use Rattle.scratch.specs.kept.Run.{IsRun};
ghost use Rattle.rundiff.specs.kept.Changed.{AreChanged};
ghost use Rattle.resim.specs.kept.Changes.{has_changed};
ghost use Rattle.resim.specs.kept.Reruns.{IsTouchedIfKnown, Reruns};

use crate::changed::Changed;
use crate::level::rerun_level;
use crate::other_horizon::{rerun_longer, rerun_shorter};
use design::Design;
use edits::Touched;
use gatestep::{StepFault, Stepper};
use std::alloc::Global;
use waveform::Run;

/// The run of the new design by this stepper, from the run of the old one: at each moment only gates that are dirty and stirred
/// are evaluated. It goes through the whole design, and the runs share nothing. `OutOfMemory` where an allocation was refused,
/// here or in a step; `WorkerLost` where a step answered so: then what was asked is a part of that.
pub fn rerun<S: Stepper>(
    alloc: Global,
    old: &Design,
    run: &Run,
    new: &Design,
    stepper: &mut S,
) -> Result<Run, StepFault>
    requires { IsRun S.answer old.now run.now }
    ensures reruns { Reruns S.answer old.now new.now (S.asked stepper.old) (S.asked stepper.new)
        (S.losses stepper.old) (S.losses stepper.new) result }
{
    rerun_with(alloc, old, run, new, None, stepper)
}

/// As `rerun`, where what edits touched is known. What is the same in both runs is shared, and the cost follows what differs, and
/// not the size of the design, unless that is most of it. Where the horizon is another, it goes through the whole design as well.
pub fn rerun_touched<S: Stepper>(
    alloc: Global,
    old: &Design,
    run: &Run,
    new: &Design,
    touched: &Touched,
    stepper: &mut S,
) -> Result<Run, StepFault>
    requires run { IsRun S.answer old.now run.now }
    requires touched { IsTouched old.now new.now touched.now.nets.items touched.now.gates.items }
    ensures reruns { Reruns S.answer old.now new.now (S.asked stepper.old) (S.asked stepper.new)
        (S.losses stepper.old) (S.losses stepper.new) result }
{
    rerun_with(alloc, old, run, new, Some(touched), stepper)
}

/// As `rerun_touched`; `changed` becomes the nets whose waves may have changed. Where the horizon is another, or it goes through the
/// whole design, these are all.
pub fn rerun_changed<S: Stepper>(
    alloc: Global,
    old: &Design,
    run: &Run,
    new: &Design,
    touched: &Touched,
    changed: &mut Changed,
    stepper: &mut S,
) -> Result<Run, StepFault>
    requires run { IsRun S.answer old.now run.now }
    requires touched { IsTouched old.now new.now touched.now.nets.items touched.now.gates.items }
    ensures reruns { Reruns S.answer old.now new.now (S.asked stepper.old) (S.asked stepper.new)
        (S.losses stepper.old) (S.losses stepper.new) result }
    ensures changed { OnOk result (AreChanged S.answer old.now new.now (has_changed changed.new)) }
{
    if new.horizon() == old.horizon() {
        return rerun_level(alloc, old, run, new, Some(touched), changed, stepper);
    }
    *changed = Changed::All;
    rerun_with(alloc, old, run, new, Some(touched), stepper)
}

/// The run of the new design, with what edits touched where that is known.
fn rerun_with<S: Stepper>(
    alloc: Global,
    old: &Design,
    run: &Run,
    new: &Design,
    touched: Option<&Touched>,
    stepper: &mut S,
) -> Result<Run, StepFault>
    requires run { IsRun S.answer old.now run.now }
    requires touched { IsTouchedIfKnown old.now new.now touched }
    ensures reruns { Reruns S.answer old.now new.now (S.asked stepper.old) (S.asked stepper.new)
        (S.losses stepper.old) (S.losses stepper.new) result }
{
    let from = old.horizon();
    let to = new.horizon();
    if to < from {
        rerun_shorter(alloc, old, run, new, touched, stepper)
    } else if to > from {
        rerun_longer(alloc, old, run, new, touched, stepper)
    } else {
        let mut changed = Changed::All;
        rerun_level(alloc, old, run, new, touched, &mut changed, stepper)
    }
}
