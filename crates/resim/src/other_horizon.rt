//! The run of a design from the run of a former one with another horizon.

ghost use Rattle.std.specs.Prelude.{◌≡◌, ◌≤◌, IfOk};
ghost use Rattle.fourstate.specs.declared.limits.TheConstants.{MAX_TIME};
ghost use Rattle.design.specs.Keys.{netlist};
ghost use Rattle.scratch.specs.kept.Run.{IsRun};
ghost use Rattle.resim.specs.kept.Reruns.{IsTouchedIfKnown, Reruns};

use crate::changed::Changed;
use crate::cut::shorten;
use crate::level::rerun_level;
use design::Design;
use edits::Touched;
use gatestep::{StepFault, Stepper};
use ordering::extend;
use std::alloc::{AllocError, Global};
use waveform::Run;

/// The run of the new design, whose horizon is an earlier one: the old run is cut first.
pub fn rerun_shorter<S: Stepper>(
    alloc: Global,
    old: &Design,
    run: &Run,
    new: &Design,
    touched: Option<&Touched>,
    stepper: &mut S,
) -> Result<Run, StepFault>
    requires run { IsRun S.answer old.now run.now }
    requires touched { IsTouchedIfKnown old.now new.now touched }
    requires horizon { (netlist new.now).horizon ≤ (netlist old.now).horizon }
    ensures reruns { Reruns S.answer old.now new.now (S.asked stepper.old) (S.asked stepper.new)
        (S.losses stepper.old) (S.losses stepper.new) result }
{
    new.lawful();
    let short = shorten(alloc, old, run, new.horizon())?;
    let former = with_horizon(old, new.horizon())?;
    let mut changed = Changed::All;
    rerun_level(alloc, &former, &short, new, touched, &mut changed, stepper)
}

/// The run of the new design, whose horizon is a later one: past the old horizon each gate that is stirred is evaluated.
pub fn rerun_longer<S: Stepper>(
    alloc: Global,
    old: &Design,
    run: &Run,
    new: &Design,
    touched: Option<&Touched>,
    stepper: &mut S,
) -> Result<Run, StepFault>
    requires run { IsRun S.answer old.now run.now }
    requires touched { IsTouchedIfKnown old.now new.now touched }
    requires horizon { (netlist old.now).horizon ≤ (netlist new.now).horizon }
    ensures reruns { Reruns S.answer old.now new.now (S.asked stepper.old) (S.asked stepper.new)
        (S.losses stepper.old) (S.losses stepper.new) result }
{
    old.lawful();
    let level = with_horizon(new, old.horizon())?;
    rerun_past(alloc, old, run, &level, new, touched, stepper)
}

/// As `rerun_longer`, by the new design with the old horizon.
fn rerun_past<S: Stepper>(
    alloc: Global,
    old: &Design,
    run: &Run,
    level: &Design,
    new: &Design,
    touched: Option<&Touched>,
    stepper: &mut S,
) -> Result<Run, StepFault>
    requires run { IsRun S.answer old.now run.now }
    requires level { level.now ≡ record new.now { horizon = (netlist old.now).horizon } }
    requires touched { IsTouchedIfKnown old.now new.now touched }
    requires horizon { (netlist old.now).horizon ≤ (netlist new.now).horizon }
    ensures reruns { Reruns S.answer old.now new.now (S.asked stepper.old) (S.asked stepper.new)
        (S.losses stepper.old) (S.losses stepper.new) result }
{
    let mut changed = Changed::All;
    let made = rerun_level(alloc, old, run, level, touched, &mut changed, stepper)?;
    extend(alloc, level, &made, new, stepper)
}

/// The same design, up to another horizon.
pub fn with_horizon(design: &Design, horizon: u64) -> Result<Design, AllocError>
    requires { horizon ≤ MAX_TIME }
    ensures { IfOk result (λ made. made ≡ record design.now { horizon = horizon }) }
{
    Ok(design.try_clone()?.set_horizon(horizon))
}
