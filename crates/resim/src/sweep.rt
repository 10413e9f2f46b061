//! The run of a design beside a former one, moment by moment as from scratch: where most of the design differs, this is less
//! work than to look for what does.

ghost use Rattle.std.specs.Prelude.{◌≡◌, ◌<◌, ◌++◌, ℕ, suc, List};
ghost use Rattle.gatestep.specs.Step.{Evaluation};
ghost use Rattle.design.specs.Keys.{netlist};
ghost use Rattle.scratch.specs.kept.Kept.{IsWiring};
ghost use Rattle.scratch.specs.kept.Run.{IsRun};
ghost use Rattle.rundiff.specs.Dirty.{rework_below};
ghost use Rattle.resim.specs.kept.Reruns.{Reruns};

use design::Design;
use gatestep::{StepFault, Stepper};
use rundiff::{Former, OldLines};
use scratch::{Wiring, extend_beside, simulate_beside};
use std::alloc::Global;
use waveform::Run;

/// The run of the new design. Nothing of it is shared with the old run.
pub fn sweep<S: Stepper>(
    alloc: Global,
    former: &Former,
    wiring: &Wiring,
    stepper: &mut S,
) -> Result<Run, StepFault>
    requires run { IsRun S.answer former.now.old.now former.now.run.now }
    requires wired { IsWiring (netlist former.now.new.now) wiring.now }
    ensures reruns { Reruns S.answer former.now.old.now former.now.new.now (S.asked stepper.old) (S.asked stepper.new)
        (S.losses stepper.old) (S.losses stepper.new) result }
{
    let mut lines = OldLines::find::<S>(alloc, former)?;
    simulate_beside(alloc, former.new, wiring, stepper, &mut lines)
}

/// The run of the new design, of which the run up to an earlier horizon was made: `level` is the new design with that horizon.
pub fn sweep_after<S: Stepper>(
    alloc: Global,
    former: &Former,
    level: &Design,
    made: &Run,
    wiring: &Wiring,
    stepper: &mut S,
) -> Result<Run, StepFault>
    requires run { IsRun S.answer former.now.old.now former.now.run.now }
    requires wired { IsWiring (netlist former.now.new.now) wiring.now }
    requires level { level.now ≡ record former.now.new.now { horizon = level.now.horizon } }
    requires earlier { (netlist level.now).horizon < (netlist former.now.new.now).horizon }
    requires made { IsRun S.answer level.now made.now }
    ensures reruns { (was : List (Evaluation × ℕ)) →
        S.asked stepper.old ≡ was ++ rework_below S.answer (netlist former.now.old.now) (netlist former.now.new.now) (suc (netlist level.now).horizon) →
        Reruns S.answer former.now.old.now former.now.new.now was (S.asked stepper.new) (S.losses stepper.old) (S.losses stepper.new) result }
{
    let mut lines = OldLines::find::<S>(alloc, former)?;
    extend_beside(alloc, level, made, former.new, wiring, stepper, &mut lines)
}
