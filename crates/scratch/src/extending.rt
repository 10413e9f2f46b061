//! The run of a design up to a later horizon.

ghost use Rattle.std.specs.Prelude.{◌≡◌, ◌≤◌, suc, IfOk, OnErr, OnOk};
ghost use Rattle.design.specs.Keys.{netlist};
ghost use Rattle.scratch.specs.kept.Kept.{IsWiring};
ghost use Rattle.scratch.specs.kept.Lost.{CountsLoss};
ghost use Rattle.scratch.specs.kept.Run.{IsRun};
ghost use Rattle.scratch.specs.kept.Stands.{Stands};
ghost use Rattle.scratch.specs.Asked.{IsAskedInPart, IsAskedInSomeOrder};
ghost use Rattle.scratch.specs.kept.Open.{all_from, open_work_at};
ghost use Rattle.scratch.specs.kept.Work.{work_from};

use crate::beside::{Beside, Nothing};
use crate::continuing::run_on;
use crate::engine::Engine;
use crate::resuming::resume;
use crate::wiring::Wiring;
use design::Design;
use gatestep::{StepFault, Stepper};
use std::alloc::{AllocError, Global};
use waveform::Run;

/// The run of a design from the run of the same design up to an earlier horizon, where the connections are at hand: only the
/// moments after that one are gone through, from one at which something happens to the next. `OutOfMemory` where an allocation
/// was refused, here or in a step; `WorkerLost` where a step answered so: then what was asked is a part of the work of these
/// moments.
pub fn extend<S: Stepper>(
    alloc: Global,
    former: &Design,
    run: &Run,
    design: &Design,
    wiring: &Wiring,
    stepper: &mut S,
) -> Result<Run, StepFault>
    requires wired { IsWiring (netlist design.now) wiring.now }
    requires same { former.now ≡ record design.now { horizon = former.now.horizon } }
    requires later { (netlist former.now).horizon ≤ (netlist design.now).horizon }
    requires run { IsRun S.answer former.now run.now }
    ensures run { IfOk result (IsRun S.answer design.now) }
    ensures asked { OnOk result (IsAskedInSomeOrder (S.asked stepper.old) (S.asked stepper.new)
        (work_from S.answer (netlist design.now) (suc (netlist former.now).horizon) (suc (netlist design.now).horizon))) }
    ensures part { OnErr result (IsAskedInPart (S.asked stepper.old) (S.asked stepper.new)
        (work_from S.answer (netlist design.now) (suc (netlist former.now).horizon) (suc (netlist design.now).horizon))) }
    ensures lost { CountsLoss (S.losses stepper.old) (S.losses stepper.new) result }
{
    extend_beside(alloc, former, run, design, wiring, stepper, &mut Nothing)
}

/// The same beside what knows some answers: these are not asked for.
pub fn extend_beside<S: Stepper, B: Beside>(
    alloc: Global,
    former: &Design,
    run: &Run,
    design: &Design,
    wiring: &Wiring,
    stepper: &mut S,
    beside: &mut B,
) -> Result<Run, StepFault>
    requires wired { IsWiring (netlist design.now) wiring.now }
    requires same { former.now ≡ record design.now { horizon = former.now.horizon } }
    requires later { (netlist former.now).horizon ≤ (netlist design.now).horizon }
    requires run { IsRun S.answer former.now run.now }
    requires fits { B.fits S.answer (netlist design.now) beside.old }
    ensures run { IfOk result (IsRun S.answer design.now) }
    ensures asked { OnOk result (IsAskedInSomeOrder (S.asked stepper.old) (S.asked stepper.new)
        (all_from (open_work_at (B.is_open S.answer (netlist design.now) beside.old) S.answer (netlist design.now)) (suc (netlist former.now).horizon) (suc (netlist design.now).horizon))) }
    ensures part { OnErr result (IsAskedInPart (S.asked stepper.old) (S.asked stepper.new)
        (all_from (open_work_at (B.is_open S.answer (netlist design.now) beside.old) S.answer (netlist design.now)) (suc (netlist former.now).horizon) (suc (netlist design.now).horizon))) }
    ensures lost { CountsLoss (S.losses stepper.old) (S.losses stepper.new) result }
{
    let engine = resume_later::<S>(alloc, former, run, design, wiring)?;
    let start = former.horizon() + 1;
    run_on(alloc, design, wiring, engine, start, stepper, beside)
}

/// What stands after the last moment of the run of a design, for the same design with another horizon. It shares nothing with
/// the run.
fn resume_later<S: Stepper>(
    alloc: Global,
    former: &Design,
    run: &Run,
    design: &Design,
    wiring: &Wiring,
) -> Result<Engine, AllocError>
    requires same { former.now ≡ record design.now { horizon = former.now.horizon } }
    requires run { IsRun S.answer former.now run.now }
    requires wired { IsWiring (netlist design.now) wiring.now }
    ensures { IfOk result (λ engine. Stands S.answer (netlist design.now) engine (suc (netlist former.now).horizon)) }
{
    let engine = resume::<S>(alloc, former, wiring, run)?;
    Ok(engine)
}
