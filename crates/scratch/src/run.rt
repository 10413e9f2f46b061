//! The run of a design from scratch.

ghost use Rattle.std.specs.Prelude.{suc, IfOk, OnErr, OnOk};
ghost use Rattle.design.specs.Keys.{netlist};
ghost use Rattle.scratch.specs.kept.Kept.{IsWiring};
ghost use Rattle.scratch.specs.kept.Lost.{CountsLoss};
ghost use Rattle.scratch.specs.kept.Run.{IsRun};
ghost use Rattle.scratch.specs.Asked.{IsAskedInPart, IsAskedInSomeOrder};
ghost use Rattle.scratch.specs.Work.{work_below};
ghost use Rattle.scratch.specs.kept.Open.{all_below, open_work_at};

use crate::beside::{Beside, Nothing};
use crate::continuing::run_on;
use crate::engine::Engine;
use crate::wiring::{Wiring, wire};
use design::Design;
use gatestep::{StepFault, Stepper};
use std::alloc::Global;
use waveform::Run;

/// The run of the design by this stepper, from moment 0 to the horizon, both included: only changes are stored. It goes from
/// one moment at which something happens to the next, and there asks for the stirred gates alone; a step is made only where
/// there is one. `OutOfMemory` where an allocation was refused, here or in a step; `WorkerLost` where a step answered so: then
/// what was asked is a part of the work. In which order it is asked is open.
pub fn simulate<S: Stepper>(
    alloc: Global,
    design: &Design,
    stepper: &mut S,
) -> Result<Run, StepFault>
    ensures run { IfOk result (IsRun S.answer design.now) }
    ensures asked { OnOk result (IsAskedInSomeOrder (S.asked stepper.old) (S.asked stepper.new)
        (work_below S.answer (netlist design.now) (suc (netlist design.now).horizon))) }
    ensures part { OnErr result (IsAskedInPart (S.asked stepper.old) (S.asked stepper.new)
        (work_below S.answer (netlist design.now) (suc (netlist design.now).horizon))) }
    ensures lost { CountsLoss (S.losses stepper.old) (S.losses stepper.new) result }
{
    let wiring = wire(alloc, design)?;
    simulate_wired(alloc, design, &wiring, stepper)
}

/// The same where the connections of the design are at hand.
pub fn simulate_wired<S: Stepper>(
    alloc: Global,
    design: &Design,
    wiring: &Wiring,
    stepper: &mut S,
) -> Result<Run, StepFault>
    requires { IsWiring (netlist design.now) wiring.now }
    ensures run { IfOk result (IsRun S.answer design.now) }
    ensures asked { OnOk result (IsAskedInSomeOrder (S.asked stepper.old) (S.asked stepper.new)
        (work_below S.answer (netlist design.now) (suc (netlist design.now).horizon))) }
    ensures part { OnErr result (IsAskedInPart (S.asked stepper.old) (S.asked stepper.new)
        (work_below S.answer (netlist design.now) (suc (netlist design.now).horizon))) }
    ensures lost { CountsLoss (S.losses stepper.old) (S.losses stepper.new) result }
{
    simulate_beside(alloc, design, wiring, stepper, &mut Nothing)
}

/// The same beside what knows some answers: these are not asked for.
pub fn simulate_beside<S: Stepper, B: Beside>(
    alloc: Global,
    design: &Design,
    wiring: &Wiring,
    stepper: &mut S,
    beside: &mut B,
) -> Result<Run, StepFault>
    requires wired { IsWiring (netlist design.now) wiring.now }
    requires fits { B.fits S.answer (netlist design.now) beside.old }
    ensures run { IfOk result (IsRun S.answer design.now) }
    ensures asked { OnOk result (IsAskedInSomeOrder (S.asked stepper.old) (S.asked stepper.new)
        (all_below (open_work_at (B.is_open S.answer (netlist design.now) beside.old) S.answer (netlist design.now)) (suc (netlist design.now).horizon))) }
    ensures part { OnErr result (IsAskedInPart (S.asked stepper.old) (S.asked stepper.new)
        (all_below (open_work_at (B.is_open S.answer (netlist design.now) beside.old) S.answer (netlist design.now)) (suc (netlist design.now).horizon))) }
    ensures lost { CountsLoss (S.losses stepper.old) (S.losses stepper.new) result }
{
    let engine = Engine::open(alloc, design, wiring, stepper, beside)?;
    run_on(alloc, design, wiring, engine, 1, stepper, beside)
}
