//! A run that goes on from what stands up to the horizon.

ghost use Rattle.std.specs.Prelude.{◌≤◌, suc, IfOk, OnErr, OnOk};
ghost use Rattle.design.specs.Keys.{netlist};
ghost use Rattle.scratch.specs.kept.Kept.{IsWiring};
ghost use Rattle.scratch.specs.kept.Lost.{CountsLoss};
ghost use Rattle.scratch.specs.kept.Run.{IsRun};
ghost use Rattle.scratch.specs.kept.Stands.{Stands};
ghost use Rattle.scratch.specs.Asked.{IsAskedInPart, IsAskedInSomeOrder};
ghost use Rattle.scratch.specs.kept.Open.{all_from, open_work_at};

use crate::beside::Beside;
use crate::engine::Engine;
use crate::wiring::Wiring;
use design::Design;
use gatestep::{StepFault, Stepper};
use std::alloc::Global;
use waveform::Run;

/// The run of the design by an engine of which the moments below `start` are done. It goes from one moment at which something
/// happens to the next, and there asks for the stirred gates alone, in any order; a step is made only where there is one. After a
/// fault what was asked is a part of the work.
pub fn run_on<S: Stepper, B: Beside>(
    alloc: Global,
    design: &Design,
    wiring: &Wiring,
    engine: Engine,
    start: u64,
    stepper: &mut S,
    beside: &mut B,
) -> Result<Run, StepFault>
    requires wired { IsWiring (netlist design.now) wiring.now }
    requires stands { Stands S.answer (netlist design.now) engine start }
    requires within { start ≤ suc (netlist design.now).horizon }
    requires fits { B.fits S.answer (netlist design.now) beside.old }
    ensures run { IfOk result (IsRun S.answer design.now) }
    ensures asked { OnOk result (IsAskedInSomeOrder (S.asked stepper.old) (S.asked stepper.new)
        (all_from (open_work_at (B.is_open S.answer (netlist design.now) beside.old) S.answer (netlist design.now)) start (suc (netlist design.now).horizon))) }
    ensures part { OnErr result (IsAskedInPart (S.asked stepper.old) (S.asked stepper.new)
        (all_from (open_work_at (B.is_open S.answer (netlist design.now) beside.old) S.answer (netlist design.now)) start (suc (netlist design.now).horizon))) }
    ensures lost { CountsLoss (S.losses stepper.old) (S.losses stepper.new) result }
{
    let horizon = design.horizon();
    let mut engine = engine;
    let mut t = engine.advance::<S>(design, start);
    while t <= horizon {
        engine.pass(alloc, design, wiring, stepper, beside, t)?;
        t = engine.advance::<S>(design, t + 1);
    }
    Ok(engine.finish::<S>(alloc, design, wiring)?)
}
