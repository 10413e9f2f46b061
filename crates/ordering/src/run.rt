//! The run of a design from scratch, gate after gate where its gates stand in an order.

ghost use Rattle.std.specs.Prelude.{◌≡◌, true, suc, IfOk, OnErr, OnOk};
ghost use Rattle.design.specs.Keys.{netlist};
ghost use Rattle.scratch.specs.Asked.{IsAskedInPart, IsAskedInSomeOrder};
ghost use Rattle.scratch.specs.Work.{work_below};
ghost use Rattle.scratch.specs.kept.Kept.{IsWiring};
ghost use Rattle.scratch.specs.kept.Lost.{CountsLoss};
ghost use Rattle.scratch.specs.kept.Run.{IsRun};
ghost use Rattle.ordering.specs.kept.Order.{is_order};

use crate::finding::find_order;
use crate::following::Begin;
use crate::in_order::run_in_order;
use design::Design;
use gatestep::{StepFault, Stepper};
use scratch::{Wiring, simulate_wired, wire};
use std::alloc::Global;
use waveform::Run;

/// The run of the design by this stepper, from moment 0 to the horizon, both included: only changes are stored. Where an order
/// is found in which each gate comes after all that drive what it reads, there are moments after 0, and no task is dealt to
/// others, one gate after another is followed over all of time (own); else the run goes from one moment to the next. Each gate
/// is asked at the moments at which it is stirred, once, and at no others; in which order is not said. `OutOfMemory` where an
/// allocation was refused, here or in a step; `WorkerLost` where a step answered so: then what was asked is a part of that.
pub fn simulate<S: Stepper>(
    alloc: Global,
    design: &Design,
    stepper: &mut S,
) -> Result<Run, StepFault>
    ensures run { IfOk result (IsRun S.answer design.now) }
    ensures asked { OnOk result (IsAskedInSomeOrder (S.asked stepper.old) (S.asked stepper.new)
        (work_below S.answer (netlist design.now) (suc (netlist design.now).horizon))) }
    ensures part { OnErr result (IsAskedInPart (S.asked stepper.old) (S.asked stepper.new)
        (work_below S.answer (netlist design.now) (suc (netlist design.now).horizon))) }
    ensures lost { CountsLoss (S.losses stepper.old) (S.losses stepper.new) result }
{
    let wiring = wire(alloc, design)?;
    if stepper.deals(1) || design.horizon() == 0 {
        return simulate_wired(alloc, design, &wiring, stepper);
    }
    match find_order(alloc, design, &wiring)? {
        None => simulate_wired(alloc, design, &wiring, stepper),
        Some(order) => simulate_by_gates(alloc, design, &wiring, order.as_slice(), stepper),
    }
}

/// The run of the design, gate after gate in this order.
fn simulate_by_gates<S: Stepper>(
    alloc: Global,
    design: &Design,
    wiring: &Wiring,
    order: &[u32],
    stepper: &mut S,
) -> Result<Run, StepFault>
    requires none_lost { S.losses stepper.old ≡ 0 }
    requires wired { IsWiring (netlist design.now) wiring.now }
    requires order { is_order (netlist design.now) order.now ≡ true }
    ensures run { IfOk result (IsRun S.answer design.now) }
    ensures asked { OnOk result (IsAskedInSomeOrder (S.asked stepper.old) (S.asked stepper.new)
        (work_below S.answer (netlist design.now) (suc (netlist design.now).horizon))) }
    ensures part { OnErr result (IsAskedInPart (S.asked stepper.old) (S.asked stepper.new)
        (work_below S.answer (netlist design.now) (suc (netlist design.now).horizon))) }
    ensures lost { CountsLoss (S.losses stepper.old) (S.losses stepper.new) result }
{
    let begin = Begin {
        earlier: None,
        old: None,
        ahead: None,
    };
    Ok(run_in_order(alloc, design, wiring, begin, order, stepper)?)
}
