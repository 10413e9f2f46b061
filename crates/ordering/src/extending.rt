//! The run of a design up to a later horizon, gate after gate where its gates stand in an order.

ghost use Rattle.std.specs.Prelude.{◌≡◌, ◌≤◌, true, suc, IfOk, OnErr, OnOk};
ghost use Rattle.design.specs.Keys.{netlist};
ghost use Rattle.scratch.specs.Asked.{IsAskedInPart, IsAskedInSomeOrder};
ghost use Rattle.scratch.specs.kept.Kept.{IsWiring};
ghost use Rattle.scratch.specs.kept.Lost.{CountsLoss};
ghost use Rattle.scratch.specs.kept.Run.{IsRun};
ghost use Rattle.scratch.specs.kept.Work.{work_from};
ghost use Rattle.ordering.specs.kept.Earlier.{IsEarlier};
ghost use Rattle.ordering.specs.kept.Order.{is_order};

use crate::earlier::EarlierRun;
use crate::finding::find_order;
use crate::following::Begin;
use crate::in_order::run_in_order;
use design::Design;
use gatestep::{StepFault, Stepper};
use scratch::{Wiring, wire};
use std::alloc::Global;
use waveform::Run;

/// The run of a design from the run of the same design up to an earlier horizon: only the moments after that one are gone
/// through. Where an order is found in which each gate comes after all that drive what it reads, there are as many of them as
/// before or more, and no task is dealt to others, one gate after another is followed on over all of them (own); else the run
/// goes from one moment to the next. Each gate is asked at those of the moments at which it is stirred, once, and at no others;
/// in which order is not said. `OutOfMemory` where an allocation was refused, here or in a step; `WorkerLost` where a step
/// answered so: then what was asked is a part of that.
pub fn extend<S: Stepper>(
    alloc: Global,
    former: &Design,
    run: &Run,
    design: &Design,
    stepper: &mut S,
) -> Result<Run, StepFault>
    requires same { former.now ≡ record design.now { horizon = former.now.horizon } }
    requires later { (netlist former.now).horizon ≤ (netlist design.now).horizon }
    requires run { IsRun S.answer former.now run.now }
    ensures run { IfOk result (IsRun S.answer design.now) }
    ensures asked { OnOk result (IsAskedInSomeOrder (S.asked stepper.old) (S.asked stepper.new)
        (work_from S.answer (netlist design.now) (suc (netlist former.now).horizon) (suc (netlist design.now).horizon))) }
    ensures part { OnErr result (IsAskedInPart (S.asked stepper.old) (S.asked stepper.new)
        (work_from S.answer (netlist design.now) (suc (netlist former.now).horizon) (suc (netlist design.now).horizon))) }
    ensures lost { CountsLoss (S.losses stepper.old) (S.losses stepper.new) result }
{
    let wiring = wire(alloc, design)?;
    if stepper.deals(1) || !goes_far(former, design) {
        return scratch::extend(alloc, former, run, design, &wiring, stepper);
    }
    match find_order(alloc, design, &wiring)? {
        None => scratch::extend(alloc, former, run, design, &wiring, stepper),
        Some(order) => {
            let earlier = EarlierRun {
                design: former,
                run,
            };
            extend_by_gates(alloc, earlier, design, &wiring, order.as_slice(), stepper)
        }
    }
}

/// As many moments come as were before, or more (own). Gate after gate each wave is found anew from moment 0 on, so a horizon
/// that moves by small steps would cost the square of their number.
fn goes_far(former: &Design, design: &Design) -> bool {
    former.horizon() <= design.horizon() / 2
}

/// The run of the design from an earlier one, gate after gate in this order.
fn extend_by_gates<S: Stepper>(
    alloc: Global,
    earlier: EarlierRun,
    design: &Design,
    wiring: &Wiring,
    order: &[u32],
    stepper: &mut S,
) -> Result<Run, StepFault>
    requires none_lost { S.losses stepper.old ≡ 0 }
    requires wired { IsWiring (netlist design.now) wiring.now }
    requires order { is_order (netlist design.now) order.now ≡ true }
    requires earlier { IsEarlier S.answer design.now earlier }
    ensures run { IfOk result (IsRun S.answer design.now) }
    ensures asked { OnOk result (IsAskedInSomeOrder (S.asked stepper.old) (S.asked stepper.new)
        (work_from S.answer (netlist design.now) (suc (netlist earlier.entry.design.now).horizon) (suc (netlist design.now).horizon))) }
    ensures part { OnErr result (IsAskedInPart (S.asked stepper.old) (S.asked stepper.new)
        (work_from S.answer (netlist design.now) (suc (netlist earlier.entry.design.now).horizon) (suc (netlist design.now).horizon))) }
    ensures lost { CountsLoss (S.losses stepper.old) (S.losses stepper.new) result }
{
    let begin = Begin {
        earlier: Some(earlier),
        old: None,
        ahead: None,
    };
    Ok(run_in_order(alloc, design, wiring, begin, order, stepper)?)
}
