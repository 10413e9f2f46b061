//! The run of a design beside a former one through all of it: gate after gate where its gates stand in an order, else moment after
//! moment.

ghost use Rattle.std.specs.Prelude.{◌≡◌, ◌<◌, ◌++◌, ℕ, true, suc, List, IfOk, IfSome};
ghost use Rattle.gatestep.specs.Step.{Evaluation};
ghost use Rattle.design.specs.Keys.{netlist};
ghost use Rattle.scratch.specs.kept.Kept.{IsWiring};
ghost use Rattle.scratch.specs.kept.Run.{IsRun};
ghost use Rattle.ordering.specs.kept.Earlier.{IsEarlier, begin_after};
ghost use Rattle.ordering.specs.kept.Order.{is_order};
ghost use Rattle.rundiff.specs.Dirty.{rework_below};
ghost use Rattle.resim.specs.kept.Reruns.{Reruns};

use crate::sweep::{sweep, sweep_after};
use design::Design;
use gatestep::{StepFault, Stepper};
use ordering::{EarlierRun, find_order, run_beside};
use rundiff::Former;
use scratch::{Wiring, wire};
use std::alloc::{AllocError, Global};
use waveform::Run;

/// The run of the new design, which has the horizon of the old one. Nothing of it is shared with the old run.
pub fn run_through<S: Stepper>(
    alloc: Global,
    former: &Former,
    stepper: &mut S,
) -> Result<Run, StepFault>
    requires run { IsRun S.answer former.now.old.now former.now.run.now }
    requires horizon { (netlist former.now.new.now).horizon ≡ (netlist former.now.old.now).horizon }
    ensures reruns { Reruns S.answer former.now.old.now former.now.new.now (S.asked stepper.old) (S.asked stepper.new)
        (S.losses stepper.old) (S.losses stepper.new) result }
{
    let wiring = wire(alloc, former.new)?;
    match order_for(alloc, former.new, &wiring, stepper)? {
        None => sweep(alloc, former, &wiring, stepper),
        Some(order) => {
            let order = order.as_slice();
            go_by_gates(alloc, former, &wiring, order, None, stepper)
        }
    }
}

/// The run of the new design, of which the run up to an earlier horizon was made: `level` is the new design with that horizon.
pub fn run_on<S: Stepper>(
    alloc: Global,
    former: &Former,
    level: &Design,
    made: &Run,
    stepper: &mut S,
) -> Result<Run, StepFault>
    requires run { IsRun S.answer former.now.old.now former.now.run.now }
    requires horizon { (netlist former.now.new.now).horizon ≡ (netlist former.now.old.now).horizon }
    requires level { level.now ≡ record former.now.new.now { horizon = level.now.horizon } }
    requires earlier { (netlist level.now).horizon < (netlist former.now.new.now).horizon }
    requires made { IsRun S.answer level.now made.now }
    ensures reruns { (was : List (Evaluation × ℕ)) →
        S.asked stepper.old ≡ was ++ rework_below S.answer (netlist former.now.old.now) (netlist former.now.new.now) (suc (netlist level.now).horizon) →
        Reruns S.answer former.now.old.now former.now.new.now was (S.asked stepper.new) (S.losses stepper.old) (S.losses stepper.new) result }
{
    let wiring = wire(alloc, former.new)?;
    match order_for(alloc, former.new, &wiring, stepper)? {
        None => sweep_after(alloc, former, level, made, &wiring, stepper),
        Some(order) => {
            let earlier = EarlierRun {
                design: level,
                run: made,
            };
            let order = order.as_slice();
            go_by_gates(alloc, former, &wiring, order, Some(earlier), stepper)
        }
    }
}

/// An order of the gates in which each comes after all that drive what it reads, where one is found and the stepper deals no task to
/// others.
fn order_for<S: Stepper>(
    alloc: Global,
    design: &Design,
    wiring: &Wiring,
    stepper: &S,
) -> Result<Option<Vec<u32>>, AllocError>
    requires { IsWiring (netlist design.now) wiring.now }
    ensures order { IfOk result (λ found. IfSome found (λ order. is_order (netlist design.now) order.items ≡ true)) }
    ensures none_lost { IfOk result (λ found. IfSome found (λ order. S.losses stepper.now ≡ 0)) }
{
    if stepper.deals(1) {
        return Ok(None);
    }
    find_order(alloc, design, wiring)
}

/// The run of the new design gate after gate in this order, from moment 0 on or from the end of an earlier run of it.
fn go_by_gates<S: Stepper>(
    alloc: Global,
    former: &Former,
    wiring: &Wiring,
    order: &[u32],
    earlier: Option<EarlierRun>,
    stepper: &mut S,
) -> Result<Run, StepFault>
    requires none_lost { S.losses stepper.old ≡ 0 }
    requires wired { IsWiring (netlist former.now.new.now) wiring.now }
    requires order { is_order (netlist former.now.new.now) order.now ≡ true }
    requires earlier { IfSome earlier (IsEarlier S.answer former.now.new.now) }
    requires run { IsRun S.answer former.now.old.now former.now.run.now }
    requires horizon { (netlist former.now.new.now).horizon ≡ (netlist former.now.old.now).horizon }
    ensures reruns { (was : List (Evaluation × ℕ)) →
        S.asked stepper.old ≡ was ++ rework_below S.answer (netlist former.now.old.now) (netlist former.now.new.now) (begin_after earlier.entry) →
        Reruns S.answer former.now.old.now former.now.new.now was (S.asked stepper.new) (S.losses stepper.old) (S.losses stepper.new) result }
{
    Ok(run_beside(alloc, former, wiring, order, earlier, stepper)?)
}
