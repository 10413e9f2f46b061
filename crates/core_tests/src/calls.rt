//! Calls with long contracts, each in a helper of its own that says what its callers need and no more: a proof carries all
//! that a call promises.

ghost use Rattle.std.specs.Prelude.{IfSome};
ghost use Rattle.edits.specs.kept.Touched.{IsTouched};
ghost use Rattle.gatestep.specs.Step.{advance};
ghost use Rattle.scratch.specs.kept.Run.{IsRun};

use crate::counting::Counting;
use design::Design;
use edits::{Edit, Touched, apply_all_with_touched};
use gatestep::Stepper;
use resim::{Limit, follow, rerun_touched};
use scratch::simulate;
use std::alloc::Global;
use std::process::Abort;
use waveform::Run;

/// The design with edits and what they touch; none where an edit is refused.
pub fn changed(alloc: Global, design: &Design, edits: &[Edit]) -> Option<(Design, Touched)>
    ensures { IfSome result (λ made. IsTouched design.now made.0 made.1.nets.items made.1.gates.items) }
{
    match apply_all_with_touched(alloc, design, edits) {
        Ok(made) => Some(made),
        Err(_) => None,
    }
}

/// The run of a design.
pub fn simulated<S: Stepper>(
    rt: &impl Abort,
    alloc: Global,
    design: &Design,
    stepper: &mut S,
) -> Run
    ensures { IsRun S.answer design.now result }
{
    simulate(alloc, design, stepper).expect(rt, "a run")
}

/// The run of a design, gate after gate where none lies on a loop.
pub fn simulated_in_order<S: Stepper>(
    rt: &impl Abort,
    alloc: Global,
    design: &Design,
    stepper: &mut S,
) -> Run
    ensures { IsRun S.answer design.now result }
{
    ordering::simulate(alloc, design, stepper).expect(rt, "a run")
}

/// The run of a design from that of a former one.
pub fn rerun(
    rt: &impl Abort,
    alloc: Global,
    old: &Design,
    run: &Run,
    new: &Design,
    touched: &Touched,
    stepper: &mut Counting,
) -> Run
    requires run { IsRun advance old.now run.now }
    requires touched { IsTouched old.now new.now touched.now.nets.items touched.now.gates.items }
    ensures { IsRun advance new.now result }
{
    rerun_touched(alloc, old, run, new, touched, stepper).expect(rt, "a run")
}

/// The same for a run that follows what differs up to a limit, where both designs have the same horizon.
pub fn followed(
    rt: &impl Abort,
    alloc: Global,
    old: &Design,
    run: &Run,
    new: &Design,
    touched: &Touched,
    limit: Limit,
    stepper: &mut Counting,
) -> Run
    requires run { IsRun advance old.now run.now }
    requires touched { IsTouched old.now new.now touched.now.nets.items touched.now.gates.items }
    ensures { IsRun advance new.now result }
{
    assert!(rt; new.horizon() == old.horizon());
    follow(alloc, old, run, new, touched, limit, stepper).expect(rt, "a run")
}
