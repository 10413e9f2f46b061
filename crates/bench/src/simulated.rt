//! A design with its run.

ghost use Rattle.std.specs.Prelude.{◌≡◌, ◌+◌, IfOk, OnErr, OnOk, if◌then◌else◌};
ghost use Rattle.std.specs.Arc.{arc_value};
ghost use Rattle.gatestep.specs.Step.{advance};
ghost use Rattle.design.specs.Keys.{netlist};
ghost use Rattle.edits.specs.kept.Touched.{IsTouched};
ghost use Rattle.scratch.specs.kept.Lost as lost;
ghost use Rattle.scratch.specs.Asked.{IsAskedInSomeOrder};
ghost use Rattle.scratch.specs.kept.Run.{IsRun};
ghost use Rattle.rundiff.specs.kept.Changed.{AreChanged};
ghost use Rattle.resim.specs.kept.Changes.{has_changed};
ghost use Rattle.resim.specs.Reruns.{HasGrownInPart};
ghost use Rattle.bench.specs.Work.{AskedByAccepted, work_of};

use design::Design;
use edits::Touched;
use gatestep::{StepFault, Stepper};
use ordering::simulate;
use resim::{Changed, rerun_changed};
use std::alloc::{AllocError, Global};
use std::sync::Arc;
use waveform::Run;

/// A design with its run.
#[derive(Drop)]
pub struct Simulated {
    /// The design.
    pub design: Design,
    /// Its run.
    pub run: Run,
}

impl Simulated {
    /// The design with its run, which the stepper makes here.
    pub fn open<S: Stepper>(
        alloc: Global,
        design: Design,
        stepper: &mut S,
    ) -> Result<Arc<Simulated>, StepFault>
        requires { S.answer ≡ advance }
        ensures design { IfOk result (λ made. (arc_value made).design ≡ design) }
        ensures run { IfOk result (λ made. IsRun advance (arc_value made).design (arc_value made).run) }
        ensures asked { OnOk result (IsAskedInSomeOrder (S.asked stepper.old) (S.asked stepper.new) (work_of (netlist design))) }
        ensures lost { S.losses stepper.new ≡ S.losses stepper.old + (if lost.loses_a_worker result then 1 else 0) }
    {
        let run = simulate(alloc, &design, stepper)?;
        Ok(Simulated::of(alloc, design, run)?)
    }

    /// The design which edits made of an old one, with its run, which the stepper makes here from the old one's; and which nets
    /// may have changed.
    pub fn from<S: Stepper>(
        alloc: Global,
        old: &Simulated,
        made: (Design, Touched),
        changed: &mut Changed,
        stepper: &mut S,
    ) -> Result<Arc<Simulated>, StepFault>
        requires answer { S.answer ≡ advance }
        requires run { IsRun advance old.now.design old.now.run }
        requires touched { IsTouched old.now.design made.0 made.1.nets.items made.1.gates.items }
        ensures design { IfOk result (λ next. (arc_value next).design ≡ made.0) }
        ensures run { IfOk result (λ next. IsRun advance (arc_value next).design (arc_value next).run) }
        ensures changed { OnOk result (AreChanged advance old.now.design made.0 (has_changed changed.new)) }
        ensures asked { OnOk result (AskedByAccepted (netlist old.now.design) (netlist made.0) (S.asked stepper.old) (S.asked stepper.new)) }
        ensures part { OnErr result (HasGrownInPart advance (netlist old.now.design) (netlist made.0)
            (S.asked stepper.old) (S.asked stepper.new)) }
        ensures lost { S.losses stepper.new ≡ S.losses stepper.old + (if lost.loses_a_worker result then 1 else 0) }
    {
        let (new, touched) = made;
        let run = rerun_changed(
            alloc,
            &old.design,
            &old.run,
            &new,
            &touched,
            changed,
            stepper,
        )?;
        Ok(Simulated::of(alloc, new, run)?)
    }

    // The design with its run. It fails where memory runs out.
    fn of(alloc: Global, design: Design, run: Run) -> Result<Arc<Simulated>, AllocError>
        ensures { IfOk result (λ made. arc_value made ≡ record { design = design; run = run }) }
    {
        match Arc::new(alloc, Simulated { design, run }) {
            Ok(made) => Ok(made),
            Err(_) => Err(AllocError),
        }
    }
}
