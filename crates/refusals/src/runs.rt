//! A pulse that one of two buffers lets through: the run from scratch, and that from the run of the design without it.

ghost use Rattle.std.specs.Prelude.{IfOk};
ghost use Rattle.scratch.specs.kept.Run.{IsRun};

use crate::report::{Report, Stop, TRIES};
use crate::show::show_run;
use crate::texts::{Change, Named, design_after, design_of, edits_of};
use design::Design;
use devices::{Sink, Writer};
use fourstate::Value;
use gatestep::{StepFault, Stepper};
use resim::rerun;
use scratch::simulate;
use std::alloc::Global;
use waveform::Run;

const BUFFERS: &[u8] =
    b"module m(a,y,z); input a; output y,z; buf #(3,3) g(y,a), h(z,a); endmodule";

// A pulse of 3 at two gates of which one takes 3 and the other one 4.
const PULSE: [Named; 4] = [
    ("a", Change::Point(0, Value::Zero)),
    ("a", Change::Point(10, Value::One)),
    ("a", Change::Point(13, Value::Zero)),
    ("h", Change::Delay(4)),
];

fn run_of<S: Stepper>(
    alloc: Global,
    report: &Report<impl Eprint>,
    design: &Design,
    stepper: &mut S,
) -> Result<Run, Stop>
    ensures { IfOk result (IsRun S.answer design.now) }
{
    for _ in 0..TRIES {
        match simulate(alloc, design, stepper) {
            Ok(run) => return Ok(run),
            Err(StepFault::OutOfMemory) => report.refused("simulate"),
            Err(StepFault::WorkerLost) => return Err(Stop::Wrong("simulate")),
        }
    }
    Err(Stop::Refused)
}

fn rerun_of<S: Stepper>(
    alloc: Global,
    report: &Report<impl Eprint>,
    old: &Design,
    run: &Run,
    new: &Design,
    stepper: &mut S,
) -> Result<Run, Stop>
    requires { IsRun S.answer old.now run.now }
    ensures { IfOk result (IsRun S.answer new.now) }
{
    for _ in 0..TRIES {
        match rerun(alloc, old, run, new, stepper) {
            Ok(run) => return Ok(run),
            Err(StepFault::OutOfMemory) => report.refused("rerun"),
            Err(StepFault::WorkerLost) => return Err(Stop::Wrong("rerun")),
        }
    }
    Err(Stop::Refused)
}

/// The waves without the pulse, and twice those with it.
pub fn pulse<S: Stepper, R: Eprint, W: Sink>(
    alloc: Global,
    report: &Report<R>,
    stepper: &mut S,
    out: &mut Writer<'_, W>,
) -> Result<(), Stop> {
    let old = design_of(alloc, report, BUFFERS)?;
    pulse_of(alloc, report, &old, stepper, out)
}

fn pulse_of<S: Stepper, R: Eprint, W: Sink>(
    alloc: Global,
    report: &Report<R>,
    old: &Design,
    stepper: &mut S,
    out: &mut Writer<'_, W>,
) -> Result<(), Stop> {
    let edits = edits_of(alloc, report, &PULSE)?;
    let new = design_after(alloc, report, old, &edits)?;
    show_both(alloc, report, (old, &new), stepper, out)
}

fn show_both<S: Stepper, R: Eprint, W: Sink>(
    alloc: Global,
    report: &Report<R>,
    designs: (&Design, &Design),
    stepper: &mut S,
    out: &mut Writer<'_, W>,
) -> Result<(), Stop> {
    let (old, new) = designs;
    let run = run_of(alloc, report, old, stepper)?;
    show_run(out, old, &run);
    let run = rerun_of(alloc, report, old, &run, new, stepper)?;
    show_run(out, new, &run);
    let run = run_of(alloc, report, new, stepper)?;
    show_run(out, new, &run);
    Ok(())
}
