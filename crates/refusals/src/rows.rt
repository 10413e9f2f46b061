//! Runs and commits by steppers of one type.

ghost use Rattle.std.specs.Prelude.{◌≡◌};
ghost use Rattle.gatestep.specs.Step.{advance};

use crate::benches::{BUFFER, ONE_POINT, REFUSED_BATCH, TWO_MODULES, bench_of, end_bench};
use crate::pool::stepper_of;
use crate::report::{Report, Stop};
use crate::runs::pulse;
use devices::{Sink, Writer};
use gatestep::{StepFault, Stepper};
use std::alloc::Global;

/// All of them.
pub fn all<S: Stepper + Drop, F: Fn() -> Result<S, StepFault>, R: Eprint, W: Sink>(
    alloc: Global,
    report: &Report<R>,
    make: F,
    out: &mut Writer<'_, W>,
) -> Result<(), Stop>
    requires answer { S.answer ≡ advance }
    requires make { F.IsAlwaysCallable make }
{
    pulse_by(alloc, report, &make, out)?;
    let bench = bench_of(alloc, report, BUFFER, &make)?;
    end_bench(alloc, report, bench, &REFUSED_BATCH, out)?;
    let bench = bench_of(alloc, report, TWO_MODULES, make)?;
    end_bench(alloc, report, bench, &ONE_POINT, out)
}

fn pulse_by<S: Stepper + Drop, F: Fn() -> Result<S, StepFault>, R: Eprint, W: Sink>(
    alloc: Global,
    report: &Report<R>,
    make: F,
    out: &mut Writer<'_, W>,
) -> Result<(), Stop>
    requires { F.IsAlwaysCallable make }
{
    let mut stepper = stepper_of(report, make)?;
    pulse(alloc, report, &mut stepper, out)
}
