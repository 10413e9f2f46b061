//! Steppers, and among them a pool of two threads.

use crate::report::{Report, Stop, TRIES};
use gatestep::{StepFault, Stepper};
use parstep::{Pool, Quiet};
use std::alloc::Global;
use std::sync::Wait;
use std::thread::Threads;

/// How many threads a pool has.
const WORKERS: u32 = 2;

/// A pool, if memory lasts.
pub fn open_pool<R: Threads + Wait + Eprint + Copy + Drop + Send + 'static>(
    rt: R,
    alloc: Global,
) -> Result<Pool<Quiet, R>, StepFault> {
    Pool::open(rt, alloc, WORKERS, Quiet)
}

/// A stepper. Only a pool can be refused.
pub fn stepper_of<S: Stepper, F: Fn() -> Result<S, StepFault>>(
    report: &Report<impl Eprint>,
    make: F,
) -> Result<S, Stop>
    requires { F.IsAlwaysCallable make }
{
    for _ in 0..TRIES {
        match make() {
            Ok(stepper) => return Ok(stepper),
            Err(StepFault::OutOfMemory) => report.refused("Pool::open"),
            Err(StepFault::WorkerLost) => return Err(Stop::Wrong("Pool::open")),
        }
    }
    Err(Stop::Refused)
}
