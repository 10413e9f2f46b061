//! Steps by steppers that share their tasks out. Behind a step that was refused the next one has other tasks, so that answers
//! which are left over meet a step that they do not belong to.

ghost use Rattle.std.specs.Prelude.{All, ◌≡◌, [], IfOk};
ghost use Rattle.gatestep.specs.Tasks.{IsReady};

use crate::pool::{open_pool, stepper_of};
use crate::report::{Report, Stop, TRIES};
use crate::show::show_number;
use crate::tasks::tasks_of;
use devices::{Sink, Writer};
use fourstate::GateKind;
use gatestep::{Driver, Serial, StepFault, Stepper, Task};
use parstep::Bulk;
use std::alloc::Global;
use std::sync::Wait;
use std::thread::Threads;

/// As many tasks as a parallel map takes more than one thread for.
const MANY: usize = 2100;

/// The answers to the tasks on the caller's thread.
fn wanted(alloc: Global, report: &Report<impl Eprint>, tasks: &[Task]) -> Result<Vec<Driver>, Stop>
    requires { All (IsReady 0) tasks.now }
{
    for _ in 0..TRIES {
        let mut answers = Vec::new(alloc);
        match Serial::new().step(tasks, 0, &mut answers) {
            Ok(()) => return Ok(answers),
            Err(StepFault::OutOfMemory) => report.refused("Serial::step"),
            Err(StepFault::WorkerLost) => return Err(Stop::Wrong("Serial::step")),
        }
    }
    Err(Stop::Refused)
}

/// Whether a step of the tasks was answered, and not refused for memory. The answers are the wanted ones, and none where it was
/// refused.
fn is_answered<S: Stepper>(
    alloc: Global,
    report: &Report<impl Eprint>,
    name: &'static str,
    stepper: &mut S,
    tasks: &[Task],
    wanted: &[Driver],
) -> Result<bool, Stop>
    requires { All (IsReady 0) tasks.now }
{
    let mut answers = Vec::new(alloc);
    match stepper.step(tasks, 0, &mut answers) {
        Ok(()) if answers.as_slice() == wanted => Ok(true),
        Err(StepFault::OutOfMemory) if answers.is_empty() => {
            report.refused(name);
            Ok(false)
        }
        _ => Err(Stop::Wrong(name)),
    }
}

/// Steps of two lists of tasks in turn, until each was answered.
fn in_turn<S: Stepper>(
    alloc: Global,
    report: &Report<impl Eprint>,
    name: &'static str,
    stepper: &mut S,
    lists: (&[Task], &[Task]),
    wanted: (&[Driver], &[Driver]),
) -> Result<(), Stop>
    requires { All (IsReady 0) lists.0.now × All (IsReady 0) lists.1.now }
{
    let mut is_done = (false, false);
    for _ in 0..TRIES {
        if is_answered(alloc, report, name, stepper, lists.0, wanted.0)? {
            is_done.0 = true;
        }
        if is_answered(alloc, report, name, stepper, lists.1, wanted.1)? {
            is_done.1 = true;
        }
        if is_done == (true, true) {
            return Ok(());
        }
    }
    Err(Stop::Refused)
}

/// Steps of two lists of so many tasks.
fn steps<S: Stepper>(
    alloc: Global,
    report: &Report<impl Eprint>,
    name: &'static str,
    stepper: &mut S,
    count: usize,
) -> Result<(), Stop> {
    let first = tasks_of(alloc, report, GateKind::And, count)?;
    let second = tasks_of(alloc, report, GateKind::Nor, count)?;
    let wanted_first = wanted(alloc, report, &first)?;
    let wanted_second = wanted(alloc, report, &second)?;
    in_turn(
        alloc,
        report,
        name,
        stepper,
        (&first, &second),
        (&wanted_first, &wanted_second),
    )
}

/// Steps by a pool of two threads and by a parallel map.
pub fn all<R: Threads + Wait + Eprint + Copy + Drop + Send + Sync + 'static, W: Sink>(
    rt: R,
    alloc: Global,
    report: &Report<R>,
    out: &mut Writer<'_, W>,
) -> Result<(), Stop> {
    let mut pool = stepper_of(report, move || open_pool(rt, alloc))?;
    steps(alloc, report, "Pool::step", &mut pool, 5)?;
    show_number(out, b"a pool's steps of ", 5);
    steps(
        alloc,
        report,
        "Bulk::step",
        &mut Bulk::open(rt, alloc),
        MANY,
    )?;
    show_number(out, b"a map's steps of ", MANY as u64);
    Ok(())
}
