//! Times of steps: for each number of tasks that the words ask for, one step on the caller's thread, by a parallel map, and
//! by pools of 1, 2 and 4 workers. Each line of the output is `TASKS WHO NANOSECONDS CALLER`: the time that passed, and the
//! processor time of the caller's thread, each the least of all rounds.

ghost use Rattle.std.specs.Prelude.{All, ◌<◌, ◌≤◌};
ghost use Rattle.gatestep.specs.Tasks.{IsReady};
ghost use Rattle.parstep.specs.declared.limits.TheConstants.{MAX_WORKERS};

mod tasks;

use crate::clock::nanoseconds;
use anyhow::{Result, bail};
use gatestep::{Serial, Stepper, Task};
use parstep::{Bulk, Pool, Quiet};
use std::alloc::Global;
use std::sync::Wait;
use std::thread::Threads;
use std::time::{Clock, CpuClock, Instant};
use tasks::tasks_of;

/// How often a step is made.
const ROUNDS: usize = 40;

/// What one step takes, in nanoseconds.
#[derive(Clone, Copy)]
struct Time {
    passed: u64,
    caller: u64,
}

/// One step, the least of all rounds.
fn measured<S: Stepper, R: Clock + CpuClock>(
    rt: &R,
    alloc: Global,
    stepper: &mut S,
    tasks: &[Task],
) -> Result<Time>
    requires { All (IsReady 0) tasks.now }
{
    let mut out = Vec::new(alloc);
    let mut passed = u64::MAX;
    let mut caller = u64::MAX;
    for _ in 0..ROUNDS {
        out.clear();
        let start = Instant::now(rt)?;
        let before = rt.thread_cpu_time()?;
        let result = stepper.step(tasks, 0, &mut out);
        let after = rt.thread_cpu_time()?;
        let spent = start.elapsed(rt)?;
        if result.is_err() {
            bail!("no answers");
        }
        passed = passed.min(nanoseconds(spent));
        caller = caller.min(nanoseconds(after.saturating_sub(before)));
    }
    Ok(Time { passed, caller })
}

/// One step by a pool of so many workers.
fn by_pool<R: Threads + Wait + Clock + CpuClock + Copy + Drop + Send + 'static>(
    rt: R,
    alloc: Global,
    workers: u32,
    tasks: &[Task],
) -> Result<Time>
    requires some { 0 < workers }
    requires few { workers ≤ MAX_WORKERS }
    requires ready { All (IsReady 0) tasks.now }
{
    let Ok(mut pool) = Pool::open(rt, alloc, workers, Quiet) else {
        bail!("no pool");
    };
    measured(&rt, alloc, &mut pool, tasks)
}

/// The times of steps of as many tasks as the words say.
pub fn run<
    R: Threads
        + Wait
        + Clock
        + CpuClock
        + Print
        + AllocGlobal
        + Copy
        + Drop
        + Send
        + Sync
        + 'static,
>(rt: R, words: &[String]) -> Result<()> {
    for word in words {
        let Ok(count) = word.as_str().parse::<usize>() else {
            bail!("a size is a number of tasks");
        };
        let tasks = tasks_of(rt.alloc(), count)?;
        let tasks = tasks.as_slice();
        let serial = measured(&rt, rt.alloc(), &mut Serial::new(), tasks)?;
        println!(rt; "{count} serial {} {}", serial.passed, serial.caller)?;
        let bulk = measured(&rt, rt.alloc(), &mut Bulk::open(rt, rt.alloc()), tasks)?;
        println!(rt; "{count} bulk {} {}", bulk.passed, bulk.caller)?;
        let one = by_pool(rt, rt.alloc(), 1, tasks)?;
        println!(rt; "{count} pool-1 {} {}", one.passed, one.caller)?;
        let two = by_pool(rt, rt.alloc(), 2, tasks)?;
        println!(rt; "{count} pool-2 {} {}", two.passed, two.caller)?;
        let four = by_pool(rt, rt.alloc(), 4, tasks)?;
        println!(rt; "{count} pool-4 {} {}", four.passed, four.caller)?;
    }
    Ok(())
}
