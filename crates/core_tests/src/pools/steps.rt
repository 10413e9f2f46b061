//! Steps in several threads beside those on the caller's.

ghost use Rattle.std.specs.Prelude.{◌<◌, ◌≤◌};
ghost use Rattle.parstep.specs.declared.limits.TheConstants.{MAX_WORKERS};

use super::tasks::{MOMENT, tasks};
use crate::compare::equal;
use crate::dice::Dice;
use gatestep::{Serial, Stepper};
use parstep::{Bulk, Parallel, Pool, Quiet};
use std::alloc::Global;
use std::process::Abort;
use std::sync::Wait;
use std::thread::Threads;

/// A step of so many random tasks has the answers of `Serial`.
pub fn compare<S: Stepper>(
    rt: &impl Abort,
    alloc: Global,
    dice: &mut Dice,
    stepper: &mut S,
    count: u64,
) {
    let tasks = tasks(rt, alloc, dice, count);
    let mut wanted = Vec::new(alloc);
    equal(
        rt,
        "step",
        Serial::new().step(&tasks, MOMENT, &mut wanted),
        Ok(()),
    );
    let mut answers = Vec::new(alloc);
    equal(
        rt,
        "step",
        stepper.step(&tasks, MOMENT, &mut answers),
        Ok(()),
    );
    equal(rt, "answers", answers.as_slice(), wanted.as_slice());
    equal(rt, "number of answers", answers.len() as u64, count);
}

/// Steps of random sizes.
fn compare_many<S: Stepper>(rt: &impl Abort, alloc: Global, stepper: &mut S, steps: u32) {
    let mut dice = Dice(3);
    for _ in 0..steps {
        let count = dice.below(150);
        compare(rt, alloc, &mut dice, stepper, count);
    }
}

fn compare_pool<R: Threads + Wait + Abort + Copy + Drop + Send + 'static>(
    rt: R,
    alloc: Global,
    workers: u32,
    steps: u32,
)
    requires some { 0 < workers }
    requires few { workers ≤ MAX_WORKERS }
{
    let mut pool = Pool::open(rt, alloc, workers, Quiet).expect(&rt, "a pool");
    compare_many(&rt, alloc, &mut pool, steps);
}

#[test]
fn a_thousand_steps_by_three_workers(rt: HostRuntime) {
    compare_pool(rt, rt.alloc(), 3, 1_000);
}

#[test]
fn steps_by_one_worker(rt: HostRuntime) {
    compare_pool(rt, rt.alloc(), 1, 60);
}

#[test]
fn steps_by_sixty_four_workers(rt: HostRuntime) {
    compare_pool(rt, rt.alloc(), 64, 60);
}

#[test]
fn steps_by_a_parallel_map(rt: HostRuntime) {
    compare_many(&rt, rt.alloc(), &mut Bulk::open(rt, rt.alloc()), 30);
}

#[test]
fn steps_beside_two_workers(rt: HostRuntime) {
    compare_many(&rt, rt.alloc(), &mut Parallel::open(rt, 2), 30);
}
