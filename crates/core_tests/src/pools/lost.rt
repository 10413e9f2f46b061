//! Workers that end.

use super::probes::Ending;
use super::tasks::{MOMENT, tasks};
use crate::compare::equal;
use crate::dice::Dice;
use gatestep::{Driver, StepFault, Stepper};
use parstep::Pool;
use std::alloc::Global;
use std::process::Abort;
use std::sync::atomic::{AtomicBool, Ordering};
use std::sync::{Arc, Wait};
use std::thread::Threads;

/// A step of so many tasks gives this reply, and answers only where it is good.
pub fn check<S: Stepper>(
    rt: &impl Abort,
    alloc: Global,
    stepper: &mut S,
    count: u64,
    wanted: Result<(), StepFault>,
) {
    let tasks = tasks(rt, alloc, &mut Dice(1), count);
    let mut answers: Vec<Driver> = Vec::new(alloc);
    equal(
        rt,
        "step",
        stepper.step(&tasks, MOMENT, &mut answers),
        wanted,
    );
    let expected = if wanted.is_ok() { count } else { 0 };
    equal(rt, "number of answers", answers.len() as u64, expected);
}

/// Two workers, of which the second ends at its next piece once the flag is set.
pub fn two_workers<R: Threads + Wait + Abort + Copy + Drop + Send + 'static>(
    rt: R,
    alloc: Global,
    flag: &Arc<AtomicBool>,
) -> Pool<Ending, R> {
    let probe = Ending {
        piece: 1,
        flag: Arc::try_clone(flag).expect(&rt, "a share of the flag"),
    };
    Pool::open(rt, alloc, 2, probe).expect(&rt, "a pool")
}

pub const LOST: Result<(), StepFault> = Err(StepFault::WorkerLost);

// A step that deals the second worker nothing does not lose it; from the loss on every step is lost, whatever it asks.
#[test]
fn a_worker_ends_in_a_step(rt: HostRuntime) {
    let flag = Arc::new(rt.alloc(), AtomicBool::new(false)).expect(&rt, "a flag");
    let mut pool = two_workers(rt, rt.alloc(), &flag);
    check(&rt, rt.alloc(), &mut pool, 4, Ok(()));
    flag.store(true, Ordering::SeqCst);
    check(&rt, rt.alloc(), &mut pool, 1, Ok(()));
    check(&rt, rt.alloc(), &mut pool, 4, LOST);
    flag.store(false, Ordering::SeqCst);
    check(&rt, rt.alloc(), &mut pool, 4, LOST);
    check(&rt, rt.alloc(), &mut pool, 1, LOST);
    check(&rt, rt.alloc(), &mut pool, 0, LOST);
}

#[test]
fn a_worker_ends_at_its_first_piece(rt: HostRuntime) {
    let flag = Arc::new(rt.alloc(), AtomicBool::new(true)).expect(&rt, "a flag");
    let mut pool = two_workers(rt, rt.alloc(), &flag);
    check(&rt, rt.alloc(), &mut pool, 2, LOST);
    check(&rt, rt.alloc(), &mut pool, 2, LOST);
}

// Another pool has workers of its own.
#[test]
fn another_pool_answers_after_a_loss(rt: HostRuntime) {
    let flag = Arc::new(rt.alloc(), AtomicBool::new(true)).expect(&rt, "a flag");
    let mut pool = two_workers(rt, rt.alloc(), &flag);
    check(&rt, rt.alloc(), &mut pool, 2, LOST);
    flag.store(false, Ordering::SeqCst);
    let mut pool = two_workers(rt, rt.alloc(), &flag);
    check(&rt, rt.alloc(), &mut pool, 2, Ok(()));
    check(&rt, rt.alloc(), &mut pool, 5, Ok(()));
}
