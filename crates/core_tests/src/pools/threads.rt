//! The threads of pools: they compute at once, end with the pool and follow it to another thread.

ghost use Rattle.std.specs.Prelude.{◌<◌, ◌≤◌};
ghost use Rattle.parstep.specs.declared.limits.TheConstants.{MAX_WORKERS};

use super::probes::{Calls, Hold, Holding};
use super::steps::compare;
use super::tasks::{MOMENT, tasks};
use crate::dice::Dice;
use crossbeam_channel::{Sender, bounded};
use gatestep::Stepper;
use parstep::{Pool, Probe, Quiet};
use std::alloc::Global;
use std::process::Abort;
use std::sync::{Arc, Wait};
use std::thread;
use std::thread::Threads;

/// A step of so many tasks by so many workers, whose pieces pass the probe.
fn step<
    P: Probe + Send + Sync + Drop + 'static,
    R: Threads + Wait + Abort + Copy + Drop + Send + 'static,
>(rt: R, alloc: Global, workers: u32, count: u64, probe: P)
    requires some { 0 < workers }
    requires few { workers ≤ MAX_WORKERS }
{
    let mut pool = Pool::open(rt, alloc, workers, probe).expect(&rt, "a pool");
    compare(&rt, alloc, &mut Dice(2), &mut pool, count);
}

/// A probe that holds pieces, and the counts of its calls.
fn holding<R: Wait + Abort + Copy + Drop>(
    rt: R,
    alloc: Global,
    hold: Hold,
) -> (Holding<R>, Arc<Calls>) {
    let calls = Arc::new(alloc, Calls::new(&rt, alloc)).expect(&rt, "counts");
    let shared = Arc::try_clone(&calls).expect(&rt, "a share of the counts");
    let probe = Holding {
        rt,
        calls: shared,
        hold,
    };
    (probe, calls)
}

/// A step of so many tasks, at least as many as there are workers: each worker comes to one piece, and is held there.
fn step_held<R: Threads + Wait + Abort + Copy + Drop + Send + Sync + 'static>(
    rt: R,
    alloc: Global,
    workers: u32,
    count: u64,
    hold: Hold,
)
    requires some { 0 < workers }
    requires few { workers ≤ MAX_WORKERS }
{
    let (probe, calls) = holding(rt, alloc, hold);
    step(rt, alloc, workers, count, probe);
    calls.check(&rt, workers as usize);
    drop(calls);
}

// Piece 0 is held until piece 1 is done, so they are not computed one after another.
#[test]
fn the_second_piece_is_done_first(rt: HostRuntime) {
    step_held(rt, rt.alloc(), 2, 2, Hold::ForTheNext);
    step_held(rt, rt.alloc(), 2, 4_096, Hold::ForTheNext);
}

#[test]
fn each_piece_waits_for_the_other(rt: HostRuntime) {
    step_held(rt, rt.alloc(), 2, 2, Hold::ForAll(2));
    step_held(rt, rt.alloc(), 2, 4_096, Hold::ForAll(2));
}

#[test]
fn sixty_four_pieces_at_once(rt: HostRuntime) {
    step_held(rt, rt.alloc(), 64, 130, Hold::ForAll(64));
    step_held(rt, rt.alloc(), 64, 4_096, Hold::ForAll(64));
}

// One worker gets all gates that a design can have as one piece.
#[test]
fn the_largest_piece(rt: HostRuntime) {
    step(rt, rt.alloc(), 1, 65_536, Quiet);
}

/// Keeps an end of a channel for as long as a worker lives.
#[derive(Drop)]
struct Alive {
    _end: Sender<u32>,
}

impl Probe for Alive {
    fn at(&self, _piece: u32) -> bool {
        true
    }

    fn done(&self, _piece: u32) {}
}

// The workers alone share the sender, and nothing is sent: `recv` returns once the last of them has ended.
#[test]
fn the_threads_of_a_dropped_pool_end(rt: HostRuntime) {
    let (end, closed) = bounded(rt.alloc(), 1).expect(&rt, "a channel");
    step(rt, rt.alloc(), 64, 100, Alive { _end: end });
    assert!(&rt; closed.recv(&rt).is_err());
}

// A probe that ends the workers, and no step: they end with the pool.
#[test]
fn the_threads_of_an_idle_pool_end(rt: HostRuntime) {
    let (end, closed) = bounded(rt.alloc(), 1).expect(&rt, "a channel");
    let pool = Pool::open(rt, rt.alloc(), 5, Alive { _end: end }).expect(&rt, "a pool");
    drop(pool);
    assert!(&rt; closed.recv(&rt).is_err());
}

/// Whether nine tasks have as many answers.
fn is_answering<S: Stepper>(rt: &impl Abort, alloc: Global, stepper: &mut S) -> bool {
    let tasks = tasks(rt, alloc, &mut Dice(4), 9);
    let mut answers = Vec::new(alloc);
    let result = stepper.step(&tasks, MOMENT, &mut answers);
    result.is_ok() && answers.len() == 9
}

#[test]
fn a_pool_goes_to_another_thread(rt: HostRuntime) {
    let alloc = rt.alloc();
    let pool = Pool::open(rt, alloc, 2, Quiet).expect(&rt, "a pool");
    let there = thread::spawn(&rt, move || {
        let mut pool = pool;
        is_answering(&rt, alloc, &mut pool)
    });
    let there = there.ok().expect(&rt, "a thread");
    assert!(&rt; there.join(&rt));
}
