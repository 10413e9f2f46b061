//! A bench whose pool loses a worker, and that is given another pool.

use super::lost::{LOST, check as check_step, two_workers};
use crate::benches::opened::{check, check_commit};
use crate::compare::equal;
use crate::edit_lists::edit_lines::design_of;
use bench::{Bench, CommitFault};
use gatestep::Stepper;
use std::alloc::Global;
use std::process::Abort;
use std::sync::Arc;
use std::sync::atomic::{AtomicBool, Ordering};

const BUFFERS: [&str; 6] = [
    "input a",
    "net y wire",
    "net z wire",
    "gate g buf 3 3 y a",
    "gate h buf 3 3 z a",
    "horizon 10",
];

/// A commit that stirs both gates loses the second worker, and so from then on does each that stirs a gate.
fn lose_a_worker<S: Stepper + Drop>(
    rt: &impl Abort,
    alloc: Global,
    bench: &mut Bench<S>,
    flag: &AtomicBool,
) {
    let lost = Err(CommitFault::WorkerLost);
    check_commit(rt, alloc, bench, &["stim a 0 0"], Ok(1));
    flag.store(true, Ordering::SeqCst);
    check_commit(rt, alloc, bench, &["stim a 5 1"], lost);
    equal(rt, "version", bench.snapshot().version(), 1);
    check(rt, alloc, bench, "y", " 0:x 3:0");
    flag.store(false, Ordering::SeqCst);
    check_commit(rt, alloc, bench, &["stim a 5 1"], lost);
    check_commit(rt, alloc, bench, &[], Ok(2));
}

#[test]
fn another_pool_in_the_place_of_a_lost_one(rt: HostRuntime) {
    let flag = Arc::new(rt.alloc(), AtomicBool::new(false)).expect(&rt, "a flag");
    let pool = two_workers(rt, rt.alloc(), &flag);
    let design = design_of(&rt, rt.alloc(), &BUFFERS);
    let mut bench = Bench::open(rt.alloc(), design, pool).expect(&rt, "a bench");
    lose_a_worker(&rt, rt.alloc(), &mut bench, &flag);
    let mut lost = bench.restep(two_workers(rt, rt.alloc(), &flag));
    check_commit(&rt, rt.alloc(), &mut bench, &["stim a 5 1"], Ok(3));
    check(&rt, rt.alloc(), &bench, "y", " 0:x 3:0 8:1");
    check_step(&rt, rt.alloc(), &mut lost, 2, LOST);
    drop(lost);
    drop(bench);
}
