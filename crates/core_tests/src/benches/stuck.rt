//! Benches whose stepper loses its worker.

use super::opened::{check, check_commit};
use crate::compare::equal;
use crate::counting::Counting;
use crate::edit_lists::edit_lines::design_of;
use crate::twenty::twenty;
use bench::{Bench, CommitFault};
use edits::EditFault;
use gatestep::StepFault;
use std::alloc::Global;
use std::process::Abort;

const LOST: Result<u64, CommitFault> = Err(CommitFault::WorkerLost);

const INVERTER: [&str; 3] = ["input a", "net y wire", "gate g not 1 1 y a"];

/// A bench of the inverter up to moment 0, which takes a step for each commit.
fn open(rt: &impl Abort, alloc: Global, left: u64) -> Result<Bench<Counting>, StepFault> {
    let stepper = Counting::losing(0, left);
    Bench::open(alloc, design_of(rt, alloc, &INVERTER), stepper)
}

#[test]
fn at_the_opening(rt: HostRuntime) {
    equal(
        &rt,
        "opening",
        open(&rt, rt.alloc(), 0).err(),
        Some(StepFault::WorkerLost),
    );
}

#[test]
fn at_a_commit(rt: HostRuntime) {
    let mut bench = open(&rt, rt.alloc(), 2).expect(&rt, "a bench");
    check_commit(&rt, rt.alloc(), &mut bench, &["stim a 0 0"], Ok(1));
    check_commit(&rt, rt.alloc(), &mut bench, &["unstim a 0"], LOST);
    equal(&rt, "version", bench.snapshot().version(), 1);
    check(&rt, rt.alloc(), &bench, "a", " 0:0");
    drop(bench);
}

// A refused edit makes no step.
#[test]
fn behind_a_refused_edit(rt: HostRuntime) {
    let mut bench = open(&rt, rt.alloc(), 2).expect(&rt, "a bench");
    let unknown = Err(CommitFault::Edit(1, EditFault::UnknownGate));
    check_commit(
        &rt,
        rt.alloc(),
        &mut bench,
        &["stim a 0 0", "drop h"],
        unknown,
    );
    check_commit(&rt, rt.alloc(), &mut bench, &["stim a 0 0"], Ok(1));
    drop(bench);
}

/// A bench whose stepper deals the steps of so many tasks and makes so many steps.
fn open_twenty(
    rt: &impl Abort,
    alloc: Global,
    least_dealt: usize,
    left: u64,
) -> Result<Bench<Counting>, StepFault> {
    Bench::open(
        alloc,
        twenty(rt, alloc),
        Counting::losing(least_dealt, left),
    )
}

// Edits that touch gates and change none, so that a commit goes through the whole design.
const TOUCHING: [&str; 3] = ["delay h 2 2", "delay g0 1 1", "delay g1 1 1"];

fn check_wide(
    rt: &impl Abort,
    alloc: Global,
    bench: &mut Bench<Counting>,
    moved: [&str; 2],
    wanted: Result<u64, CommitFault>,
) {
    let lines = [moved[0], moved[1], TOUCHING[0], TOUCHING[1], TOUCHING[2]];
    check_commit(rt, alloc, bench, &lines, wanted);
}

/// The opening takes so many steps, and a commit that stirs one gate so many more. One that stirs 20 gates loses the worker
/// then, and so does each behind it that stirs a gate, whichever way it asks.
fn check_twenty(rt: &impl Abort, alloc: Global, least_dealt: usize, opening: u64, small: u64) {
    let fault = open_twenty(rt, alloc, least_dealt, opening.saturating_sub(1)).err();
    equal(rt, "opening", fault, Some(StepFault::WorkerLost));
    let left = opening.saturating_add(small);
    let mut bench = open_twenty(rt, alloc, least_dealt, left).expect(rt, "a bench");
    check_wide(rt, alloc, &mut bench, ["unstim b 20", "stim b 25 1"], Ok(1));
    check_wide(rt, alloc, &mut bench, ["unstim a 10", "stim a 12 1"], LOST);
    check_wide(rt, alloc, &mut bench, ["unstim b 25", "stim b 30 1"], LOST);
    check_commit(rt, alloc, &mut bench, &["stim b 30 0"], LOST);
    check_commit(rt, alloc, &mut bench, &["horizon 50"], LOST);
    check_commit(rt, alloc, &mut bench, &["horizon 44"], Ok(2));
    check(rt, alloc, &bench, "y", " 0:x 1:1 11:0");
    check(rt, alloc, &bench, "z", " 0:x 2:0 27:1");
    drop(bench);
}

#[test]
fn twenty_gates_at_a_moment(rt: HostRuntime) {
    check_twenty(&rt, rt.alloc(), 0, 7, 2);
    check_twenty(&rt, rt.alloc(), 20, 4, 0);
}
