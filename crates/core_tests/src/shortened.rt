//! Runs with an earlier horizon, worked out by hand.

use crate::compare::equal;
use crate::edit_lists::edit_lines::design_of;
use design::Design;
use gatestep::Serial;
use resim::shorten;
use scratch::{simulate, wave_named};
use std::alloc::Global;
use std::process::Abort;
use waveform::Run;

// The input a is x and from 3 on 1, and so is y from 6 on.
const BUFFER: [&str; 5] = [
    "input a",
    "net y wire",
    "gate g buf 3 3 y a",
    "stim a 3 1",
    "horizon 30",
];

fn changes_of(rt: &impl Abort, design: &Design, run: &Run, net: &str) -> usize {
    let wave = wave_named(design, run, net).expect(rt, "a wave");
    wave.changes().len()
}

fn entries_of(rt: &impl Abort, design: &Design, run: &Run, gate: &str) -> usize {
    let key = design.gate(gate).expect(rt, "a gate");
    let trace = run.trace(key.number()).expect(rt, "a trace");
    trace.entries().len()
}

/// How many changes a and y have up to a horizon, and how many entries the state of g has, which changes by itself at 6.
fn check(rt: &impl Abort, alloc: Global, design: &Design, run: &Run, case: (u64, [usize; 3])) {
    let (horizon, [a, y, g]) = case;
    assert!(rt; horizon <= design.horizon());
    let short = shorten(alloc, design, run, horizon).expect(rt, "a shorter run");
    equal(rt, "horizon", short.horizon(), horizon);
    equal(rt, "changes of a", changes_of(rt, design, &short, "a"), a);
    equal(rt, "changes of y", changes_of(rt, design, &short, "y"), y);
    equal(rt, "entries of g", entries_of(rt, design, &short, "g"), g);
    drop(short);
}

#[test]
fn earlier_horizons(rt: HostRuntime) {
    let alloc = rt.alloc();
    let design = design_of(&rt, alloc, &BUFFER);
    let mut serial = Serial::new();
    let run = simulate(alloc, &design, &mut serial).expect(&rt, "a run");
    check(&rt, alloc, &design, &run, (30, [2, 2, 2]));
    check(&rt, alloc, &design, &run, (6, [2, 2, 2]));
    check(&rt, alloc, &design, &run, (5, [2, 1, 2]));
    check(&rt, alloc, &design, &run, (3, [2, 1, 2]));
    check(&rt, alloc, &design, &run, (2, [1, 1, 1]));
    check(&rt, alloc, &design, &run, (0, [1, 1, 1]));
    drop(run);
    drop(design);
}
