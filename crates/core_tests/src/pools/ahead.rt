//! Runs whose gates are followed in threads, beside those on the caller's thread.

ghost use Rattle.std.specs.Prelude.{◌<◌, ◌≤◌};
ghost use Rattle.parstep.specs.declared.limits.TheConstants.{MAX_WORKERS};

use super::asking::Asking;
use crate::calls::{simulated, simulated_in_order};
use crate::compare::equal;
use crate::dice::Dice;
use crate::edit_lists::edit_lines::{edit, made_of};
use crate::runs::extended::longer;
use design::Design;
use edits::Edit;
use gatestep::Serial;
use resim::rerun;
use std::alloc::Global;
use std::process::Abort;
use std::thread::Threads;
use waveform::{Run, Trace};

/// A design of gates in three rows. Each gate reads a net of the row before it and one of any row before it; the first row is
/// behind three inputs.
#[derive(Clone, Copy)]
struct Rows {
    /// The gates of a row.
    gates: u64,
    /// The points of an input, ten moments apart.
    points: u64,
}

const KINDS: [&str; 6] = ["xor", "nor", "xnor", "nand", "bufif1", "notif0"];

const NET_KINDS: [&str; 4] = ["wire", "wand", "wor", "tri1"];

const VALUES: [&str; 6] = ["0", "1", "0", "1", "x", "z"];

fn push(rt: &impl Abort, alloc: Global, edits: &mut Vec<Edit>, line: &str) {
    let edit = edit(rt, alloc, line);
    edits.push(edit).expect(rt, "one edit more");
}

/// The net of its row that a gate drives: one gate of four drives that of the gate before it.
fn net_of(gate: u64) -> u64 {
    if gate % 4 == 3 { gate - 1 } else { gate }
}

/// A net of a row; those of row 0 are the three inputs.
fn net_at(dice: &mut Dice, row: u64, gates: u64) -> u64
    requires { 0 < gates }
{
    net_of(dice.below(if row == 0 { 3 } else { gates }))
}

/// An input with its points.
fn add_input(
    rt: &impl Abort,
    alloc: Global,
    dice: &mut Dice,
    edits: &mut Vec<Edit>,
    input: u64,
    points: u64,
) {
    let line = format!(in alloc; "input n0_{input}").expect(rt, "a line");
    push(rt, alloc, edits, line.as_str());
    for point in 0..points {
        let time = point.saturating_mul(10).saturating_add(input);
        let value = VALUES[dice.below(6) as usize];
        let line = format!(in alloc; "stim n0_{input} {time} {value}").expect(rt, "a line");
        push(rt, alloc, edits, line.as_str());
    }
}

/// The net that a gate drives, if no gate before it does.
fn add_net(
    rt: &impl Abort,
    alloc: Global,
    dice: &mut Dice,
    edits: &mut Vec<Edit>,
    row: u64,
    gate: u64,
) {
    if net_of(gate) == gate {
        let kind = NET_KINDS[dice.below(4) as usize];
        let line = format!(in alloc; "net n{row}_{gate} {kind}").expect(rt, "a line");
        push(rt, alloc, edits, line.as_str());
    }
}

/// A gate of a row.
fn add_gate(
    rt: &impl Abort,
    alloc: Global,
    dice: &mut Dice,
    edits: &mut Vec<Edit>,
    place: (u64, u64),
    gates: u64,
)
    requires row { 0 < place.0 }
    requires some { 0 < gates }
{
    let (row, gate) = place;
    let kind = KINDS[dice.below(6) as usize];
    let (rise, fall) = (1 + dice.below(4), 1 + dice.below(4));
    let (output, before, earlier) = (net_of(gate), row - 1, dice.below(row));
    let first = net_at(dice, before, gates);
    let second = net_at(dice, earlier, gates);
    let line = format!(in alloc;
        "gate g{row}_{gate} {kind} {rise} {fall} n{row}_{output} n{before}_{first} n{earlier}_{second}"
    ).expect(rt, "a line");
    push(rt, alloc, edits, line.as_str());
}

/// The nets and gates of a row.
fn add_row(
    rt: &impl Abort,
    alloc: Global,
    dice: &mut Dice,
    edits: &mut Vec<Edit>,
    row: u64,
    gates: u64,
)
    requires row { 0 < row }
    requires some { 0 < gates }
{
    for gate in 0..gates {
        add_net(rt, alloc, dice, edits, row, gate);
        add_gate(rt, alloc, dice, edits, (row, gate), gates);
    }
}

/// A design by chance.
fn design_of(rt: &impl Abort, alloc: Global, seed: u64, rows: Rows) -> Design
    requires { 0 < rows.gates }
{
    let mut dice = Dice(seed);
    let mut edits = Vec::new(alloc);
    for input in 0..3 {
        add_input(rt, alloc, &mut dice, &mut edits, input, rows.points);
    }
    for row in 1..4 {
        add_row(rt, alloc, &mut dice, &mut edits, row, rows.gates);
    }
    let horizon = rows.points.saturating_mul(10);
    let line = format!(in alloc; "horizon {horizon}").expect(rt, "a line");
    push(rt, alloc, &mut edits, line.as_str());
    made_of(rt, alloc, edits)
}

/// The traces are the same.
fn check_trace(rt: &impl Abort, place: usize, trace: &Trace, wanted: &Trace) {
    let (entries, wanted) = (trace.entries(), wanted.entries());
    equal(rt, ("entries", place), entries.len(), wanted.len());
    for (entry, wanted) in entries.iter().zip(wanted) {
        let wanted = (wanted.time(), wanted.state());
        equal(rt, place, (entry.time(), entry.state()), wanted);
    }
}

/// The runs have the same wave of each net and the same trace of each gate.
fn check_run(rt: &impl Abort, design: &Design, run: &Run, wanted: &Run) {
    for place in 0..design.net_count() {
        let key = design.net_key_at(place).number();
        let wave = run.wave(key).expect(rt, "a wave");
        let wanted = wanted.wave(key).expect(rt, "a wave");
        equal(rt, ("wave", place), wave.changes(), wanted.changes());
    }
    for place in 0..design.gate_count() {
        let key = design.gate_key_at(place).number();
        let trace = run.trace(key).expect(rt, "a trace");
        let wanted = wanted.trace(key).expect(rt, "a trace");
        check_trace(rt, place, trace, wanted);
    }
}

/// What a run by threads has to be, and how often it asks for jobs, and for how many in all.
#[derive(Clone, Copy)]
struct Wanted<'a> {
    design: &'a Design,
    run: &'a Run,
    asked: (usize, usize),
}

/// A run of the design and what it asked are as wanted.
fn check_asked<R: Threads + Sync + Drop>(
    rt: &impl Abort,
    run: Run,
    asking: &Asking<R>,
    wanted: Wanted<'_>,
) {
    check_run(rt, wanted.design, &run, wanted.run);
    equal(rt, "asked", asking.asked(), wanted.asked);
    drop(run);
}

/// The run from scratch by so many workers.
fn check_workers<R: Threads + Abort + Copy + Drop + Sync>(
    rt: R,
    alloc: Global,
    workers: u32,
    wanted: Wanted<'_>,
)
    requires some { 0 < workers }
    requires few { workers ≤ MAX_WORKERS }
{
    let mut asking = Asking::open(rt, workers);
    let run = simulated_in_order(&rt, alloc, wanted.design, &mut asking);
    check_asked(&rt, run, &asking, wanted);
}

/// The run from half of the horizon on.
fn check_longer<R: Threads + Abort + Copy + Drop + Sync>(rt: R, alloc: Global, wanted: Wanted<'_>) {
    let mut asking = Asking::open(rt, 2);
    let half = wanted.design.horizon() / 2;
    let run = longer(&rt, alloc, wanted.design, half, &mut asking);
    check_asked(&rt, run, &asking, wanted);
}

/// The run beside that of another design.
fn check_beside<R: Threads + Abort + Copy + Drop + Sync>(
    rt: R,
    alloc: Global,
    old: &Design,
    wanted: Wanted<'_>,
) {
    let run = simulated(&rt, alloc, old, &mut Serial::new());
    let mut asking = Asking::open(rt, 3);
    let beside = rerun(alloc, old, &run, wanted.design, &mut asking).expect(&rt, "a run");
    drop(run);
    check_run(&rt, wanted.design, &beside, wanted.run);
    equal(&rt, "asked beside", asking.asked(), (0, 0));
    drop(beside);
}

/// The runs of a random design in threads are those on one, and each asks so often for jobs, and for so many in all; none is asked for
/// beside an old run.
fn check<R: Threads + Abort + Copy + Drop + Sync>(
    rt: R,
    alloc: Global,
    seed: u64,
    rows: Rows,
    asked: (usize, usize),
)
    requires { 0 < rows.gates }
{
    let design = design_of(&rt, alloc, seed, rows);
    let run = simulated(&rt, alloc, &design, &mut Serial::new());
    let wanted = Wanted {
        design: &design,
        run: &run,
        asked,
    };
    check_workers(rt, alloc, 1, wanted);
    check_workers(rt, alloc, 2, wanted);
    check_workers(rt, alloc, 64, wanted);
    check_longer(rt, alloc, wanted);
    let old = design_of(&rt, alloc, seed.wrapping_add(9), rows);
    check_beside(rt, alloc, &old, wanted);
    drop(old);
    drop(run);
    drop(design);
}

// 240 gates with 1,100 points an input: 16 may help, and then the line of each gate is taken.
#[test]
fn rows_that_are_done_in_threads(rt: HostRuntime) {
    let rows = Rows {
        gates: 80,
        points: 1_100,
    };
    for seed in [1, 2] {
        check(rt, rt.alloc(), seed, rows, (241, 256));
    }
}

#[test]
fn rows_that_have_little_to_do(rt: HostRuntime) {
    let rows = Rows {
        gates: 80,
        points: 5,
    };
    check(rt, rt.alloc(), 4, rows, (0, 0));
}
