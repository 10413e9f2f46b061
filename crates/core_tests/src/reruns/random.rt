//! Random lists of edits, one behind the other, over small designs: each run from the former one beside the reference
//! implementation and the count by the definition.

ghost use Rattle.std.specs.Prelude.{IfSome};
ghost use Rattle.edits.specs.kept.Touched.{IsTouched};
ghost use Rattle.gatestep.specs.Step.{advance};
ghost use Rattle.scratch.specs.kept.Run.{IsRun};

use super::definition::{Side, count};
use super::plain::{Row, rows};
use crate::calls;
use crate::compare::equal;
use crate::counting::Counting;
use crate::dice::Dice;
use crate::edit_lists::edit_lines::{design_of, edit};
use design::Design;
use edits::{Edit, EditFault, Touched, apply_all_with_touched};
use gatestep::Serial;
use resim::{Limit, rerun};
use scratch::{simulate, wave_named};
use std::alloc::Global;
use std::process::Abort;
use waveform::Run;

const INPUTS: [&str; 2] = ["a", "b"];

const NETS: [&str; 4] = ["n", "o", "p", "q"];

const GATES: [&str; 6] = ["g", "h", "i", "j", "k", "l"];

const NET_KINDS: [&str; 5] = ["wire", "wand", "wor", "tri0", "tri1"];

const KINDS: [&str; 6] = ["and", "nor", "xor", "nand", "bufif1", "notif0"];

const VALUES: [&str; 4] = ["0", "1", "x", "z"];

/// What stands behind a fall: mostly no turn-off delay, which the gates of some kinds refuse.
const OFFS: [&str; 4] = ["", "", "/1", "/7"];

fn input(dice: &mut Dice) -> &'static str {
    INPUTS[dice.below(2) as usize]
}

fn net(dice: &mut Dice) -> &'static str {
    NETS[dice.below(4) as usize]
}

fn pin(dice: &mut Dice) -> &'static str {
    match dice.below(9) {
        0 => "1'b1",
        1 | 2 | 3 => input(dice),
        _ => net(dice),
    }
}

fn gate(dice: &mut Dice) -> &'static str {
    GATES[dice.below(6) as usize]
}

fn kind(dice: &mut Dice) -> &'static str {
    KINDS[dice.below(6) as usize]
}

fn net_line(rt: &impl Abort, alloc: Global, dice: &mut Dice) -> String {
    let (name, kind) = (net(dice), NET_KINDS[dice.below(5) as usize]);
    match dice.below(5) {
        0 => format!(in alloc; "dropnet {name}").expect(rt, "a line"),
        1 | 2 => format!(in alloc; "kind {name} {kind}").expect(rt, "a line"),
        _ => format!(in alloc; "net {name} {kind}").expect(rt, "a line"),
    }
}

fn gate_line(rt: &impl Abort, alloc: Global, dice: &mut Dice) -> String {
    let (name, kind, output) = (gate(dice), kind(dice), net(dice));
    let (first, second) = (pin(dice), pin(dice));
    let (rise, fall) = (dice.below(5), 1 + dice.below(5));
    let off = OFFS[dice.below(4) as usize];
    match dice.below(8) {
        0 => format!(in alloc; "drop {name}").expect(rt, "a line"),
        1 => format!(in alloc; "type {name} {kind}").expect(rt, "a line"),
        2 | 3 => format!(in alloc; "delay {name} {rise} {fall}{off}").expect(rt, "a line"),
        4 => format!(in alloc; "wire {name} {output} {first} {second}").expect(rt, "a line"),
        _ => {
            format!(in alloc;
                "gate {name} {kind} {rise} {fall}{off} {output} {first} {second}"
            ).expect(rt, "a line")
        }
    }
}

fn time_line(rt: &impl Abort, alloc: Global, dice: &mut Dice) -> String {
    let (name, time) = (input(dice), dice.below(30));
    let value = VALUES[dice.below(4) as usize];
    match dice.below(8) {
        0 => format!(in alloc; "horizon {time}").expect(rt, "a line"),
        1 | 2 => format!(in alloc; "unstim {name} {time}").expect(rt, "a line"),
        _ => format!(in alloc; "stim {name} {time} {value}").expect(rt, "a line"),
    }
}

fn random_edit(rt: &impl Abort, alloc: Global, dice: &mut Dice) -> Edit {
    let line = match dice.below(5) {
        0 => net_line(rt, alloc, dice),
        1 | 2 => gate_line(rt, alloc, dice),
        _ => time_line(rt, alloc, dice),
    };
    edit(rt, alloc, line.as_str())
}

fn random_edits(rt: &impl Abort, alloc: Global, dice: &mut Dice) -> Vec<Edit> {
    let mut edits = Vec::new(alloc);
    for _ in 0..dice.below(4) {
        let edit = random_edit(rt, alloc, dice);
        edits.push(edit).expect(rt, "one edit more");
    }
    edits
}

/// How many changes the values of the net at a place have.
fn change_count(rt: &impl Abort, rows: &[Row], place: usize) -> usize {
    let mut count = 0_usize;
    let mut last = None;
    for row in rows {
        let value = row.values.get(place).copied();
        assert!(rt; value.is_some());
        if value != last {
            count = count.saturating_add(1);
        }
        last = value;
    }
    count
}

/// The wave of the net at a place has the values of the rows, and no more changes.
fn check_net(rt: &impl Abort, design: &Design, run: &Run, rows: &[Row], place: usize) {
    assert!(rt; place < design.net_count());
    let name = design.net_at(place).name().as_str();
    let wave = wave_named(design, run, name).expect(rt, "a wave of the net");
    for (t, row) in rows.iter().enumerate() {
        equal(
            rt,
            (name, t),
            Some(wave.at(t as u64)),
            row.values.get(place).copied(),
        );
    }
    equal(
        rt,
        name,
        wave.changes().len(),
        change_count(rt, rows, place),
    );
}

/// The trace of the gate at a place has the states of the rows.
fn check_gate(rt: &impl Abort, design: &Design, run: &Run, rows: &[Row], place: usize) {
    assert!(rt; place < design.gate_count());
    let gate = design.gate_at(place).name().as_str();
    let key = design.gate_key_at(place).number();
    let trace = run.trace(key).expect(rt, "a trace of the gate");
    for (t, row) in rows.iter().enumerate().skip(1) {
        let t = t as u64;
        assert!(rt; 0 < t);
        equal(
            rt,
            (gate, t),
            Some(trace.at(t - 1)),
            row.before.get(place).copied(),
        );
    }
}

pub fn check_run(rt: &impl Abort, design: &Design, run: &Run, rows: &[Row]) {
    equal(rt, "horizon", run.horizon(), design.horizon());
    equal(
        rt,
        "number of rows",
        Some(rows.len() as u64),
        design.horizon().checked_add(1),
    );
    for place in 0..design.net_count() {
        check_net(rt, design, run, rows, place);
    }
    for place in 0..design.gate_count() {
        check_gate(rt, design, run, rows, place);
    }
}

/// A design with its run.
#[derive(Drop)]
struct State {
    design: Design,
    run: Run,
}

/// What a run asked is what the definition counts, and it is the run of the reference implementation.
fn check(rt: &impl Abort, alloc: Global, old: &State, new: &State, tasks: u64) {
    let before = rows(rt, alloc, &old.design);
    let after = rows(rt, alloc, &new.design);
    check_run(rt, &new.design, &new.run, after.as_slice());
    let old_side = Side {
        design: &old.design,
        rows: before.as_slice(),
    };
    let new_side = Side {
        design: &new.design,
        rows: after.as_slice(),
    };
    equal(rt, "tasks", tasks, count(rt, old_side, new_side));
    drop(before);
    drop(after);
}

/// The run of the design from the former one: by the way that a commit takes, or by what differs up to a random limit.
fn run_beside(
    rt: &impl Abort,
    alloc: Global,
    dice: &mut Dice,
    old: &State,
    design: &Design,
    touched: &Touched,
    stepper: &mut Counting,
) -> Run
    requires run { IsRun advance old.now.design old.now.run }
    requires touched { IsTouched old.now.design design.now touched.now.nets.items touched.now.gates.items }
    ensures { IsRun advance design.now result }
{
    if design.horizon() != old.design.horizon() || dice.below(4) == 0 {
        return calls::rerun(rt, alloc, &old.design, &old.run, design, touched, stepper);
    }
    let looks = match dice.below(4) {
        0 => u64::MAX,
        _ => dice.below(24),
    };
    calls::followed(
        rt,
        alloc,
        &old.design,
        &old.run,
        design,
        touched,
        Limit::Looks(looks),
        stepper,
    )
}

/// The design with the edits and its run from the former one, and how much that asked; none where the edits are refused.
fn commit(
    rt: &impl Abort,
    alloc: Global,
    dice: &mut Dice,
    old: &State,
    edits: &[Edit],
) -> Option<(State, u64)>
    requires { IsRun advance old.now.design old.now.run }
    ensures { IfSome result (λ made. IsRun advance made.0.design made.0.run) }
{
    let (design, touched) = match apply_all_with_touched(alloc, &old.design, edits) {
        Ok(made) => made,
        Err((_, fault)) => {
            assert!(rt; fault != EditFault::OutOfMemory);
            return None;
        }
    };
    let mut stepper = Counting::new(0);
    let run = run_beside(rt, alloc, dice, old, &design, &touched, &mut stepper);
    drop(touched);
    Some((State { design, run }, stepper.tasks(rt)))
}

/// The same where what the edits touched is not known, and no step is dealt.
fn check_untold(rt: &impl Abort, alloc: Global, old: &State, new: &State, tasks: u64)
    requires { IsRun advance old.now.design old.now.run }
{
    let mut stepper = Counting::new(usize::MAX);
    let run = rerun(alloc, &old.design, &old.run, &new.design, &mut stepper).expect(rt, "a run");
    equal(rt, "tasks", stepper.tasks(rt), tasks);
    drop(run);
}

/// The state after some random edits; that before them where they are refused.
fn turn(rt: &impl Abort, alloc: Global, dice: &mut Dice, old: State, accepted: &mut u64) -> State
    requires { IsRun advance old.design old.run }
    ensures { IsRun advance result.design result.run }
{
    let edits = random_edits(rt, alloc, dice);
    let Some((new, tasks)) = commit(rt, alloc, dice, &old, edits.as_slice()) else {
        return old;
    };
    check(rt, alloc, &old, &new, tasks);
    check_untold(rt, alloc, &old, &new, tasks);
    *accepted = accepted.saturating_add(1);
    new
}

const FIRST: [&str; 8] = [
    "input a",
    "input b",
    "net n wire",
    "net o wire",
    "gate g nand 1 2 n a o",
    "gate h xor 2 1 o n b",
    "stim a 3 1",
    "horizon 25",
];

fn first(rt: &impl Abort, alloc: Global) -> State
    ensures { IsRun advance result.design result.run }
{
    let design = design_of(rt, alloc, &FIRST);
    let run = simulate(alloc, &design, &mut Serial::new()).expect(rt, "a run");
    State { design, run }
}

fn follow(rt: &impl Abort, alloc: Global, seed: u64) {
    let mut dice = Dice(seed);
    let mut accepted = 0;
    let mut state = first(rt, alloc);
    for _ in 0..1_600 {
        state = turn(rt, alloc, &mut dice, state, &mut accepted);
    }
    drop(state);
    assert!(rt; accepted > 500, "{accepted} of seed {seed}");
}

#[test]
fn two_thousand_commits(rt: HostRuntime) {
    for seed in [1, 2, 3, 5] {
        follow(&rt, rt.alloc(), seed);
    }
}
