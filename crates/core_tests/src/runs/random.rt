//! Runs of random designs with gates and nets of every kind, beside two reference implementations: the one of `reruns`, and
//! the one whose contract is the definition.

ghost use Rattle.std.specs.Prelude.{◌<◌, ◌≤◌};

use crate::calls::{simulated, simulated_in_order};
use crate::compare::equal;
use crate::counting::Counting;
use crate::dice::Dice;
use crate::edit_lists::edit_lines::{carried_out, empty, word};
use crate::reruns::plain::{Row, rows};
use crate::reruns::random::check_run;
use crate::runs::extended::longer;
use design::Design;
use edits::{Edit, Pin, Pins};
use fourstate::{DelayTimes, GateKind, NetKind, Value, takes_off};
use gatestep::Serial;
use ordering::find_order;
use scratch::plain::values;
use scratch::wire;
use std::alloc::Global;
use std::process::Abort;

/// More tasks than a moment has.
const NEVER_DEALT: usize = 1_000;

const INPUTS: [&str; 2] = ["a", "b"];

const NETS: [&str; 4] = ["n0", "n1", "n2", "n3"];

const BOTH: [&str; 6] = ["a", "b", "n0", "n1", "n2", "n3"];

const GATES: [&str; 7] = ["g0", "g1", "g2", "g3", "g4", "g5", "g6"];

const VALUES: [Value; 4] = [Value::Zero, Value::One, Value::Unknown, Value::HighZ];

fn point(rt: &impl Abort, alloc: Global, dice: &mut Dice, net: &str) -> Edit {
    let value = VALUES[dice.below(4) as usize];
    Edit::Stim {
        net: word(rt, alloc, net),
        time: dice.below(40),
        value,
    }
}

/// Pins at the first nets of all, as many as `among` says.
fn pins(rt: &impl Abort, alloc: Global, dice: &mut Dice, among: u64, count: u64) -> Pins
    requires few { among ≤ 6 }
    requires some { 0 < among }
{
    let mut pins = Pins::new(alloc);
    for _ in 0..count {
        let net = word(rt, alloc, BOTH[dice.below(among) as usize]);
        pins.push(Pin::Net(net)).expect(rt, "one pin more");
    }
    pins
}

/// A rise and a fall, and a turn-off delay for half the gates that take one.
fn delays(dice: &mut Dice, kind: GateKind) -> DelayTimes {
    let times = DelayTimes::new(1 + dice.below(5), 1 + dice.below(5));
    if takes_off(kind) && dice.below(2) == 0 {
        times.with_off(1 + dice.below(7))
    } else {
        times
    }
}

/// A gate of any kind; where it has to come in order, it reads inputs and nets that stand before the one that it drives.
fn gate(rt: &impl Abort, alloc: Global, dice: &mut Dice, name: &str, in_order: bool) -> Edit {
    let kind = GateKind::ALL[dice.below(12) as usize];
    let output = dice.below(4);
    let among = if in_order { 2 + output } else { 6 };
    let count = match kind {
        GateKind::Buf | GateKind::Not => 1,
        _ => 2,
    };
    Edit::AddGate {
        name: word(rt, alloc, name),
        kind,
        delays: delays(dice, kind),
        output: word(rt, alloc, NETS[output as usize]),
        inputs: pins(rt, alloc, dice, among, count),
    }
}

fn add(rt: &impl Abort, edits: &mut Vec<Edit>, edit: Edit) {
    edits.push(edit).expect(rt, "one edit more");
}

fn add_nets(rt: &impl Abort, alloc: Global, dice: &mut Dice, edits: &mut Vec<Edit>) {
    for net in NETS {
        let kind = NetKind::ALL[dice.below(8) as usize];
        let name = word(rt, alloc, net);
        add(rt, edits, Edit::AddNet { name, kind });
    }
    for net in INPUTS {
        let name = word(rt, alloc, net);
        add(rt, edits, Edit::AddInput { name });
    }
}

/// Nets and gates of any kind, six points for each input, and the horizon 60.
fn random_edits(rt: &impl Abort, alloc: Global, seed: u64, in_order: bool) -> Vec<Edit> {
    let mut dice = Dice(seed);
    let mut edits = Vec::new(alloc);
    add_nets(rt, alloc, &mut dice, &mut edits);
    for number in 0..12_usize {
        let point = point(rt, alloc, &mut dice, INPUTS[number % 2]);
        add(rt, &mut edits, point);
    }
    for name in GATES {
        let gate = gate(rt, alloc, &mut dice, name, in_order);
        add(rt, &mut edits, gate);
    }
    add(rt, &mut edits, Edit::Horizon { time: 60 });
    edits
}

/// The reference implementation of `scratch` has the values of the rows at each moment.
fn check_values(rt: &impl Abort, alloc: Global, design: &Design, rows: &[Row]) {
    let values = values(alloc, design, &mut Serial::new()).expect(rt, "the values");
    equal(rt, "number of values", values.len(), rows.len());
    for (values, row) in values.iter().zip(rows) {
        equal(rt, "values", values.as_slice(), row.values.as_slice());
    }
    drop(values);
}

fn check(rt: &impl Abort, alloc: Global, design: &Design) {
    let run = simulated(rt, alloc, design, &mut Serial::new());
    let rows = rows(rt, alloc, design);
    equal(rt, "number of rows", rows.len(), 61);
    check_values(rt, alloc, design, rows.as_slice());
    check_run(rt, design, &run, rows.as_slice());
    drop(rows);
    drop(run);
}

/// A design of random edits.
fn random_design(rt: &impl Abort, alloc: Global, seed: u64, in_order: bool) -> Design {
    let edits = random_edits(rt, alloc, seed, in_order);
    let start = empty(rt, alloc);
    let design = carried_out(rt, alloc, &start, &edits);
    drop(start);
    drop(edits);
    design
}

fn check_seed(rt: &impl Abort, alloc: Global, seed: u64) {
    let design = random_design(rt, alloc, seed, false);
    check(rt, alloc, &design);
    drop(design);
}

/// The gates of the design have an order.
fn check_order(rt: &impl Abort, alloc: Global, design: &Design) {
    let wiring = wire(alloc, design).expect(rt, "room");
    let order = find_order(alloc, design, &wiring).expect(rt, "room");
    equal(rt, "an order", order.is_some(), true);
    drop(order);
    drop(wiring);
}

/// A run gate after gate has the values of the rows, and asks as many tasks as the one moment after moment.
fn check_in_order(rt: &impl Abort, alloc: Global, seed: u64) {
    let design = random_design(rt, alloc, seed, true);
    check_order(rt, alloc, &design);
    let mut beside = Counting::new(NEVER_DEALT);
    drop(simulated(rt, alloc, &design, &mut beside));
    let mut stepper = Counting::new(NEVER_DEALT);
    let run = simulated_in_order(rt, alloc, &design, &mut stepper);
    equal(rt, (seed, "tasks"), stepper.tasks(rt), beside.tasks(rt));
    equal(rt, (seed, "went back"), stepper.went_back(), true);
    let rows = rows(rt, alloc, &design);
    check_run(rt, &design, &run, rows.as_slice());
    check_longer(rt, alloc, &design, rows.as_slice());
    drop(rows);
    drop(run);
    drop(design);
}

/// From each of these moments on a run goes on to the values of the rows: gate after gate where at least as many moments come.
/// That is seen where much is left to be asked.
fn check_longer(rt: &impl Abort, alloc: Global, design: &Design, rows: &[Row]) {
    let moments = [
        (0, Some(true)),
        (1, Some(true)),
        (30, None),
        (31, Some(false)),
        (60, Some(false)),
    ];
    for (horizon, went_back) in moments {
        let mut stepper = Counting::new(NEVER_DEALT);
        let run = longer(rt, alloc, design, horizon, &mut stepper);
        check_run(rt, design, &run, rows);
        drop(run);
        if let Some(went_back) = went_back {
            equal(rt, (horizon, "went back"), stepper.went_back(), went_back);
        }
    }
}

#[test]
fn a_run_gate_after_gate_has_the_values_of_each_moment(rt: HostRuntime) {
    for seed in [1, 2, 3, 5, 8, 13, 21, 34] {
        check_in_order(&rt, rt.alloc(), seed);
    }
}

#[test]
fn the_run_has_the_values_of_each_moment(rt: HostRuntime) {
    for seed in [1, 2, 3, 5, 8, 13, 21, 34] {
        check_seed(&rt, rt.alloc(), seed);
    }
}
