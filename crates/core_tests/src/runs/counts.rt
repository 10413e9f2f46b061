//! How much a run asks of its stepper.

use crate::calls::simulated;
use crate::compare::equal;
use crate::counting::Counting;
use crate::edit_lists::edit_lines::design_of;
use crate::twenty::twenty;
use design::Design;
use std::alloc::Global;
use std::process::Abort;

/// The run of the design asks this of a stepper that deals the steps of so many tasks.
fn check_kind(
    rt: &impl Abort,
    alloc: Global,
    design: &Design,
    least_dealt: usize,
    asked: (u64, u64, u64),
) {
    let mut stepper = Counting::new(least_dealt);
    let run = simulated(rt, alloc, design, &mut stepper);
    drop(run);
    equal(rt, ("asked", least_dealt), stepper.asked(), asked);
}

/// The run of the design asks for so many steps, and for so many tasks in them all; where no step is dealt, for all of them alone.
fn check(rt: &impl Abort, alloc: Global, lines: &[&str], steps: u64, tasks: u64) {
    let design = design_of(rt, alloc, lines);
    check_kind(rt, alloc, &design, 0, (steps, tasks, 0));
    check_kind(rt, alloc, &design, usize::MAX, (0, 0, tasks));
    drop(design);
}

/// A buffer whose input goes up at 10, down at 20 and up at 40: evaluated at 0, there, and 3 after each.
fn four_edges(horizon: &'static str) -> [&'static str; 8] {
    [
        "input a",
        "net y wire",
        "gate g buf 3 3 y a",
        "stim a 0 0",
        "stim a 10 1",
        "stim a 20 0",
        "stim a 40 1",
        horizon,
    ]
}

// What happens decides how much is asked, and not how long it takes.
#[test]
fn a_gate_is_evaluated_where_it_is_stirred(rt: HostRuntime) {
    check(&rt, rt.alloc(), &four_edges("horizon 1000"), 8, 8);
    check(&rt, rt.alloc(), &four_edges("horizon 1099511627776"), 8, 8);
}

/// The same buffer up to the last moment that a horizon can have, with this point behind that at 0.
fn late_rise(point: &'static str) -> [&'static str; 6] {
    [
        "input a",
        "net y wire",
        "gate g buf 3 3 y a",
        "stim a 0 0",
        point,
        "horizon 1099511627776",
    ]
}

// At 0 and 3, at the rise, and at the last moment, where its event is due; an event behind that moment asks nothing.
#[test]
fn up_to_the_last_moment(rt: HostRuntime) {
    check(&rt, rt.alloc(), &late_rise("stim a 1099511627773 1"), 4, 4);
    check(&rt, rt.alloc(), &late_rise("stim a 1099511627774 1"), 3, 3);
}

// At 5 the input has a point, and no other value: evaluated at 0, 3, 10 and 13.
const A_POINT_THAT_CHANGES_NOTHING: [&str; 7] = [
    "input a",
    "net y wire",
    "gate g buf 3 3 y a",
    "stim a 0 0",
    "stim a 5 0",
    "stim a 10 1",
    "horizon 100",
];

// Two gates at the same moment are two tasks of one step: g at 0, 1, 5, 6, 7, 8, 9; h at 0, 1, where n gets 1, at 3, where y
// does, and at 6, 7, 8, 9.
const A_RING_AND_A_GATE_BEHIND_IT: [&str; 8] = [
    "input en",
    "net n wire",
    "net y wire",
    "gate g nand 1 1 n en n",
    "gate h buf 2 2 y n",
    "stim en 0 0",
    "stim en 5 1",
    "horizon 9",
];

#[test]
fn steps_and_tasks(rt: HostRuntime) {
    check(&rt, rt.alloc(), &A_POINT_THAT_CHANGES_NOTHING, 4, 4);
    check(&rt, rt.alloc(), &A_RING_AND_A_GATE_BEHIND_IT, 8, 14);
    check(&rt, rt.alloc(), &["horizon 1000"], 0, 0);
}

#[test]
fn twenty_gates_at_a_moment(rt: HostRuntime) {
    let design = twenty(&rt, rt.alloc());
    check_kind(&rt, rt.alloc(), &design, 0, (7, 84, 0));
    check_kind(&rt, rt.alloc(), &design, 20, (4, 81, 3));
    check_kind(&rt, rt.alloc(), &design, 21, (1, 21, 63));
    drop(design);
}
