//! Orders of the gates of small designs, worked out by hand.

use crate::compare::equal;
use crate::edit_lists::edit_lines::design_of;
use ordering::{find_order, is_ordered};
use scratch::wire;
use std::alloc::Global;
use std::process::Abort;

/// A design, and the order that is found for it.
type Case<'a> = (&'a [&'a str], Option<&'a [u32]>);

fn check(rt: &impl Abort, alloc: Global, case: Case<'_>) {
    let (lines, wanted) = case;
    let design = design_of(rt, alloc, lines);
    let wiring = wire(alloc, &design).expect(rt, "room");
    let found = find_order(alloc, &design, &wiring).expect(rt, "room");
    let order = match &found {
        Some(order) => Some(order.as_slice()),
        None => None,
    };
    equal(rt, "order", order, wanted);
    drop(found);
    drop(wiring);
    drop(design);
}

const ORDERS: [Case<'static>; 5] = [
    (&["input a"], Some(&[])),
    (
        &[
            "input a",
            "net n wire",
            "net m wire",
            "gate g not 1 1 m n",
            "gate h not 1 1 n a",
        ],
        Some(&[1, 0]),
    ),
    // A net with two drivers, read twice by one gate.
    (
        &[
            "input a",
            "input b",
            "net n wire",
            "net m wire",
            "gate g and 1 1 m n n",
            "gate h bufif1 1 1 n a b",
            "gate i bufif0 1 1 n a 1'b1",
        ],
        Some(&[1, 2, 0]),
    ),
    // Two ways of different length from one net to one gate, and a net that nothing drives.
    (
        &[
            "input a",
            "net n wire",
            "net m wire",
            "net o wire",
            "net p wire",
            "gate g or 1 1 o a m p",
            "gate h not 1 1 m n",
            "gate i not 1 1 n a",
        ],
        Some(&[2, 1, 0]),
    ),
    (
        &[
            "net n wire",
            "net m wire",
            "gate g not 1 1 n 1'b0",
            "gate h not 1 1 m n",
        ],
        Some(&[0, 1]),
    ),
];

const LOOPS: [Case<'static>; 3] = [
    (&["net n wire", "gate g not 1 1 n n"], None),
    (
        &[
            "input a",
            "net n wire",
            "net m wire",
            "gate g nand 1 1 n a m",
            "gate h not 1 1 m n",
        ],
        None,
    ),
    // A gate behind a loop, and one before it.
    (
        &[
            "input a",
            "net k wire",
            "net n wire",
            "net m wire",
            "net o wire",
            "gate f not 1 1 k a",
            "gate g nand 1 1 n k m",
            "gate h not 1 1 m n",
            "gate i not 1 1 o m",
        ],
        None,
    ),
];

#[test]
fn orders_of_gates(rt: HostRuntime) {
    for case in &ORDERS {
        check(&rt, rt.alloc(), *case);
    }
}

#[test]
fn loops_have_no_order(rt: HostRuntime) {
    for case in &LOOPS {
        check(&rt, rt.alloc(), *case);
    }
}

const CHAIN: [&str; 7] = [
    "input a",
    "net n wire",
    "net m wire",
    "net o wire",
    "gate g not 1 1 m n",
    "gate h not 1 1 n a",
    "gate i not 1 1 o m",
];

const TRIALS: [(&[u32], bool); 8] = [
    (&[1, 0, 2], true),
    (&[0, 1, 2], false),
    (&[1, 2, 0], false),
    (&[1, 0], false),
    (&[1, 0, 2, 1], false),
    (&[1, 1, 0, 2], false),
    (&[1, 0, 3], false),
    (&[], false),
];

#[test]
fn orders_that_are_none(rt: HostRuntime) {
    let alloc = rt.alloc();
    let design = design_of(&rt, alloc, &CHAIN);
    let wiring = wire(alloc, &design).expect(&rt, "room");
    for (order, wanted) in &TRIALS {
        let answer = is_ordered(alloc, &design, &wiring, order).expect(&rt, "room");
        equal(&rt, "in order", answer, *wanted);
    }
    drop(wiring);
    drop(design);
}
