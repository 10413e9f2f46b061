//! What lists of edits touch.

use crate::compare::equal;
use crate::edit_lists::edit_lines::{design_of, edits};
use design::{Design, GateKey, NetKey};
use edits::apply_all_with_touched;
use std::alloc::Global;
use std::process::Abort;

/// A list of edits, and the nets and the gates that it touches: a name for the one that had it before the list, and
/// `+` and a name for the one that has it after.
type Case<'a> = (&'a [&'a str], &'a [&'a str], &'a [&'a str]);

fn net_of(rt: &impl Abort, old: &Design, new: &Design, word: &str) -> NetKey {
    match word.strip_prefix('+') {
        Some(name) => new.net(name).expect(rt, "a net of the new design"),
        None => old.net(word).expect(rt, "a net of the old design"),
    }
}

fn gate_of(rt: &impl Abort, old: &Design, new: &Design, word: &str) -> GateKey {
    match word.strip_prefix('+') {
        Some(name) => new.gate(name).expect(rt, "a gate of the new design"),
        None => old.gate(word).expect(rt, "a gate of the old design"),
    }
}

fn check_nets(rt: &impl Abort, old: &Design, new: &Design, nets: &[NetKey], want: &[&str]) {
    equal(rt, "number of nets", nets.len(), want.len());
    for (net, word) in nets.iter().zip(want) {
        equal(rt, word, *net, net_of(rt, old, new, word));
    }
}

fn check_gates(rt: &impl Abort, old: &Design, new: &Design, gates: &[GateKey], want: &[&str]) {
    equal(rt, "number of gates", gates.len(), want.len());
    for (gate, word) in gates.iter().zip(want) {
        equal(rt, word, *gate, gate_of(rt, old, new, word));
    }
}

fn check_case(rt: &impl Abort, alloc: Global, old: &Design, case: Case<'_>) {
    let (lines, nets, gates) = case;
    let edits = edits(rt, alloc, lines);
    let (new, touched) = apply_all_with_touched(alloc, old, &edits).expect(rt, "accepted edits");
    check_nets(rt, old, &new, &touched.nets, nets);
    check_gates(rt, old, &new, &touched.gates, gates);
    drop(new);
    drop(touched);
    drop(edits);
}

/// Each case of its own, over the design of the first edits.
fn check_cases(rt: &impl Abort, alloc: Global, first: &[&str], cases: &[Case<'_>]) {
    let old = design_of(rt, alloc, first);
    for case in cases {
        check_case(rt, alloc, &old, *case);
    }
    drop(old);
}

const BUFFER: [&str; 5] = [
    "input a",
    "net y wire",
    "net u wire",
    "gate g buf 3 3 y a",
    "stim a 3 1",
];

const EACH_EDIT: [Case<'static>; 12] = [
    (&["net n wor"], &["+n"], &[]),
    (&["input n"], &["+n"], &[]),
    (&["dropnet u"], &["u"], &[]),
    (&["kind y wand"], &["y"], &[]),
    (&["gate h and 1 2 u y a"], &["u"], &["+h"]),
    (&["drop g"], &["y"], &["g"]),
    (&["delay g 4 5"], &[], &["g"]),
    (&["type g not"], &[], &["g"]),
    (&["wire g u 1'b0"], &["y", "u"], &["g"]),
    (&["stim a 7 z"], &["a"], &[]),
    (&["unstim a 3"], &["a"], &[]),
    (&["horizon 9"], &[], &[]),
];

#[test]
fn each_edit(rt: HostRuntime) {
    check_cases(&rt, rt.alloc(), &BUFFER, &EACH_EDIT);
}

const LISTS: [Case<'static>; 4] = [
    (&[], &[], &[]),
    // Undone in the same list.
    (
        &["kind y wand", "delay g 4 5", "delay g 3 3", "kind y wire"],
        &["y", "y"],
        &["g", "g"],
    ),
    (
        &["wire g u a", "wire g y a"],
        &["y", "u", "u", "y"],
        &["g", "g"],
    ),
    // The name of a net that goes is given to a new one.
    (&["dropnet u", "net u wor"], &["u", "+u"], &[]),
];

#[test]
fn lists(rt: HostRuntime) {
    check_cases(&rt, rt.alloc(), &BUFFER, &LISTS);
}

const TWO_DRIVERS: [&str; 7] = [
    "input a",
    "input b",
    "net q wire",
    "net n wire",
    "gate g0 buf 1 1 n a",
    "gate g1 buf 1 1 n b",
    "gate h buf 1 1 q n",
];

const NET_REPLACED: [Case<'static>; 1] = [(
    &[
        "drop g0",
        "drop g1",
        "drop h",
        "dropnet n",
        "net n wor",
        "gate g0 buf 1 1 n a",
        "gate g1 buf 1 1 n b",
        "gate h buf 1 1 q n",
    ],
    &["n", "n", "q", "n", "+n", "+n", "+n", "q"],
    &["g0", "g1", "h", "+g0", "+g1", "+h"],
)];

/// The inputs are not touched, and the net that is replaced is touched as the old one and as the new one.
#[test]
fn net_replaced_with_its_gates(rt: HostRuntime) {
    check_cases(&rt, rt.alloc(), &TWO_DRIVERS, &NET_REPLACED);
}

/// A net and a gate that come and go in one list are touched, and have no key of the design.
fn check_passing(rt: &impl Abort, alloc: Global, old: &Design) {
    let lines = ["net n wire", "gate h buf 1 1 n a", "drop h", "dropnet n"];
    let edits = edits(rt, alloc, &lines);
    let (new, touched) = apply_all_with_touched(alloc, old, &edits).expect(rt, "accepted edits");
    equal(rt, "number of nets", touched.nets.len(), 4);
    equal(rt, "number of gates", touched.gates.len(), 2);
    for net in &touched.nets {
        assert!(rt; new.net_place_of(*net).is_none());
    }
    for gate in &touched.gates {
        assert!(rt; new.gate_place_of(*gate).is_none());
    }
    drop(new);
    drop(touched);
    drop(edits);
}

#[test]
fn net_and_gate_that_come_and_go(rt: HostRuntime) {
    let old = design_of(&rt, rt.alloc(), &BUFFER);
    check_passing(&rt, rt.alloc(), &old);
    drop(old);
}
