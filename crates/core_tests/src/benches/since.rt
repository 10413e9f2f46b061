//! Since which version nets have their waves.

use super::opened::{commit, open};
use crate::compare::equal;
use bench::Bench;
use gatestep::Serial;
use std::alloc::Global;
use std::process::Abort;

/// Two buffers, and a ring that runs from moment 10 on, beside which an edit of them is small.
const LINES: [&str; 14] = [
    "horizon 400",
    "input a",
    "input b",
    "input e",
    "net y wire",
    "net z wire",
    "net r wire",
    "gate g buf 3 3 y a",
    "gate h buf 3 3 z b",
    "gate o nand 1 1 r e r",
    "stim a 0 0",
    "stim b 0 0",
    "stim e 0 0",
    "stim e 10 1",
];

/// The nets of these names have their waves since these versions.
fn check_since(rt: &impl Abort, bench: &Bench<Serial>, wanted: &[(&str, u64)]) {
    let design = bench.snapshot().design();
    for (net, version) in wanted {
        let key = design.net(net).expect(rt, "a net of this name");
        let place = design.net_place_of(key).expect(rt, "its place");
        equal(rt, net, bench.since_at(place), *version);
    }
}

/// Makes a commit, after which nets have their waves since these versions, and names that no net has none since this one.
fn check_step(
    rt: &impl Abort,
    alloc: Global,
    bench: &mut Bench<Serial>,
    edits: &[&str],
    wanted: &[(&str, u64)],
    gone: u64,
) {
    assert!(rt; commit(rt, alloc, bench, edits).is_ok());
    check_since(rt, bench, wanted);
    equal(rt, "since when no net", bench.since_gone(), gone);
}

#[test]
fn versions_of_nets(rt: HostRuntime) {
    let mut bench = open(&rt, rt.alloc(), &LINES);
    check_since(&rt, &bench, &[("a", 0), ("y", 0), ("r", 0)]);
    // A point, which the net behind its input follows.
    check_step(
        &rt,
        rt.alloc(),
        &mut bench,
        &["stim a 20 1"],
        &[("a", 1), ("y", 1), ("b", 0), ("z", 0), ("e", 0), ("r", 0)],
        0,
    );
    // A net that loses its driver.
    check_step(
        &rt,
        rt.alloc(),
        &mut bench,
        &["drop h"],
        &[("a", 1), ("y", 1), ("b", 0), ("z", 2), ("r", 0)],
        0,
    );
    // A refused commit.
    assert!(rt; commit(&rt, rt.alloc(), &mut bench, &["stim b 5 1", "drop h"]).is_err());
    check_since(&rt, &bench, &[("a", 1), ("b", 0), ("z", 2)]);
    drop(bench);
}

#[test]
fn nets_that_come_and_go(rt: HostRuntime) {
    let mut bench = open(&rt, rt.alloc(), &LINES);
    check_step(
        &rt,
        rt.alloc(),
        &mut bench,
        &["drop h", "dropnet z"],
        &[("a", 0), ("b", 0), ("y", 0), ("r", 0)],
        1,
    );
    // The same name again.
    check_step(
        &rt,
        rt.alloc(),
        &mut bench,
        &["net z wire"],
        &[("a", 0), ("y", 0), ("r", 0), ("z", 2)],
        1,
    );
    // The commit of no edit.
    check_step(&rt, rt.alloc(), &mut bench, &[], &[("a", 0), ("z", 2)], 1);
    // Another horizon.
    check_step(
        &rt,
        rt.alloc(),
        &mut bench,
        &["horizon 401"],
        &[("a", 4), ("r", 4), ("z", 4)],
        4,
    );
    drop(bench);
}
