//! Nets that are pulled where nothing drives them, beside a former run: a driver lets go, the last one is removed, a net gets
//! another kind.

use super::rows::{Case, check_all};

// The driver of n gives 1 from 1 on, and lets go at 11. What n then has reaches y at 13.
const LETTING_GO: [&str; 9] = [
    "input a",
    "input c",
    "net n tri0",
    "net y wire",
    "gate g bufif1 1 1 n a c",
    "gate h buf 2 2 y n",
    "stim a 0 1",
    "stim c 0 1",
    "stim c 10 0",
];

const DRIVEN: [Case<'static>; 5] = [
    // The driver at 20, and where its event is due; the gate behind it a moment later, and where its event is due.
    Case {
        name: "it drives again",
        first: &LETTING_GO,
        horizon: 30,
        edits: &["stim c 20 1"],
        waves: &[("n", " 0:x 1:1 11:0 21:1"), ("y", " 0:x 3:1 13:0 23:1")],
        tasks: 4,
    },
    // The driver at 8, and where its event is due; the gate behind it likewise, and neither where they did so before.
    Case {
        name: "it lets go earlier",
        first: &LETTING_GO,
        horizon: 30,
        edits: &["stim c 8 0"],
        waves: &[("n", " 0:x 1:1 9:0"), ("y", " 0:x 3:1 11:0")],
        tasks: 4,
    },
    // The gate behind the net at 0, and where its event is due.
    Case {
        name: "it is removed",
        first: &LETTING_GO,
        horizon: 30,
        edits: &["drop g"],
        waves: &[("n", " 0:0"), ("y", " 0:x 2:0")],
        tasks: 2,
    },
    // The gate behind the net reads z from 11 on.
    Case {
        name: "the net is pulled no more",
        first: &LETTING_GO,
        horizon: 30,
        edits: &["kind n wire"],
        waves: &[("n", " 0:x 1:1 11:z"), ("y", " 0:x 3:1 13:x")],
        tasks: 2,
    },
    // It stays 1 where the driver lets go, so nothing happens to a gate.
    Case {
        name: "the net is pulled up",
        first: &LETTING_GO,
        horizon: 30,
        edits: &["kind n tri1"],
        waves: &[("n", " 0:x 1:1"), ("y", " 0:x 3:1")],
        tasks: 0,
    },
];

// The gate reads the pull of a net that nothing drives.
const UNDRIVEN: [&str; 3] = ["net n tri0", "net y wire", "gate h buf 2 2 y n"];

const NOT_DRIVEN: [Case<'static>; 3] = [
    Case {
        name: "a net without a driver is pulled up",
        first: &UNDRIVEN,
        horizon: 10,
        edits: &["kind n tri1"],
        waves: &[("n", " 0:1"), ("y", " 0:x 2:1")],
        tasks: 2,
    },
    Case {
        name: "a net without a driver is pulled no more",
        first: &UNDRIVEN,
        horizon: 10,
        edits: &["kind n wire"],
        waves: &[("n", " 0:z"), ("y", " 0:x")],
        tasks: 1,
    },
    // The driver at 0, and where its event is due; the gate behind the net at 0, 1 and 3.
    Case {
        name: "it gets a driver",
        first: &UNDRIVEN,
        horizon: 10,
        edits: &["gate g buf 1 1 n 1'b1"],
        waves: &[("n", " 0:x 1:1"), ("y", " 0:x 3:1")],
        tasks: 5,
    },
];

#[test]
fn pulled_nets(rt: HostRuntime) {
    check_all(&rt, rt.alloc(), &DRIVEN);
    check_all(&rt, rt.alloc(), &NOT_DRIVEN);
}
