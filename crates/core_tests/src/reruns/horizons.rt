//! Other horizons, and differences that never end.

use super::rows::{Case, check_all};

// The output goes up at 13, down at 23 and up at 43.
const PULSES: [&str; 7] = [
    "input a",
    "net y wire",
    "gate g buf 3 3 y a",
    "stim a 0 0",
    "stim a 10 1",
    "stim a 20 0",
    "stim a 40 1",
];

const EARLIER: [Case<'static>; 3] = [
    Case {
        name: "earlier",
        first: &PULSES,
        horizon: 1000,
        edits: &["horizon 42"],
        waves: &[("y", " 0:x 3:0 13:1 23:0"), ("a", " 0:0 10:1 20:0 40:1")],
        tasks: 0,
    },
    Case {
        name: "at 0",
        first: &PULSES,
        horizon: 1000,
        edits: &["horizon 0"],
        waves: &[("y", " 0:x"), ("a", " 0:0")],
        tasks: 0,
    },
    // The gate is new: at 0, 4, 10, 14, 20 and 24.
    Case {
        name: "earlier, and other delays",
        first: &PULSES,
        horizon: 1000,
        edits: &["delay g 4 4", "horizon 30"],
        waves: &[("y", " 0:x 4:0 14:1 24:0")],
        tasks: 6,
    },
];

#[test]
fn earlier_horizons(rt: HostRuntime) {
    check_all(&rt, rt.alloc(), &EARLIER);
}

// The event that is pending at the old horizon, and what follows.
const LATER: [Case<'static>; 4] = [
    Case {
        name: "from 42",
        first: &PULSES,
        horizon: 42,
        edits: &["horizon 1000"],
        waves: &[
            ("y", " 0:x 3:0 13:1 23:0 43:1"),
            ("a", " 0:0 10:1 20:0 40:1"),
        ],
        tasks: 1,
    },
    Case {
        name: "from 15",
        first: &PULSES,
        horizon: 15,
        edits: &["horizon 1000"],
        waves: &[
            ("y", " 0:x 3:0 13:1 23:0 43:1"),
            ("a", " 0:0 10:1 20:0 40:1"),
        ],
        tasks: 4,
    },
    Case {
        name: "from 0",
        first: &PULSES,
        horizon: 0,
        edits: &["horizon 1000"],
        waves: &[
            ("y", " 0:x 3:0 13:1 23:0 43:1"),
            ("a", " 0:0 10:1 20:0 40:1"),
        ],
        tasks: 7,
    },
    // In one list: only what differs up to the old horizon, and all behind it. At 20 and 23 nothing happens any more, and at 40
    // the point changes nothing.
    Case {
        name: "later, and another point",
        first: &PULSES,
        horizon: 25,
        edits: &["horizon 1000", "unstim a 20"],
        waves: &[("y", " 0:x 3:0 13:1")],
        tasks: 0,
    },
];

#[test]
fn later_horizons(rt: HostRuntime) {
    check_all(&rt, rt.alloc(), &LATER);
}

const LOOPS: [Case<'static>; 2] = [
    // The ring swings a moment later from 6 on, for ever.
    Case {
        name: "a ring out of step",
        first: &[
            "input en",
            "net n wire",
            "gate g nand 1 1 n en n",
            "stim en 0 0",
            "stim en 5 1",
        ],
        horizon: 9,
        edits: &["unstim en 5", "stim en 6 1"],
        waves: &[("n", " 0:x 1:1 7:0 8:1 9:0")],
        tasks: 4,
    },
    // The latch is reset at 10: g at 10 and 11, h at 11 and 12, g again at 12.
    Case {
        name: "a latch reset",
        first: &[
            "input s",
            "input r",
            "net q wire",
            "net p wire",
            "gate g nor 1 1 q r p",
            "gate h nor 1 1 p s q",
            "stim s 0 1",
            "stim r 0 0",
            "stim s 5 0",
            "stim r 10 0",
        ],
        horizon: 20,
        edits: &["stim r 10 1"],
        waves: &[("q", " 0:x 2:1 11:0"), ("p", " 0:x 1:0 12:1")],
        tasks: 5,
    },
];

#[test]
fn loops(rt: HostRuntime) {
    check_all(&rt, rt.alloc(), &LOOPS);
}
