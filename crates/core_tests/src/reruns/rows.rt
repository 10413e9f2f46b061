//! What a run from a former one asks, counted by hand.

ghost use Rattle.gatestep.specs.Step.{advance};
ghost use Rattle.scratch.specs.kept.Run.{IsRun};

use crate::calls::{changed, followed, rerun, simulated};
use crate::compare::equal;
use crate::counting::Counting;
use crate::edit_lists::edit_lines::{edits, made_of};
use crate::twenty::twenty;
use crate::waves::{Named, check_waves};
use design::Design;
use edits::Edit;
use gatestep::Serial;
use resim::Limit;
use std::alloc::Global;
use std::process::Abort;
use waveform::Run;

/// A commit to a design: the lines that make the design and its horizon, those of the commit, the waves that nets have then,
/// and how many tasks that asks.
#[derive(Clone, Copy)]
pub struct Case<'a> {
    pub name: &'a str,
    pub first: &'a [&'a str],
    pub horizon: u64,
    pub edits: &'a [&'a str],
    pub waves: &'a [Named<'a>],
    pub tasks: u64,
}

pub fn design_of(rt: &impl Abort, alloc: Global, case: &Case<'_>) -> Design {
    let mut edits = edits(rt, alloc, case.first);
    let time = case.horizon;
    edits
        .push(Edit::Horizon { time })
        .expect(rt, "one edit more");
    made_of(rt, alloc, edits)
}

/// What the commit to the design, whose run is known, asks of the stepper.
fn check_beside(
    rt: &impl Abort,
    alloc: Global,
    old: &Design,
    run: &Run,
    case: &Case<'_>,
    stepper: &mut Counting,
)
    requires { IsRun advance old.now run.now }
{
    let edits = edits(rt, alloc, case.edits);
    let (new, touched) = changed(alloc, old, &edits).expect(rt, "accepted edits");
    let made = rerun(rt, alloc, old, run, &new, &touched, stepper);
    check_waves(rt, alloc, &new, &made, case.waves);
    drop(made);
    drop(new);
    drop(touched);
    drop(edits);
    equal(rt, case.name, stepper.tasks(rt), case.tasks);
}

fn check(rt: &impl Abort, alloc: Global, case: &Case<'_>) {
    let old = design_of(rt, alloc, case);
    let run = simulated(rt, alloc, &old, &mut Serial::new());
    check_beside(rt, alloc, &old, &run, case, &mut Counting::new(0));
    check_beside(rt, alloc, &old, &run, case, &mut Counting::new(usize::MAX));
    drop(run);
    drop(old);
}

pub fn check_all(rt: &impl Abort, alloc: Global, cases: &[Case<'_>]) {
    for case in cases {
        check(rt, alloc, case);
    }
}

const SLOW_BUFFER: [&str; 5] = [
    "input a",
    "net y wire",
    "gate g buf 5 5 y a",
    "stim a 0 0",
    "stim a 10 1",
];

const PULSES: [&str; 7] = [
    "input a",
    "net y wire",
    "gate g buf 3 3 y a",
    "stim a 0 0",
    "stim a 10 1",
    "stim a 20 0",
    "stim a 40 1",
];

const TWO_HALVES: [&str; 8] = [
    "input a",
    "input b",
    "net y wire",
    "net z wire",
    "gate g buf 3 3 y a",
    "gate h buf 3 3 z b",
    "stim a 0 0",
    "stim b 0 0",
];

const FAST_BUFFER: [&str; 4] = ["input a", "net y wire", "gate g buf 3 3 y a", "stim a 0 0"];

const LATE: [&str; 5] = [
    "input a",
    "net y wire",
    "gate g buf 3 3 y a",
    "stim a 0 0",
    "stim a 1099511627773 1",
];

const ONE_BUFFER: [&str; 4] = ["input a", "net y wire", "gate g buf 5 5 y a", "stim a 0 0"];

const TWO_BUFFERS: [&str; 9] = [
    "input a",
    "input b",
    "net q wire",
    "net n wire",
    "gate g0 buf 1 1 n a",
    "gate g1 buf 1 1 n b",
    "gate h buf 1 1 q n",
    "stim a 0 0",
    "stim b 0 1",
];

const LET_GO: [&str; 8] = [
    "input d",
    "input c",
    "net n wire",
    "gate g bufif1 2 3/5 n d c",
    "stim d 0 1",
    "stim c 0 1",
    "stim c 10 0",
    "stim c 20 x",
];

// The gate is another one, so it is evaluated wherever it is stirred: at 0, 10 and 20, where its control changes, and where
// each of its three events is due.
const TURN_OFF_DELAYS: [Case<'static>; 5] = [
    Case {
        name: "a turn-off delay taken away",
        first: &LET_GO,
        horizon: 30,
        edits: &["delay g 2 3"],
        waves: &[("n", " 0:x 2:1 12:z 22:x")],
        tasks: 6,
    },
    Case {
        name: "another turn-off delay",
        first: &LET_GO,
        horizon: 30,
        edits: &["delay g 6 7/4"],
        waves: &[("n", " 0:x 6:1 14:z 24:x")],
        tasks: 6,
    },
    Case {
        name: "a turn-off delay alone",
        first: &LET_GO,
        horizon: 30,
        edits: &["delay g 2 3/6"],
        waves: &[("n", " 0:x 2:1 16:z 22:x")],
        tasks: 6,
    },
    // Each change takes as long as before, and yet the gate has other delays.
    Case {
        name: "a turn-off delay that is the rise",
        first: &[
            "input d",
            "input c",
            "net n wire",
            "gate g bufif1 2 3 n d c",
            "stim d 0 1",
            "stim c 0 1",
            "stim c 10 0",
            "stim c 20 x",
        ],
        horizon: 30,
        edits: &["delay g 2 3/2"],
        waves: &[("n", " 0:x 2:1 12:z 22:x")],
        tasks: 6,
    },
    Case {
        name: "the same turn-off delay",
        first: &LET_GO,
        horizon: 30,
        edits: &["delay g 2 3/5"],
        waves: &[("n", " 0:x 2:1 15:z 22:x")],
        tasks: 0,
    },
];

#[test]
fn turn_off_delays(rt: HostRuntime) {
    check_all(&rt, rt.alloc(), &TURN_OFF_DELAYS);
}

const COMMITS: [Case<'static>; 10] = [
    // At 10 the gate isn't stirred any more; at 12 its input rises, at 17 its event is due.
    Case {
        name: "a point moved",
        first: &SLOW_BUFFER,
        horizon: 30,
        edits: &["unstim a 10", "stim a 12 1"],
        waves: &[("y", " 0:x 5:0 17:1")],
        tasks: 2,
    },
    // From 10 to 23 the gate differs, and nothing happens to it in the new run.
    Case {
        name: "a pulse taken away",
        first: &PULSES,
        horizon: 1000,
        edits: &["unstim a 10"],
        waves: &[("y", " 0:x 3:0 43:1")],
        tasks: 0,
    },
    Case {
        name: "the other half is not evaluated",
        first: &TWO_HALVES,
        horizon: 1000,
        edits: &["stim b 500 1"],
        waves: &[("z", " 0:x 3:0 503:1"), ("y", " 0:x 3:0")],
        tasks: 2,
    },
    // At the rise, and at the last moment, where its event is due.
    Case {
        name: "a late point set",
        first: &FAST_BUFFER,
        horizon: 1_099_511_627_776,
        edits: &["stim a 1099511627773 1"],
        waves: &[("y", " 0:x 3:0 1099511627776:1")],
        tasks: 2,
    },
    // At the rise alone: its event is due behind the last moment.
    Case {
        name: "a late point moved",
        first: &LATE,
        horizon: 1_099_511_627_776,
        edits: &["unstim a 1099511627773", "stim a 1099511627774 1"],
        waves: &[("y", " 0:x 3:0")],
        tasks: 1,
    },
    Case {
        name: "a late point",
        first: &LATE,
        horizon: 1_099_511_627_776,
        edits: &[],
        waves: &[("y", " 0:x 3:0 1099511627776:1")],
        tasks: 0,
    },
    // The new gate at 0 and where its event is due.
    Case {
        name: "a gate replaced",
        first: &ONE_BUFFER,
        horizon: 10,
        edits: &["drop g", "gate h not 2 2 y a"],
        waves: &[("y", " 0:x 2:1")],
        tasks: 2,
    },
    // What is undone in the same list is evaluated at no moment, though it was touched.
    Case {
        name: "edits that undo each other",
        first: &SLOW_BUFFER,
        horizon: 30,
        edits: &[
            "delay g 4 4",
            "kind y wand",
            "delay g 5 5",
            "kind y wire",
            "stim a 12 z",
            "unstim a 12",
        ],
        waves: &[("y", " 0:x 5:0 15:1")],
        tasks: 0,
    },
    // The gates are those of the old design by name. Both drivers are the same as before; h reads 1 from 1 on, and its event is
    // due at 2.
    Case {
        name: "a net replaced",
        first: &TWO_BUFFERS,
        horizon: 10,
        edits: &[
            "drop g0",
            "drop g1",
            "drop h",
            "dropnet n",
            "net n wor",
            "gate g0 buf 1 1 n a",
            "gate g1 buf 1 1 n b",
            "gate h buf 1 1 q n",
        ],
        waves: &[("n", " 0:x 1:1"), ("q", " 0:x 2:1")],
        tasks: 2,
    },
    // One of two drivers goes: what the other one drives is left, and neither driver is evaluated.
    Case {
        name: "a driver removed",
        first: &TWO_BUFFERS,
        horizon: 10,
        edits: &["drop g1"],
        waves: &[("n", " 0:x 1:0"), ("q", " 0:x 2:0")],
        tasks: 2,
    },
];

#[test]
fn commits_with_their_tasks(rt: HostRuntime) {
    check_all(&rt, rt.alloc(), &COMMITS);
}

// What moves from 10 to 12 stirs 20 gates there and a moment later, what moves from 20 to 25 one gate there and at 27.
const TWO_POINTS_MOVED: Case<'static> = Case {
    name: "two points moved",
    first: &[],
    horizon: 40,
    edits: &["unstim a 10", "stim a 12 1", "unstim b 20", "stim b 25 1"],
    waves: &[("y", " 0:x 1:1 13:0"), ("z", " 0:x 2:0 27:1")],
    tasks: 42,
};

// The same in a run that goes through the whole design, since three gates are touched.
const AND_GATES_TOUCHED: Case<'static> = Case {
    edits: &[
        "unstim a 10",
        "stim a 12 1",
        "unstim b 20",
        "stim b 25 1",
        "delay h 2 2",
        "delay g0 1 1",
        "delay g1 1 1",
    ],
    ..TWO_POINTS_MOVED
};

/// What the commit asks of a stepper that deals the steps of so many tasks, where all that differs is followed.
fn check_followed(
    rt: &impl Abort,
    alloc: Global,
    case: &Case<'_>,
    least_dealt: usize,
    asked: (u64, u64, u64),
) {
    let old = twenty(rt, alloc);
    let run = simulated(rt, alloc, &old, &mut Serial::new());
    let edits = edits(rt, alloc, case.edits);
    let (new, touched) = changed(alloc, &old, &edits).expect(rt, "accepted edits");
    let mut stepper = Counting::new(least_dealt);
    let limit = Limit::Looks(u64::MAX);
    let made = followed(rt, alloc, &old, &run, &new, &touched, limit, &mut stepper);
    check_waves(rt, alloc, &new, &made, case.waves);
    drop(made);
    drop(new);
    drop(touched);
    drop(edits);
    equal(rt, (case.name, least_dealt), stepper.asked(), asked);
    drop(run);
    drop(old);
}

/// What the commit asks of a stepper that deals the steps of so many tasks.
fn check_asked(
    rt: &impl Abort,
    alloc: Global,
    case: &Case<'_>,
    least_dealt: usize,
    asked: (u64, u64, u64),
) {
    let old = twenty(rt, alloc);
    let run = simulated(rt, alloc, &old, &mut Serial::new());
    let mut stepper = Counting::new(least_dealt);
    check_beside(rt, alloc, &old, &run, case, &mut stepper);
    equal(rt, (case.name, least_dealt), stepper.asked(), asked);
    drop(run);
    drop(old);
}

// A run that follows what differs makes steps in any case.
#[test]
fn twenty_gates_at_a_moment(rt: HostRuntime) {
    for least_dealt in [0, 20, 21] {
        check_followed(&rt, rt.alloc(), &TWO_POINTS_MOVED, least_dealt, (4, 42, 0));
    }
    for (least_dealt, asked) in [(0, (4, 42, 0)), (20, (2, 40, 2)), (21, (0, 0, 42))] {
        check_asked(&rt, rt.alloc(), &AND_GATES_TOUCHED, least_dealt, asked);
    }
}
