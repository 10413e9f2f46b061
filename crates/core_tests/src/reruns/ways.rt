//! Runs that follow what differs up to a limit, and go on through the whole design then: at each limit, and beside it.

ghost use Rattle.gatestep.specs.Step.{advance};
ghost use Rattle.scratch.specs.kept.Run.{IsRun};

use super::plain::rows;
use super::random::check_run;
use crate::calls::{changed, followed, rerun, simulated};
use crate::compare::equal;
use crate::counting::Counting;
use crate::edit_lists::edit_lines::{edit, edits, made_of};
use design::Design;
use gatestep::Serial;
use resim::Limit;
use std::alloc::Global;
use std::process::Abort;
use waveform::Run;

/// What a commit asks of a stepper that is dealt no step: the steps and tasks of the moments at which what differs is followed,
/// and the tasks of those at which the whole design is gone through.
pub type Asked = (u64, u64, u64);

/// A commit to a design, and what it asks from which limit on.
#[derive(Clone, Copy)]
struct Case<'a> {
    name: &'a str,
    first: &'a [&'a str],
    edits: &'a [&'a str],
    asked: &'a [(u64, Asked)],
}

/// What the commit asks at this limit, or without one. The run is that of the reference implementation.
pub fn asked_at(
    rt: &impl Abort,
    alloc: Global,
    old: &Design,
    run: &Run,
    lines: &[&str],
    limit: Option<Limit>,
) -> Asked
    requires { IsRun advance old.now run.now }
{
    let edits = edits(rt, alloc, lines);
    let (new, touched) = changed(alloc, old, &edits).expect(rt, "accepted edits");
    let mut stepper = Counting::new(usize::MAX);
    let made = match limit {
        Some(limit) => followed(rt, alloc, old, run, &new, &touched, limit, &mut stepper),
        None => rerun(rt, alloc, old, run, &new, &touched, &mut stepper),
    };
    let wanted = rows(rt, alloc, &new);
    check_run(rt, &new, &made, wanted.as_slice());
    drop(wanted);
    drop(made);
    drop(new);
    drop(touched);
    drop(edits);
    stepper.asked()
}

/// What is wanted at this limit.
fn wanted_at(case: &Case<'_>, limit: u64) -> Option<Asked> {
    let mut wanted = None;
    for (least, asked) in case.asked {
        if *least <= limit {
            wanted = Some(*asked);
        }
    }
    wanted
}

fn check(rt: &impl Abort, alloc: Global, case: &Case<'_>) {
    let old = made_of(rt, alloc, edits(rt, alloc, case.first));
    let run = simulated(rt, alloc, &old, &mut Serial::new());
    for limit in 0..40 {
        let at = Some(Limit::Looks(limit));
        let asked = asked_at(rt, alloc, &old, &run, case.edits, at);
        equal(rt, (case.name, limit), Some(asked), wanted_at(case, limit));
    }
    drop(run);
    drop(old);
}

// The gate g is asked at 10 and 11, h at 11 and 12, g again at 12. The point of r at 0, which both designs have, is leapt past.
// Looked at are r, q and g at 10; both nets and both gates at 11.
const LATCH: Case<'static> = Case {
    name: "a latch reset",
    first: &[
        "input s",
        "input r",
        "net q wire",
        "net p wire",
        "gate g nor 1 1 q r p",
        "gate h nor 1 1 p s q",
        "stim s 0 1",
        "stim r 0 0",
        "stim s 5 0",
        "stim r 10 0",
        "horizon 20",
    ],
    edits: &["stim r 10 1"],
    asked: &[(0, (1, 1, 4)), (4, (2, 3, 2)), (8, (3, 5, 0))],
};

// The gate h is asked at 0, 2 and 3, g at 3 and 4: then o is 0 and n is 1 for ever, and the old run goes on. Looked at are o and h
// at 0, h at 2, both nets and both gates at 3.
const RING: Case<'static> = Case {
    name: "another kind of gate in a ring",
    first: &[
        "input en",
        "net n wire",
        "net o wire",
        "gate g nand 2 1 n en o",
        "gate h buf 1 1 o n",
        "stim en 0 0",
        "stim en 4 1",
        "horizon 14",
    ],
    edits: &["type h not"],
    asked: &[
        (0, (1, 1, 4)),
        (3, (2, 2, 3)),
        (4, (3, 4, 1)),
        (8, (4, 5, 0)),
    ],
};

#[test]
fn each_limit(rt: HostRuntime) {
    for case in [LATCH, RING] {
        check(&rt, rt.alloc(), &case);
    }
}

/// So many rings, of which the first one has an input of its own.
fn rings(rt: &impl Abort, alloc: Global, count: u64) -> Design {
    let first = [
        "input a",
        "input b",
        "net n0 wire",
        "gate g0 nand 1 1 n0 a n0",
        "stim a 0 0",
        "stim a 5 1",
        "stim b 0 0",
        "stim b 5 1",
        "horizon 400",
    ];
    let mut edits = edits(rt, alloc, &first);
    for n in 1..count {
        let net = format!(in alloc; "net n{n} wire").expect(rt, "a line");
        let gate = format!(in alloc; "gate g{n} nand 1 1 n{n} b n{n}").expect(rt, "a line");
        let net = edit(rt, alloc, net.as_str());
        let gate = edit(rt, alloc, gate.as_str());
        edits.push(net).expect(rt, "one edit more");
        edits.push(gate).expect(rt, "one edit more");
    }
    made_of(rt, alloc, edits)
}

/// What it asks that the first one of so many rings swings a moment later.
fn asked_of_rings(rt: &impl Abort, alloc: Global, count: u64) -> Asked {
    let old = rings(rt, alloc, count);
    let run = simulated(rt, alloc, &old, &mut Serial::new());
    let asked = asked_at(
        rt,
        alloc,
        &old,
        &run,
        &["unstim a 5", "stim a 6 1"],
        Some(Limit::Cost),
    );
    drop(run);
    drop(old);
    asked
}

// The old run keeps 397 states of each ring's gate and 4 points, and what differs is asked for at each moment from 6 on: 395 times. Before
// 5 the stimulus is the same, and nothing is looked at. Looked at are a, n0 and g0 at 5 and 6; n0 and g0 at each moment behind it. A look
// counts as 15 states, so a moment of two looks as 30, of which a run from scratch keeps not quite one for each ring. The excess comes to
// a fifth of all states after the moments 6, 43 and 158, beside one ring, ten and twenty. Beside 26 rings it never does, and beside 31
// there is none.
const BESIDE_RINGS: [(u64, Asked); 5] = [
    (1, (1, 1, 394)),
    (10, (38, 38, 357)),
    (20, (153, 153, 242)),
    (26, (395, 395, 0)),
    (31, (395, 395, 0)),
];

#[test]
fn where_looks_cost_too_much(rt: HostRuntime) {
    for (count, asked) in BESIDE_RINGS {
        equal(&rt, count, asked_of_rings(&rt, rt.alloc(), count), asked);
    }
}

/// A buffer whose input has a pulse at 10, and 80 points from 100 on.
fn pulses(rt: &impl Abort, alloc: Global) -> Design {
    let first = [
        "input a",
        "net y wire",
        "gate g buf 3 3 y a",
        "stim a 0 0",
        "stim a 10 1",
        "stim a 20 0",
        "horizon 1000",
    ];
    let mut edits = edits(rt, alloc, &first);
    for n in 10..50u64 {
        let up = n.wrapping_mul(10);
        let down = up.wrapping_add(5);
        let up = format!(in alloc; "stim a {up} 1").expect(rt, "a line");
        let down = format!(in alloc; "stim a {down} 0").expect(rt, "a line");
        let up = edit(rt, alloc, up.as_str());
        let down = edit(rt, alloc, down.as_str());
        edits.push(up).expect(rt, "one edit more");
        edits.push(down).expect(rt, "one edit more");
    }
    made_of(rt, alloc, edits)
}

// Nothing differs from 23 to 900. Were the gate looked at meanwhile, or the input at each of its points, then there would be more
// looks than the limit, and the whole design would be gone through.
#[test]
fn what_no_longer_differs(rt: HostRuntime) {
    let old = pulses(&rt, rt.alloc());
    let run = simulated(&rt, rt.alloc(), &old, &mut Serial::new());
    let lines = ["unstim a 10", "stim a 900 1"];
    let limit = Some(Limit::Looks(60));
    let asked = asked_at(&rt, rt.alloc(), &old, &run, &lines, limit);
    equal(&rt, "asked", asked, (2, 2, 0));
    drop(run);
    drop(old);
}
