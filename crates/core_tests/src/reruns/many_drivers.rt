//! Nets of about as many drivers as make a run count their values, in place of resolving them one by one, beside a former run.

use super::ways::{Asked, asked_at};
use crate::calls::simulated;
use crate::compare::equal;
use crate::edit_lists::edit_lines::{edit, edits, made_of};
use design::Design;
use gatestep::Serial;
use resim::Limit;
use std::alloc::Global;
use std::process::Abort;

// Of so many drivers g0 has an input of its own. The net is 0 from 1 on, x from 6 on and 1 from 11 on; y follows 2 later.
fn design_of(rt: &impl Abort, alloc: Global, count: u64) -> Design {
    let first = [
        "input a",
        "input b",
        "net n wire",
        "net y wire",
        "gate h buf 2 2 y n",
        "gate g0 buf 1 1 n b",
        "stim a 0 0",
        "stim a 10 1",
        "stim b 0 0",
        "stim b 5 1",
        "horizon 20",
    ];
    let mut edits = edits(rt, alloc, &first);
    for number in 1..count {
        let line = format!(in alloc; "gate g{number} buf 1 1 n a").expect(rt, "a line");
        let edit = edit(rt, alloc, line.as_str());
        edits.push(edit).expect(rt, "one edit more");
    }
    made_of(rt, alloc, edits)
}

/// Commits, and what each asks: a driver that is edited, at the points of b and where its events are due; h where n changes in
/// another way than before, and where its event is due then.
const COMMITS: [(&str, Asked); 5] = [
    ("stim b 5 z", (2, 2, 0)),
    ("unstim b 5", (2, 2, 0)),
    ("drop g0", (2, 2, 0)),
    ("gate k not 1 1 n b", (4, 4, 0)),
    ("kind n wor", (2, 2, 0)),
];

/// The run is that of the reference implementation, and as much is asked whatever the number of drivers.
fn check(rt: &impl Abort, alloc: Global, count: u64) {
    let old = design_of(rt, alloc, count);
    let run = simulated(rt, alloc, &old, &mut Serial::new());
    for (line, wanted) in COMMITS {
        let limit = Some(Limit::Looks(u64::MAX));
        let asked = asked_at(rt, alloc, &old, &run, &[line], limit);
        equal(rt, (count, line), asked, wanted);
    }
    drop(run);
    drop(old);
}

#[test]
fn about_sixteen_drivers(rt: HostRuntime) {
    for count in [15, 16, 17] {
        check(&rt, rt.alloc(), count);
    }
}
