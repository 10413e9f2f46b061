//! Copies of edits, and a list of as many as may be.

use crate::compare::equal;
use crate::edit_lists::edit_lines::{carried_out, edit, edits, empty};
use design::Design;
use edits::{Edit, MAX_EDITS};
use std::alloc::Global;
use std::process::Abort;

const EDITS: [&str; 18] = [
    "drop g0",
    "drop g1",
    "drop h",
    "dropnet n",
    "net n wor",
    "gate g0 buf 1 1 n a",
    "gate g1 buf 1 1 n b",
    "gate h buf 1 1 q n",
    "horizon 4",
    "wire g y a 1'b0",
    "stim a 3 x",
    "unstim a 4",
    "delay g 1 2",
    "delay g 1 2/3",
    "gate h bufif0 4 5/6 n a b",
    "type g or",
    "input a",
    "kind n tri",
];

fn check_clone(rt: &impl Abort, alloc: Global, line: &str) {
    let edit = edit(rt, alloc, line);
    let copy = edit.try_clone().expect(rt, "a copy");
    let text = format!(in alloc; "{edit:?}").expect(rt, "its text");
    let same = format!(in alloc; "{copy:?}").expect(rt, "the text of the copy");
    equal(rt, "text", text.as_str(), same.as_str());
    drop(edit);
    drop(copy);
}

#[test]
fn clones(rt: HostRuntime) {
    for line in &EDITS {
        check_clone(&rt, rt.alloc(), line);
    }
}

/// An input, and then as many other edits as may be.
fn full_list(rt: &impl Abort, alloc: Global) -> Vec<Edit> {
    let mut list = edits(rt, alloc, &["input a"]);
    for time in 1..MAX_EDITS as u64 {
        list.push(Edit::Horizon { time })
            .expect(rt, "one edit more");
    }
    list
}

fn check(rt: &impl Abort, design: &Design, nets: usize, horizon: u64) {
    equal(rt, "number of nets", design.net_count(), nets);
    equal(rt, "number of gates", design.gate_count(), 0);
    equal(rt, "the net a", design.net("a").is_some(), nets == 1);
    equal(rt, "horizon", design.horizon(), horizon);
}

// What was given stays.
#[test]
fn as_many_edits_as_may_be(rt: HostRuntime) {
    let list = full_list(&rt, rt.alloc());
    let start = empty(&rt, rt.alloc());
    let design = carried_out(&rt, rt.alloc(), &start, &list);
    check(&rt, &design, 1, 4095);
    check(&rt, &start, 0, 0);
    drop(design);
    drop(start);
    drop(list);
}
