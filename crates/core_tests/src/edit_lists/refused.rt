//! Which edit of a long list is refused, and the numbers and names of the causes.

use crate::compare::equal;
use crate::edit_lists::edit_lines::{design_of, edit, outcome};
use design::Design;
use edits::EditFault::{
    BadName, DelayTooLarge, DrivenInput, DuplicateName, NetInUse, NoSuchPoint, NoTurnOff, NotInput,
    TimeTooLarge, TooMany, UnknownGate, UnknownNet, WrongArity, ZeroDelay,
};
use edits::{Edit, EditFault};
use std::alloc::Global;
use std::process::Abort;

const DESIGN: [&str; 3] = ["input a", "net y wire", "gate g buf 3 3 y a"];

fn add_horizons(rt: &impl Abort, list: &mut Vec<Edit>, count: u64) {
    for time in 0..count {
        list.push(Edit::Horizon { time })
            .expect(rt, "one edit more");
    }
}

/// Edits that are accepted, then the edit of a line, then edits that are accepted.
fn between(rt: &impl Abort, alloc: Global, before: u64, line: &str, behind: u64) -> Vec<Edit> {
    let edit = edit(rt, alloc, line);
    let mut list = Vec::new(alloc);
    add_horizons(rt, &mut list, before);
    list.push(edit).expect(rt, "one edit more");
    add_horizons(rt, &mut list, behind);
    list
}

const LONG_LISTS: [(u64, &str, u64, Option<(usize, EditFault)>); 4] = [
    (4095, "drop k", 0, Some((4095, UnknownGate))),
    (4096, "drop k", 0, Some((4096, TooMany))),
    (4096, "horizon 5", 3, Some((4096, TooMany))),
    (7, "horizon 1099511627777", 5000, Some((7, TimeTooLarge))),
];

fn check_long_lists(rt: &impl Abort, alloc: Global, design: &Design) {
    for (before, line, behind, want) in LONG_LISTS {
        let list = between(rt, alloc, before, line, behind);
        equal(rt, line, outcome(alloc, design, &list), want);
        drop(list);
    }
}

// The edit behind as many as may be is one too many, whatever it is, unless an earlier one is refused.
#[test]
fn one_edit_too_many(rt: HostRuntime) {
    let design = design_of(&rt, rt.alloc(), &DESIGN);
    check_long_lists(&rt, rt.alloc(), &design);
    drop(design);
}

#[test]
fn numbers_and_names(rt: HostRuntime) {
    for (fault, code, name) in [
        (UnknownNet, 1, "UnknownNet"),
        (UnknownGate, 2, "UnknownGate"),
        (DuplicateName, 3, "DuplicateName"),
        (BadName, 4, "BadName"),
        (ZeroDelay, 5, "ZeroDelay"),
        (DelayTooLarge, 6, "DelayTooLarge"),
        (WrongArity, 7, "WrongArity"),
        (DrivenInput, 8, "DrivenInput"),
        (NotInput, 9, "NotInput"),
        (NetInUse, 10, "NetInUse"),
        (TimeTooLarge, 11, "TimeTooLarge"),
        (NoSuchPoint, 12, "NoSuchPoint"),
        (TooMany, 13, "TooMany"),
        (EditFault::OutOfMemory, 14, "OutOfMemory"),
        (NoTurnOff, 21, "NoTurnOff"),
    ] {
        equal(&rt, name, fault.code(), code);
        equal(&rt, code, fault.name(), name);
    }
}
