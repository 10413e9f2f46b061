//! What a refused commit leaves, names that no net has, and texts of faults.

use super::opened::{check, check_commit, open};
use crate::compare::equal;
use bench::{Bench, CommitFault};
use edits::EditFault;
use gatestep::Stepper;
use std::alloc::Global;
use std::process::Abort;

const ONE_BUFFER: [&str; 5] = [
    "horizon 10",
    "input a",
    "net y wire",
    "gate g buf 5 5 y a",
    "stim a 0 0",
];

const BUFFER: [&str; 4] = ["input a", "net y wire", "gate g buf 3 3 y a", "horizon 30"];

/// Three commits, which let a short pulse come to the buffer.
fn send_pulse<S: Stepper + Drop>(rt: &impl Abort, alloc: Global, bench: &mut Bench<S>) {
    check_commit(rt, alloc, bench, &["stim a 0 0"], Ok(1));
    check_commit(rt, alloc, bench, &["stim a 10 1"], Ok(2));
    check_commit(rt, alloc, bench, &["stim a 12 0"], Ok(3));
}

const THIRD_REFUSED: [&str; 5] = [
    "stim a 20 1",
    "stim a 25 0",
    "delay g 0 3",
    "horizon 50",
    "stim a 30 1",
];

#[test]
fn refused_edit(rt: HostRuntime) {
    let mut bench = open(&rt, rt.alloc(), &BUFFER);
    send_pulse(&rt, rt.alloc(), &mut bench);
    check(&rt, rt.alloc(), &bench, "y", " 0:x 3:0");
    let refused = Err(CommitFault::Edit(2, EditFault::ZeroDelay));
    check_commit(&rt, rt.alloc(), &mut bench, &THIRD_REFUSED, refused);
    check(&rt, rt.alloc(), &bench, "y", " 0:x 3:0");
    check(&rt, rt.alloc(), &bench, "a", " 0:0 10:1 12:0");
    equal(&rt, "version", bench.snapshot().version(), 3);
    equal(&rt, "horizon", bench.snapshot().horizon(), 30);
    drop(bench);
}

#[test]
fn no_such_net(rt: HostRuntime) {
    let bench = open(&rt, rt.alloc(), &ONE_BUFFER);
    assert!(rt; bench.snapshot().wave("g").is_none());
    assert!(rt; bench.snapshot().wave("").is_none());
    drop(bench);
}

#[test]
fn texts_of_faults(rt: HostRuntime) {
    let fault = CommitFault::Edit(2, EditFault::ZeroDelay);
    let text = format!(in rt.alloc(); "{fault}").expect(&rt, "a text");
    equal(&rt, "text", text.as_str(), "edit 2: zero delay");
}
