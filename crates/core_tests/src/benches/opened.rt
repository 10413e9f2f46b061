//! Benches of lines, and what their snapshots are asked.

use crate::compare::equal;
use crate::edit_lists::edit_lines::{design_of, edits};
use crate::waves::text_of;
use bench::{Bench, CommitFault, Snapshot};
use gatestep::{Serial, Stepper};
use std::alloc::Global;
use std::process::Abort;

/// A bench of the design that the edits of lines make.
pub fn open(rt: &impl Abort, alloc: Global, lines: &[&str]) -> Bench<Serial> {
    let design = design_of(rt, alloc, lines);
    Bench::open(alloc, design, Serial::new()).expect(rt, "a bench")
}

/// Commits the edits of lines.
pub fn commit<S: Stepper + Drop>(
    rt: &impl Abort,
    alloc: Global,
    bench: &mut Bench<S>,
    lines: &[&str],
) -> Result<u64, CommitFault> {
    let edits = edits(rt, alloc, lines);
    let reply = bench.commit(&edits);
    drop(edits);
    reply
}

/// A commit of the edits of lines has this reply.
pub fn check_commit<S: Stepper + Drop>(
    rt: &impl Abort,
    alloc: Global,
    bench: &mut Bench<S>,
    lines: &[&str],
    wanted: Result<u64, CommitFault>,
) {
    equal(rt, lines, commit(rt, alloc, bench, lines), wanted);
}

/// The net of this name has this wave in the snapshot.
pub fn check_wave(rt: &impl Abort, alloc: Global, snapshot: &Snapshot, net: &str, wanted: &str) {
    let wave = snapshot.wave(net).expect(rt, "a net of this name");
    let text = text_of(rt, alloc, wave);
    equal(rt, net, text.as_str(), wanted);
    drop(text);
}

/// The net of this name has this wave now.
pub fn check<S: Stepper + Drop>(
    rt: &impl Abort,
    alloc: Global,
    bench: &Bench<S>,
    net: &str,
    wanted: &str,
) {
    check_wave(rt, alloc, bench.snapshot(), net, wanted);
}
