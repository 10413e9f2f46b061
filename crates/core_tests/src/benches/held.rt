//! Snapshots that are held.

use super::opened::{check, check_wave, commit, open};
use crate::compare::equal;
use bench::{Bench, Snapshot};
use gatestep::{Serial, Stepper};
use std::alloc::Global;
use std::process::Abort;
use std::sync::Arc;

const BUFFER: [&str; 5] = [
    "input a",
    "net y wire",
    "gate g buf 3 3 y a",
    "stim a 0 0",
    "horizon 30",
];

/// Commits that turn the input on and off again.
fn commit_often<S: Stepper + Drop>(rt: &impl Abort, alloc: Global, bench: &mut Bench<S>) {
    for _ in 0..50 {
        let on = commit(rt, alloc, bench, &["stim a 10 1"]);
        assert!(rt; on.is_ok());
        let off = commit(
            rt,
            alloc,
            bench,
            &["unstim a 10", "drop g", "gate g not 1 1 y a"],
        );
        assert!(rt; off.is_ok());
    }
}

fn hold<S: Stepper + Drop>(rt: &impl Abort, bench: &Bench<S>) -> Arc<Snapshot> {
    Arc::try_clone(bench.snapshot()).expect(rt, "one owner more")
}

#[test]
fn after_a_hundred_commits(rt: HostRuntime) {
    let mut bench = open(&rt, rt.alloc(), &BUFFER);
    let held = hold(&rt, &bench);
    commit_often(&rt, rt.alloc(), &mut bench);
    equal(&rt, "version", bench.snapshot().version(), 100);
    check(&rt, rt.alloc(), &bench, "y", " 0:x 1:1");
    equal(&rt, "version", held.version(), 0);
    check_wave(&rt, rt.alloc(), &held, "y", " 0:x 3:0");
    drop(bench);
    check_wave(&rt, rt.alloc(), &held, "a", " 0:0");
    drop(held);
}

/// The waves of the nets in the order of the design.
#[test]
fn waves_by_place(rt: HostRuntime) {
    let bench = open(&rt, rt.alloc(), &BUFFER);
    check_places(&rt, bench.snapshot());
    drop(bench);
}

fn check_places(rt: &impl Abort, snapshot: &Snapshot) {
    assert!(rt; snapshot.design().net_count() == 2);
    equal(
        rt,
        "number of changes",
        snapshot.wave_at(0).changes().len(),
        1,
    );
    equal(
        rt,
        "number of changes",
        snapshot.wave_at(1).changes().len(),
        2,
    );
}

fn may_cross<T: Send>(value: T) -> T {
    value
}

fn may_be_shared<T: Sync>(value: &T) -> &T {
    value
}

// A bench may go to another thread, and a snapshot be read by several.
#[test]
fn across_threads(rt: HostRuntime) {
    let bench: Bench<Serial> = may_cross(open(&rt, rt.alloc(), &BUFFER));
    let held = may_cross(hold(&rt, &bench));
    equal(&rt, "version", may_be_shared(&held).version(), 0);
    drop(held);
    drop(bench);
}
