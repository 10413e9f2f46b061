//! What viewers see in a race.

use super::buffers::{DELAY, HORIZON, NETS};
use super::commits::{BUFFERS, Plan, are_edits, rise_after, value_after};
use crate::compare::equal;
use bench::Snapshot;
use crossbeam_channel::Receiver;
use design::Design;
use fourstate::{Value, delay};
use gatestep::Serial;
use hub::{HubName, Log, Receipt, Viewer};
use scratch::{simulate, wave_at};
use std::alloc::Global;
use std::process::Abort;
use std::sync::{Arc, Wait};

/// How many commits of each editor a snapshot has.
#[derive(Clone, Copy)]
pub struct Counts {
    pub first: u64,
    pub second: u64,
}

/// A viewer that has looked again and again, what each look had, and how many looks were wrong.
#[derive(Drop)]
pub struct Watched<J: HubName> {
    pub viewer: Viewer<J>,
    pub looks: Vec<Counts>,
    pub wrong: u64,
}

pub fn look<J: HubName>(rt: &impl Abort, viewer: &mut Viewer<J>) -> Arc<Snapshot> {
    viewer.look().expect(rt, "a snapshot")
}

/// A viewer looks as often as planned. Before each look it learns of a commit whose receipt no viewer got yet, if there is one or
/// it waits for one.
pub fn watch<J: HubName, R: Wait + Abort>(
    rt: &R,
    alloc: Global,
    viewer: Viewer<J>,
    receipts: &Receiver<Receipt<J>>,
    plan: Plan,
) -> Watched<J> {
    let mut viewer = viewer;
    let mut looks = Vec::new(alloc);
    let mut last = look(rt, &mut viewer);
    let mut wrong = u64::from(!is_whole(&last) || !has_run(alloc, &last));
    for _look in 0..plan.looks {
        let version = learn(rt, &mut viewer, receipts, plan.waits);
        let next = look(rt, &mut viewer);
        if next.version() < version || !follows(alloc, &last, &next) {
            wrong = wrong.wrapping_add(1);
        }
        looks.push(counts_of(next.design())).expect(rt, "room");
        last = next;
    }
    drop(last);
    Watched {
        viewer,
        looks,
        wrong,
    }
}

// The version that the viewer learns of, or 0.
fn learn<J: HubName, R: Wait>(
    rt: &R,
    viewer: &mut Viewer<J>,
    receipts: &Receiver<Receipt<J>>,
    waits: bool,
) -> u64 {
    let receipt = if waits {
        receipts.recv(rt).ok()
    } else {
        receipts.try_recv(rt).ok()
    };
    match receipt {
        Some(receipt) => {
            let version = receipt.reply.unwrap_or(0);
            viewer.learn(receipt);
            version
        }
        None => 0,
    }
}

/// Whether a snapshot is that of a list of commits with at least those of an earlier one. The run of a list that is longer is
/// compared with a run from scratch.
fn follows(alloc: Global, last: &Snapshot, next: &Snapshot) -> bool {
    let before = counts_of(last.design());
    let now = counts_of(next.design());
    before.first <= now.first
        && before.second <= now.second
        && is_whole(next)
        && (next.version() == last.version() || has_run(alloc, next))
}

pub fn counts_of(design: &Design) -> Counts {
    Counts {
        first: count_of(design, BUFFERS[0]),
        second: count_of(design, BUFFERS[1]),
    }
}

// How many commits of the editor of this buffer a design has.
fn count_of(design: &Design, buffer: &str) -> u64 {
    let Some(place) = design.gate_place(buffer) else {
        return u64::MAX;
    };
    let rise = delay(&design.gate_at(place).delays(), Value::One);
    u64::from(rise).wrapping_sub(DELAY)
}

// Whether a snapshot has whole commits of the two editors alone, as many as its version says, and what follows from them.
fn is_whole(snapshot: &Snapshot) -> bool {
    let counts = counts_of(snapshot.design());
    snapshot.design().net_count() == NETS
        && snapshot.version() == counts.first.wrapping_add(counts.second)
        && has_wave(snapshot, "y", counts.first)
        && has_wave(snapshot, "z", counts.second)
}

// Whether the wave of a buffer's output is that after so many commits of its editor.
fn has_wave(snapshot: &Snapshot, net: &str, count: u64) -> bool {
    let Some(wave) = snapshot.wave(net) else {
        return false;
    };
    let changes = wave.changes();
    let Some(last) = changes.last() else {
        return false;
    };
    (changes.len(), last.time(), last.value()) == end_of_wave(count)
}

// How many changes it has, and the last one.
fn end_of_wave(count: u64) -> (usize, u64, Value) {
    let value = value_after(count);
    let time = if value == Value::One {
        rise_after(count)
    } else {
        DELAY
    };
    if count == 0 || time > HORIZON {
        (1, 0, Value::Unknown)
    } else {
        (2, time, value)
    }
}

// Whether each net has the wave that it has in a run of the design from scratch.
fn has_run(alloc: Global, snapshot: &Snapshot) -> bool {
    let design = snapshot.design();
    let Ok(run) = simulate(alloc, design, &mut Serial::new()) else {
        return false;
    };
    for place in 0..design.net_count() {
        if snapshot.wave_at(place).changes() != wave_at(design, &run, place).changes() {
            return false;
        }
    }
    true
}

/// A log has so many commits of each editor, in the order in which it made them, and no others. How many of the first editor are
/// among the first 0, 1, 2, .. of all.
pub fn firsts_of<J: HubName>(
    rt: &impl Abort,
    alloc: Global,
    log: &Log<J>,
    commits: u64,
) -> Vec<u64> {
    let mut firsts = Vec::new(alloc);
    let mut counts = [0u64; 2];
    firsts.push(0).expect(rt, "room");
    for entry in log.commits.iter() {
        let editor = entry.editor as usize;
        assert!(rt; editor < 2);
        counts[editor] = counts[editor].wrapping_add(1);
        let is_next = are_edits(entry.edits.as_slice(), editor, counts[editor]);
        equal(rt, "the next commit", is_next, true);
        firsts.push(counts[0]).expect(rt, "room");
    }
    equal(rt, "commits", counts, [commits, commits]);
    firsts
}

/// Whether a look had what is among the first commits of the log, as many as it had.
pub fn is_logged(counts: Counts, firsts: &[u64]) -> bool {
    let length = counts.first.wrapping_add(counts.second);
    match firsts.get(length as usize) {
        Some(first) => *first == counts.first,
        None => false,
    }
}
