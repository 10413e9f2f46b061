//! Which nets differ between two snapshots.

use super::opened::open;
use crate::compare::equal;
use bench::Snapshot;
use devices::{Device, Sink, Writer};
use differences::{Room, differences};
use std::alloc::Global;
use std::process::Abort;

fn write<W: Sink>(sink: &mut W, snapshot: &Snapshot, other: &Snapshot, room: &mut Room) {
    let mut writer = Writer::new(sink);
    differences(&mut writer, snapshot, other, room);
    let _result = writer.flush();
    let _sink = writer.finish();
}

/// The lines of the nets of `snapshot` that differ from `other`.
fn check(
    rt: &impl Abort,
    alloc: Global,
    snapshot: &Snapshot,
    other: &Snapshot,
    room: &mut Room,
    wanted: &[u8],
) {
    let mut device = Device::new(Vec::new(alloc));
    write(&mut device, snapshot, other, room);
    equal(rt, "lines", device.inner.as_slice(), wanted);
}

/// The lines of the nets of one design that differ from another one.
fn check_designs(rt: &impl Abort, alloc: Global, asked: &[&str], other: &[&str], wanted: &[u8]) {
    let mut room = Room::open(alloc).expect(rt, "a room");
    let new = open(rt, alloc, asked);
    let old = open(rt, alloc, other);
    check(rt, alloc, new.snapshot(), old.snapshot(), &mut room, wanted);
    drop(new);
    drop(old);
}

// The buffer's output has x up to 3, and then what the input had 3 earlier.
const AT_10: [&str; 6] = [
    "input a",
    "net y wire",
    "gate g buf 3 3 y a",
    "stim a 0 0",
    "stim a 10 1",
    "horizon 30",
];

const AT_12: [&str; 6] = [
    "input a",
    "net y wire",
    "gate g buf 3 3 y a",
    "stim a 0 0",
    "stim a 12 1",
    "horizon 30",
];

#[test]
fn a_point_moved(rt: HostRuntime) {
    check_designs(&rt, rt.alloc(), &AT_10, &AT_12, b"a 10\ny 13\n");
    check_designs(&rt, rt.alloc(), &AT_12, &AT_10, b"a 10\ny 13\n");
}
