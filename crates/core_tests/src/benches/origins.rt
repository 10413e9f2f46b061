//! What made nets change, and what their changes led to, worked out by hand.

ghost use Rattle.std.specs.Prelude.{◌<◌, length};

use super::opened::open;
use crate::compare::equal;
use bench::Snapshot;
use causes::{reach, why};
use devices::{Device, Sink, Writer};
use std::alloc::Global;
use std::process::Abort;

/// A net and a moment, what made the net change then, and what its change led to.
type Told<'a> = (&'a str, u64, &'a str, &'a str);

const NONE: &str = "none\n";

/// The place of a net in the order of the nets.
fn place_of(rt: &impl Abort, snapshot: &Snapshot, net: &str) -> usize
    ensures { result < length snapshot.now.design.nets }
{
    let place = snapshot
        .design()
        .net_place(net)
        .expect(rt, "a net of this name");
    assert!(rt; place < snapshot.design().net_count());
    place
}

/// Sends the lines of both questions, the second behind a line of a dash.
fn send<W: Sink>(rt: &impl Abort, snapshot: &Snapshot, net: &str, t: u64, sink: &mut W) {
    let place = place_of(rt, snapshot, net);
    assert!(rt; t <= snapshot.horizon());
    let mut writer = Writer::new(sink);
    why(&mut writer, snapshot, place, t);
    writer.text(b"-\n");
    reach(&mut writer, snapshot, place, t);
    let sent = writer.flush();
    let _sink = writer.finish();
    equal(rt, net, sent, Ok(()));
}

fn check_one(rt: &impl Abort, alloc: Global, snapshot: &Snapshot, told: Told<'_>) {
    let (net, t, made, led) = told;
    let mut device = Device::new(Vec::new(alloc));
    send(rt, snapshot, net, t, &mut device);
    let wanted = format!(in alloc; "{made}-\n{led}").expect(rt, "room");
    equal(rt, (net, t), device.inner.as_slice(), wanted.as_bytes());
    drop(wanted);
    drop(device);
}

/// In the run of the design that lines make, this is told.
fn check(rt: &impl Abort, alloc: Global, lines: &[&str], told: &[Told<'_>]) {
    let bench = open(rt, alloc, lines);
    for one in told {
        check_one(rt, alloc, bench.snapshot(), *one);
    }
    drop(bench);
}

// The input is 0 and, from 10 on, 1: the gate drives 1 from 2 on, and 0 from 13 on.
#[test]
fn an_inverter(rt: HostRuntime) {
    let lines = [
        "input a",
        "net y wire",
        "gate g not 2 3 y a",
        "stim a 0 0",
        "stim a 10 1",
        "horizon 30",
    ];
    let told = [
        ("a", 0, "stimulus\n", "g 2 y 1\n"),
        ("a", 1, NONE, NONE),
        ("a", 10, "stimulus\n", "g 13 y 0\n"),
        ("a", 13, NONE, NONE),
        ("y", 0, "beginning\n", ""),
        ("y", 1, NONE, NONE),
        ("y", 2, "g 0 a 0\n", ""),
        ("y", 10, NONE, NONE),
        ("y", 13, "g 10 a 1\n", ""),
        ("y", 30, NONE, NONE),
    ];
    check(&rt, rt.alloc(), &lines, &told);
}
