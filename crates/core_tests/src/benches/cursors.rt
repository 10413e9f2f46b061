//! Cursors, moved by hand.

ghost use Rattle.std.specs.Prelude.{◌<◌};
ghost use Rattle.waveform.specs.declared.times.TheConstants.{TIME_END};

use super::opened::open;
use crate::compare::equal;
use bench::{Bench, Cursor};
use fourstate::Value;
use gatestep::Serial;
use std::alloc::Global;
use std::process::Abort;
use waveform::Change;

const PULSE: [&str; 7] = [
    "input a",
    "net y wire",
    "gate g buf 3 3 y a",
    "stim a 0 0",
    "stim a 10 1",
    "stim a 13 0",
    "horizon 100",
];

fn change(time: u64, value: Value) -> Option<Change>
    requires { time < TIME_END }
{
    Some(Change::new(time, value))
}

fn stand(rt: &impl Abort, cursor: &Cursor<'_>, time: u64, value: Value) {
    equal(rt, "time", cursor.time(), time);
    equal(rt, "value", cursor.value(), value);
}

// y changes to x at 0, to 0 at 3, to 1 at 13 and to 0 at 16.
fn go_on(rt: &impl Abort, cursor: &mut Cursor<'_>) {
    stand(rt, cursor, 0, Value::Unknown);
    equal(rt, "change behind", cursor.next(), change(3, Value::Zero));
    stand(rt, cursor, 3, Value::Zero);
    equal(rt, "change behind", cursor.next(), change(13, Value::One));
    equal(rt, "change behind", cursor.next(), change(16, Value::Zero));
    equal(rt, "change behind", cursor.next(), None);
    stand(rt, cursor, 16, Value::Zero);
}

fn go_back(rt: &impl Abort, cursor: &mut Cursor<'_>) {
    equal(rt, "change before", cursor.prev(), change(13, Value::One));
    equal(rt, "change before", cursor.prev(), change(3, Value::Zero));
    equal(
        rt,
        "change before",
        cursor.prev(),
        change(0, Value::Unknown),
    );
    equal(rt, "change before", cursor.prev(), None);
    stand(rt, cursor, 0, Value::Unknown);
}

fn find(rt: &impl Abort, cursor: &mut Cursor<'_>) {
    equal(
        rt,
        Value::Zero,
        cursor.find(Value::Zero),
        change(3, Value::Zero),
    );
    equal(
        rt,
        Value::Zero,
        cursor.find(Value::Zero),
        change(16, Value::Zero),
    );
    equal(rt, Value::One, cursor.find(Value::One), None);
    stand(rt, cursor, 16, Value::Zero);
}

fn cursor_on<'a>(rt: &impl Abort, bench: &'a Bench<Serial>, net: &str) -> Cursor<'a> {
    Cursor::open(bench.snapshot(), net).expect(rt, "a net of this name")
}

#[test]
fn moves(rt: HostRuntime) {
    let bench = open(&rt, rt.alloc(), &PULSE);
    let mut cursor = cursor_on(&rt, &bench, "y");
    go_on(&rt, &mut cursor);
    go_back(&rt, &mut cursor);
    find(&rt, &mut cursor);
    drop(bench);
}

/// The cursor stands at the moment `t`, from where it is moved.
fn stand_at(rt: &impl Abort, cursor: &mut Cursor<'_>, t: u64) {
    assert!(rt; t <= cursor.horizon());
    cursor.set(t);
}

#[test]
fn from_a_moment(rt: HostRuntime) {
    let bench = open(&rt, rt.alloc(), &PULSE);
    let mut cursor = cursor_on(&rt, &bench, "y");
    look_round(&rt, &mut cursor);
    drop(bench);
}

fn look_round(rt: &impl Abort, cursor: &mut Cursor<'_>) {
    stand_at(rt, cursor, 12);
    equal(rt, "value", cursor.value(), Value::Zero);
    stand_at(rt, cursor, 3);
    equal(
        rt,
        "change before",
        cursor.prev(),
        change(0, Value::Unknown),
    );
    stand_at(rt, cursor, 16);
    equal(rt, "change behind", cursor.next(), None);
    equal(rt, "time", cursor.time(), 16);
    stand_at(rt, cursor, 100);
    equal(rt, "change before", cursor.prev(), change(16, Value::Zero));
}

#[test]
fn no_such_net(rt: HostRuntime) {
    let bench = open(&rt, rt.alloc(), &PULSE);
    assert!(rt; Cursor::open(bench.snapshot(), "g").is_none());
    drop(bench);
}
