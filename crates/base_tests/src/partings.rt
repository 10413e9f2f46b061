//! Where two waves part and meet, and look-ups that go on from the one before, worked out by hand.

use crate::compare::equal;
use crate::timelines::pulse;
use fourstate::Value;
use std::alloc::Global;
use std::process::Abort;
use waveform::Wave;

/// The wave `0 x / 3 0 / 5 1 / 6 0 / 13 1 / 16 0`: that of `pulse` with a pulse more.
fn two_pulses(rt: &impl Abort, alloc: Global) -> Wave {
    let mut wave = Wave::open(alloc, Value::Unknown).expect(rt, "room");
    wave.push(3, Value::Zero).expect(rt, "room");
    wave.push(5, Value::One).expect(rt, "room");
    wave.push(6, Value::Zero).expect(rt, "room");
    wave.push(13, Value::One).expect(rt, "room");
    wave.push(16, Value::Zero).expect(rt, "room");
    wave
}

/// The wave `0 x / 4 0 / 14 1 / 17 0`: each change of `pulse` comes a moment later.
fn later_pulse(rt: &impl Abort, alloc: Global) -> Wave {
    let mut wave = Wave::open(alloc, Value::Unknown).expect(rt, "room");
    wave.push(4, Value::Zero).expect(rt, "room");
    wave.push(14, Value::One).expect(rt, "room");
    wave.push(17, Value::Zero).expect(rt, "room");
    wave
}

#[test]
fn where_waves_part_and_meet(rt: HostRuntime) {
    let wave = pulse(&rt, rt.alloc());
    let same = pulse(&rt, rt.alloc());
    let more = two_pulses(&rt, rt.alloc());
    let later = later_pulse(&rt, rt.alloc());
    for (name, other, parting, meeting) in [
        ("the same", &same, None, Some(0)),
        ("a pulse more", &more, Some(5), Some(13)),
        ("each change later", &later, Some(3), None),
    ] {
        equal(&rt, name, wave.parting(other), parting);
        equal(&rt, name, other.parting(&wave), parting);
        equal(&rt, name, wave.meeting(other), meeting);
        equal(&rt, name, other.meeting(&wave), meeting);
    }
    drop(wave);
    drop(same);
    drop(more);
    drop(later);
}

// From wherever the look-up before ended, or from a place that says nothing, the value is that of the wave.
#[test]
fn looks_near_the_one_before(rt: HostRuntime) {
    let wave = pulse(&rt, rt.alloc());
    let mut near = 0;
    for (t, value) in [
        (2, Value::Unknown),
        (3, Value::Zero),
        (15, Value::One),
        (16, Value::Zero),
        (0, Value::Unknown),
    ] {
        equal(&rt, t, wave.at_near(&mut near, t), value);
    }
    near = 100;
    equal(&rt, "past the end", wave.at_near(&mut near, 13), Value::One);
    drop(wave);
}
