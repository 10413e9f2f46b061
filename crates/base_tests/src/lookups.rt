//! Timelines that are looked up again and again: the values are worked out by hand.

use crate::compare::equal;
use crate::timelines::{LAST, fall_and_rise, late_changes, moving, pulse, standing};
use fourstate::Value;
use waveform::Lookup;

// `0 x / 3 0 / 13 1 / 16 0`: changes are passed over, a moment is asked for again, and time goes back.
#[test]
fn a_wave_looked_up_again(rt: HostRuntime) {
    let wave = pulse(&rt, rt.alloc());
    let mut lookup = Lookup::new(&wave);
    for (t, value) in [
        (0, Value::Unknown),
        (4, Value::Zero),
        (4, Value::Zero),
        (13, Value::One),
        (300, Value::Zero),
        (2, Value::Unknown),
        (15, Value::One),
    ] {
        equal(&rt, t, lookup.at(t), value);
    }
    drop(lookup);
    drop(wave);
}

// A wave that changes at the last moments that can be stored.
#[test]
fn a_wave_looked_up_to_the_last_moment(rt: HostRuntime) {
    let wave = late_changes(&rt, rt.alloc());
    let mut lookup = Lookup::new(&wave);
    for (t, value) in [
        (LAST - 2, Value::One),
        (LAST - 1, Value::Unknown),
        (LAST, Value::HighZ),
    ] {
        equal(&rt, t, lookup.at(t), value);
    }
    drop(lookup);
    drop(wave);
}

// The states of a driver of x that falls at 3 and, by an entry at 7, rises at 12.
#[test]
fn a_trace_looked_up_again(rt: HostRuntime) {
    let trace = fall_and_rise(&rt, rt.alloc());
    let falling = moving(Value::Unknown, Value::Zero, 3);
    let rising = moving(Value::Zero, Value::One, 12);
    let (low, high) = (standing(Value::Zero), standing(Value::One));
    let mut lookup = Lookup::new(&trace);
    for (t, state) in [(2, falling), (6, low), (6, low), (11, rising), (12, high)] {
        equal(&rt, t, lookup.at(t), state);
    }
    drop(lookup);
    drop(trace);
}
