//! Waves, traces and runs, with their entries worked out by hand.

ghost use Rattle.std.specs.Prelude.{◌≡◌, ◌≢◌, ◌<◌, ◌≤◌, ℕ, Some, None};
ghost use Rattle.fourstate.specs.declared.value.Value as values;
ghost use Rattle.gatestep.specs.Step.{State, due};
ghost use Rattle.waveform.specs.Changes.{wave_changes_below};
ghost use Rattle.waveform.specs.kept.Changes.{trace_below};
ghost use Rattle.waveform.specs.kept.Timelines.{IsAlwaysSettled};

use crate::compare::equal;
use fourstate::Value;
use gatestep::Driver;
use std::alloc::Global;
use std::process::Abort;
use waveform::{Run, Sample, Timeline, Trace, TraceEntry, Wave, laws};

/// The value at a moment, which is that of the function whose changes the wave keeps.
fn value_at(wave: &Wave, t: u64) -> Value
    ensures { (f : ℕ → values.Value) (n : ℕ) → wave.now ≡ wave_changes_below f n → t < n → result ≡ f t }
{
    laws::value_of_changes::<Value>();
    wave.at(t)
}

/// The state after a moment, which is that of the function whose entries the trace keeps.
fn state_at(trace: &Trace, t: u64) -> Driver
    ensures { (f : ℕ → State) (n : ℕ) → IsAlwaysSettled due f → trace.now ≡ trace_below f n → t < n → result ≡ f t }
{
    laws::value_of_changes::<Driver>();
    trace.at(t)
}

/// The wave `0 x / 3 0 / 13 1 / 16 0`.
pub fn pulse(rt: &impl Abort, alloc: Global) -> Wave {
    let mut wave = Wave::open(alloc, Value::Unknown).expect(rt, "room");
    wave.push(3, Value::Zero).expect(rt, "room");
    wave.push(13, Value::One).expect(rt, "room");
    wave.push(16, Value::Zero).expect(rt, "room");
    wave
}

/// The wave has these changes.
pub fn check_changes(rt: &impl Abort, wave: &Wave, changes: &[(u64, Value)]) {
    equal(rt, "number of changes", wave.changes().len(), changes.len());
    for (change, (time, value)) in wave.changes().iter().zip(changes) {
        equal(rt, "time", change.time(), *time);
        equal(rt, "value", change.value(), *value);
    }
}

/// The trace has these entries.
pub fn check_entries(rt: &impl Abort, trace: &Trace, entries: &[(u64, Driver)]) {
    equal(
        rt,
        "number of entries",
        trace.entries().len(),
        entries.len(),
    );
    for (entry, (time, state)) in trace.entries().iter().zip(entries) {
        equal(rt, "time", entry.time(), *time);
        equal(rt, "state", entry.state(), *state);
    }
}

const PULSE: [(u64, Value); 4] = [
    (0, Value::Unknown),
    (3, Value::Zero),
    (13, Value::One),
    (16, Value::Zero),
];

#[test]
fn waves_keep_changes_alone(rt: HostRuntime) {
    let mut wave = pulse(&rt, rt.alloc());
    check_changes(&rt, &wave, &PULSE);
    equal(&rt, "last", wave.last(), (16, Value::Zero));
    wave.cut(13);
    check_changes(&rt, &wave, &PULSE[..3]);
    wave.cut(12);
    check_changes(&rt, &wave, &PULSE[..2]);
    drop(wave);
}

const LOOKED_UP: [(u64, Value); 7] = [
    (0, Value::Unknown),
    (2, Value::Unknown),
    (3, Value::Zero),
    (12, Value::Zero),
    (13, Value::One),
    (15, Value::One),
    (1000, Value::Zero),
];

fn check_values(rt: &impl Abort, wave: &Wave) {
    for (t, value) in LOOKED_UP {
        equal(rt, t, value_at(wave, t), value);
    }
}

/// The changes behind a moment of the pulse and before it.
fn check_neighbours(rt: &impl Abort, wave: &Wave) {
    for (t, next) in [
        (3, Some((13, Value::One))),
        (2, Some((3, Value::Zero))),
        (16, None),
    ] {
        equal(rt, t, wave.next_after(t), next);
    }
    for (t, last) in [
        (3, Some((0, Value::Unknown))),
        (4, Some((3, Value::Zero))),
        (0, None),
    ] {
        equal(rt, t, wave.last_before(t), last);
    }
}

/// The next change to a value.
fn check_next_values(rt: &impl Abort, wave: &Wave) {
    for (t, value, time) in [
        (0, Value::Zero, Some(3)),
        (3, Value::Zero, Some(16)),
        (0, Value::HighZ, None),
    ] {
        let next = time.map(|time| (time, value));
        equal(rt, t, wave.next_value(t, value), next);
    }
}

#[test]
fn waves_are_looked_up(rt: HostRuntime) {
    let wave = pulse(&rt, rt.alloc());
    check_values(&rt, &wave);
    check_neighbours(&rt, &wave);
    check_next_values(&rt, &wave);
    drop(wave);
}

#[test]
fn repeated_values_are_not_stored(rt: HostRuntime) {
    let mut wave = Wave::open(rt.alloc(), Value::Zero).expect(&rt, "room");
    wave.push(4, Value::Zero).expect(&rt, "room");
    wave.push(5, Value::One).expect(&rt, "room");
    wave.push(9, Value::One).expect(&rt, "room");
    check_changes(&rt, &wave, &[(0, Value::Zero), (5, Value::One)]);
    drop(wave);
}

/// The moment 2^40, and the last one that can be stored.
const LATE: u64 = 1_099_511_627_776;

pub const LAST: u64 = 1_152_920_351_685;

/// The wave `0 0 / 1099511627776 1 / 1152920351684 x / 1152920351685 z`.
pub fn late_changes(rt: &impl Abort, alloc: Global) -> Wave {
    let mut wave = Wave::open(alloc, Value::Zero).expect(rt, "room");
    wave.push(LATE, Value::One).expect(rt, "room");
    wave.push(LAST - 1, Value::Unknown).expect(rt, "room");
    wave.push(LAST, Value::HighZ).expect(rt, "room");
    wave
}

#[test]
fn a_wave_changes_at_the_last_moments(rt: HostRuntime) {
    let wave = late_changes(&rt, rt.alloc());
    let changes = [
        (0, Value::Zero),
        (LATE, Value::One),
        (LAST - 1, Value::Unknown),
        (LAST, Value::HighZ),
    ];
    check_changes(&rt, &wave, &changes);
    for (t, value) in [
        (LATE - 1, Value::Zero),
        (LATE, Value::One),
        (LAST, Value::HighZ),
    ] {
        equal(&rt, t, wave.at(t), value);
    }
    drop(wave);
}

/// The timeline with the values of another one from a moment to another.
fn spliced<V: Sample>(
    rt: &impl Abort,
    line: Timeline<V>,
    from: u64,
    to: u64,
    other: &Timeline<V>,
) -> Timeline<V>
    requires order { from ≤ to }
    requires within { to < 1000 }
{
    let mut line = line;
    line.splice(from, to, other).expect(rt, "room");
    line
}

/// The wave `0 0 / 5 1`.
fn rise(rt: &impl Abort, alloc: Global) -> Wave {
    let mut wave = Wave::open(alloc, Value::Zero).expect(rt, "room");
    wave.push(5, Value::One).expect(rt, "room");
    wave
}

#[test]
fn waves_are_spliced(rt: HostRuntime) {
    let unknown = Wave::open(rt.alloc(), Value::Unknown).expect(&rt, "room");
    let wave = spliced(&rt, rise(&rt, rt.alloc()), 3, 6, &unknown);
    let changes = [(0, Value::Zero), (3, Value::Unknown), (7, Value::One)];
    check_changes(&rt, &wave, &changes);
    drop(wave);
    drop(unknown);
}

/// The wave `0 z / 6 1 / 15 0`.
fn late_rise(rt: &impl Abort, alloc: Global) -> Wave {
    let mut wave = Wave::open(alloc, Value::HighZ).expect(rt, "room");
    wave.push(6, Value::One).expect(rt, "room");
    wave.push(15, Value::Zero).expect(rt, "room");
    wave
}

// From 0 on, over changes of its own, up to a moment after which the old value is the same.
#[test]
fn waves_are_spliced_over_changes_of_their_own(rt: HostRuntime) {
    let other = late_rise(&rt, rt.alloc());
    let wave = spliced(&rt, pulse(&rt, rt.alloc()), 0, 13, &other);
    let changes = [(0, Value::HighZ), (6, Value::One), (16, Value::Zero)];
    check_changes(&rt, &wave, &changes);
    drop(wave);
    drop(other);
}

/// The state of a driver that has this value, with nothing pending.
pub fn standing(value: Value) -> Driver
    ensures { result ≡ record { current = value; pending = None } }
{
    Driver::steady(value)
}

/// The state of a driver that has this value, and becomes the other one at `time`.
pub fn moving(value: Value, next: Value, time: u64) -> Driver
    requires { next ≢ value }
    ensures { result ≡ record { current = value; pending = Some (next, time) } }
{
    Driver::waiting(value, next, time)
}

/// A driver of x that falls at 3 and rises at 12: the fall is stored with the first entry, the rise is scheduled at 7.
pub fn fall_and_rise(rt: &impl Abort, alloc: Global) -> Trace {
    let falling = moving(Value::Unknown, Value::Zero, 3);
    let mut trace = Trace::open(alloc, falling).expect(rt, "room");
    trace.push(3, standing(Value::Zero)).expect(rt, "room");
    let rising = moving(Value::Zero, Value::One, 12);
    trace.push(7, rising).expect(rt, "room");
    trace
}

/// Its state at moments, and what the entries around them are.
fn check_states(rt: &impl Abort, trace: &Trace) {
    let falling = moving(Value::Unknown, Value::Zero, 3);
    let rising = moving(Value::Zero, Value::One, 12);
    let low = standing(Value::Zero);
    equal(rt, "state at", state_at(trace, 2), falling);
    for (t, state) in [(3, low), (6, low), (11, rising), (12, standing(Value::One))] {
        equal(rt, t, trace.at(t), state);
    }
    equal(rt, "next after", trace.next_after(0), Some((7, rising)));
    equal(rt, "last before", trace.last_before(7), Some((0, falling)));
    equal(rt, "next value", trace.next_value(0, low), None);
}

#[test]
fn a_due_event_has_no_entry(rt: HostRuntime) {
    let falling = moving(Value::Unknown, Value::Zero, 3);
    let mut trace = fall_and_rise(&rt, rt.alloc());
    let entries = [(0, falling), (7, moving(Value::Zero, Value::One, 12))];
    check_entries(&rt, &trace, &entries);
    check_states(&rt, &trace);
    trace.cut(6);
    equal(&rt, "last", trace.last(), (0, falling));
    drop(trace);
}

#[test]
fn an_entry_has_its_moment_and_its_state(rt: HostRuntime) {
    let rising = moving(Value::Zero, Value::One, 12);
    let entry = TraceEntry::new(7, rising);
    equal(&rt, "time", entry.time(), 7);
    equal(&rt, "state", entry.state(), rising);
}

/// A driver of 1 that goes to x the greatest delay after 2^40, and from there to z the greatest delay after the last moment.
fn late_events(rt: &impl Abort, alloc: Global) -> Trace {
    let mut trace = Trace::open(alloc, standing(Value::One)).expect(rt, "room");
    let unknown = moving(Value::One, Value::Unknown, 1_099_512_627_776);
    trace.push(LATE, unknown).expect(rt, "room");
    let floating = moving(Value::Unknown, Value::HighZ, 1_152_921_351_685);
    trace.push(LAST, floating).expect(rt, "room");
    trace
}

#[test]
fn a_trace_has_entries_at_the_last_moments(rt: HostRuntime) {
    let trace = late_events(&rt, rt.alloc());
    let unknown = moving(Value::One, Value::Unknown, 1_099_512_627_776);
    let floating = moving(Value::Unknown, Value::HighZ, 1_152_921_351_685);
    let entries = [(0, standing(Value::One)), (LATE, unknown), (LAST, floating)];
    check_entries(&rt, &trace, &entries);
    for (t, state) in [
        (LATE - 1, standing(Value::One)),
        (1_099_512_627_775, unknown),
        (1_099_512_627_776, standing(Value::Unknown)),
        (LAST - 1, standing(Value::Unknown)),
        (LAST, floating),
    ] {
        equal(&rt, t, trace.at(t), state);
    }
    drop(trace);
}

#[test]
fn a_spliced_trace_takes_over_what_is_pending(rt: HostRuntime) {
    let rising = moving(Value::Zero, Value::One, 12);
    let unknown = standing(Value::Unknown);
    let other = Trace::open(rt.alloc(), rising).expect(&rt, "room");
    let trace = Trace::open(rt.alloc(), unknown).expect(&rt, "room");
    let trace = spliced(&rt, trace, 4, 20, &other);
    for (t, state) in [
        (3, unknown),
        (4, rising),
        (12, standing(Value::One)),
        (20, standing(Value::One)),
        (21, unknown),
    ] {
        equal(&rt, t, trace.at(t), state);
    }
    equal(&rt, "number of entries", trace.entries().len(), 3);
    drop(trace);
    drop(other);
}

/// A net that has z all the time.
fn floating(rt: &impl Abort, alloc: Global) -> Wave {
    Wave::open(alloc, Value::HighZ).expect(rt, "room")
}

/// A driver that stays as it is before moment 0.
fn idle(rt: &impl Abort, alloc: Global) -> Trace {
    Trace::open(alloc, Driver::start()).expect(rt, "room")
}

/// A run up to 20 with a pulse under the key 300 and z under the key 2, and a trace under the key 300.
fn run_by_keys(rt: &impl Abort, alloc: Global) -> Run {
    let mut run = Run::new(alloc, 20);
    run.put_wave(300, pulse(rt, alloc)).expect(rt, "room");
    run.put_wave(2, floating(rt, alloc)).expect(rt, "room");
    run.put_trace(300, idle(rt, alloc)).expect(rt, "room");
    run
}

/// What the wave under a key has at 13.
fn value_under(run: &Run, key: usize) -> Option<Value> {
    Some(run.wave(key)?.at(13))
}

/// What the driver whose trace stands under a key gives at 13.
fn driven_under(run: &Run, key: usize) -> Option<Value> {
    Some(run.trace(key)?.at(13).current())
}

fn check_whole(rt: &impl Abort, run: &Run) {
    equal(
        rt,
        "wave under 300",
        value_under(run, 300),
        Some(Value::One),
    );
    equal(rt, "wave under 2", value_under(run, 2), Some(Value::HighZ));
    equal(rt, "wave under 0", value_under(run, 0), None);
    equal(rt, "wave under 3", value_under(run, 3), None);
    equal(rt, "wave under 1_000", value_under(run, 1_000), None);
    equal(
        rt,
        "trace under 300",
        driven_under(run, 300),
        Some(Value::Unknown),
    );
    equal(rt, "trace under 2", driven_under(run, 2), None);
    equal(rt, "horizon", run.horizon(), 20);
}

#[test]
fn a_run_keeps_waves_and_traces_by_key(rt: HostRuntime) {
    let empty = Run::new(rt.alloc(), 20);
    equal(&rt, "wave under 0", value_under(&empty, 0), None);
    equal(&rt, "trace under 0", driven_under(&empty, 0), None);
    drop(empty);
    let run = run_by_keys(&rt, rt.alloc());
    check_whole(&rt, &run);
    drop(run);
}

#[test]
fn what_changes_in_a_copy_of_a_run_stays_in_it(rt: HostRuntime) {
    let run = run_by_keys(&rt, rt.alloc());
    let mut copy = run.try_clone().expect(&rt, "a copy");
    check_whole(&rt, &copy);
    copy.put_wave(2, pulse(&rt, rt.alloc())).expect(&rt, "room");
    copy.clear_wave(300).expect(&rt, "room");
    copy.clear_wave(1_000).expect(&rt, "room");
    copy.put_trace(2, idle(&rt, rt.alloc())).expect(&rt, "room");
    copy.clear_trace(300).expect(&rt, "room");
    copy.set_horizon(30);
    check_whole(&rt, &run);
    equal(&rt, "wave under 2", value_under(&copy, 2), Some(Value::One));
    equal(&rt, "wave under 300", value_under(&copy, 300), None);
    equal(
        &rt,
        "trace under 2",
        driven_under(&copy, 2),
        Some(Value::Unknown),
    );
    equal(&rt, "trace under 300", driven_under(&copy, 300), None);
    equal(&rt, "horizon", copy.horizon(), 30);
    drop(copy);
    check_whole(&rt, &run);
    drop(run);
}
