//! Waves and traces put together from those of a former run and from values of their own, with their entries worked out by
//! hand. Each call stands in a helper that says what the next call needs and no more.

ghost use Rattle.std.specs.Prelude.{◌≡◌, ◌<◌, ◌≤◌, ℕ, suc, IfOk};
ghost use Rattle.fourstate.specs.declared.value.Value as values;
ghost use Rattle.std.specs.Option.{ForSome};
ghost use Rattle.waveform.specs.Changes.{wave_changes_below};
ghost use Rattle.waveform.specs.Timelines.{changes_below};
ghost use Rattle.waveform.specs.kept.Timelines.{IsAlwaysSettled, end_of};
ghost use Rattle.waveform.specs.declared.times.TheConstants.{TIME_END};

use crate::compare::equal;
use crate::timelines::{LAST, check_changes, check_entries, late_changes, moving, pulse, standing};
use fourstate::Value;
use fourstate::Value::{HighZ, One, Unknown, Zero};
use gatestep::Driver;
use std::alloc::{AllocError, Global};
use std::process::Abort;
use waveform::{Patch, Sample, Timeline, Trace, Wave, laws};

/// The timeline up to a moment.
fn forked<V: Sample>(rt: &impl Abort, alloc: Global, line: &Timeline<V>, t: u64) -> Timeline<V>
    ensures { end_of result ≤ suc t }
{
    line.fork(alloc, t, 0).expect(rt, "room")
}

/// The timeline that follows another one from a moment to another.
fn followed<V: Sample>(
    rt: &impl Abort,
    line: Timeline<V>,
    from: u64,
    to: u64,
    other: &Timeline<V>,
) -> Timeline<V>
    requires later { end_of line ≤ from }
    requires order { from ≤ to }
    requires within { from < TIME_END }
    ensures { end_of result ≤ suc to }
{
    line.follow(from, to, other).expect(rt, "room")
}

/// A patch that has this value at a moment, and the former ones before it.
fn opened<V: Sample>(
    rt: &impl Abort,
    alloc: Global,
    old: &Timeline<V>,
    t: u64,
    value: V,
) -> Patch<V>
    requires { V.can_store t value }
    ensures { end_of result.line ≤ suc t }
{
    Patch::open(alloc, old, t, value).expect(rt, "room")
}

/// The patch with this value at a moment.
fn put<V: Sample>(rt: &impl Abort, patch: Patch<V>, old: &Timeline<V>, t: u64, value: V) -> Patch<V>
    requires can { V.can_store t value }
    requires later { end_of patch.line ≤ t }
    ensures { end_of result.line ≤ suc t }
{
    patch.put(old, t, value).expect(rt, "room")
}

/// The patch left at a moment: from then on it has the former values.
fn left<V: Sample>(patch: Patch<V>, t: u64) -> Patch<V>
    requires { end_of patch.line ≤ t }
    ensures { result.line ≡ patch.line }
{
    let mut patch = patch;
    patch.leave(t);
    patch
}

/// The timeline of the patch up to a moment.
fn finished<V: Sample>(rt: &impl Abort, patch: Patch<V>, old: &Timeline<V>, end: u64) -> Timeline<V>
    requires later { end_of patch.line ≤ end }
    requires within { end ≤ TIME_END }
{
    patch.finish(old, end).expect(rt, "room")
}

fn check_value(rt: &impl Abort, patch: &Patch<Value>, old: &Wave, t: u64, value: Value) {
    equal(rt, t, patch.at(old, t), value);
}

fn check_state(rt: &impl Abort, patch: &Patch<Driver>, old: &Trace, t: u64, state: Driver) {
    equal(rt, t, patch.at(old, t), state);
}

const PULSE: [(u64, Value); 4] = [(0, Unknown), (3, Zero), (13, One), (16, Zero)];

/// The pulse up to a moment has so many changes.
fn check_fork(rt: &impl Abort, alloc: Global, pulse: &Wave, t: u64, count: usize) {
    assert!(rt; count <= PULSE.len());
    let fork = forked(rt, alloc, pulse, t);
    check_changes(rt, &fork, &PULSE[..count]);
    drop(fork);
}

#[test]
fn a_forked_wave_has_the_changes_so_far(rt: HostRuntime) {
    let wave = pulse(&rt, rt.alloc());
    // Before the second change, at one, between two, after the last.
    for (t, count) in [(0, 1), (2, 1), (3, 2), (12, 2), (13, 3), (15, 3), (900, 4)] {
        check_fork(&rt, rt.alloc(), &wave, t, count);
    }
    check_changes(&rt, &wave, &PULSE);
    drop(wave);
}

#[test]
fn a_forked_wave_keeps_its_last_value(rt: HostRuntime) {
    let wave = pulse(&rt, rt.alloc());
    let fork = forked(&rt, rt.alloc(), &wave, 15);
    equal(&rt, "at 16", fork.at(16), One);
    drop(fork);
    drop(wave);
}

/// The wave `0 z`, and another value from 2 on.
fn two_values(rt: &impl Abort, alloc: Global, second: Value) -> Wave
    ensures { end_of result ≤ 3 }
{
    let mut wave = Wave::open(alloc, HighZ).expect(rt, "room");
    wave.push(2, second).expect(rt, "room");
    wave
}

// With changes of the other one in the gap, and the value of the other one from the first moment on.
#[test]
fn a_wave_follows_another_one_over_a_gap(rt: HostRuntime) {
    let other = pulse(&rt, rt.alloc());
    let wave = two_values(&rt, rt.alloc(), One);
    let wave = followed(&rt, wave, 5, 15, &other);
    check_changes(&rt, &wave, &[(0, HighZ), (2, One), (5, Zero), (13, One)]);
    equal(&rt, "at 16", wave.at(16), One);
    drop(wave);
    drop(other);
}

// With none in the gap, from a moment at which both have the same value; then a single moment, at which the other one changes.
#[test]
fn a_wave_follows_one_that_stays(rt: HostRuntime) {
    let other = pulse(&rt, rt.alloc());
    let wave = two_values(&rt, rt.alloc(), Zero);
    let wave = followed(&rt, wave, 4, 12, &other);
    check_changes(&rt, &wave, &[(0, HighZ), (2, Zero)]);
    let wave = followed(&rt, wave, 13, 13, &other);
    equal(&rt, "last", wave.last(), (13, One));
    equal(&rt, "at 16", wave.at(16), One);
    drop(wave);
    drop(other);
}

/// The wave `0 0 / 10 1 / 20 0 / 30 1 / 40 0`.
fn former_wave(rt: &impl Abort, alloc: Global) -> Wave {
    let mut wave = Wave::open(alloc, Zero).expect(rt, "room");
    wave.push(10, One).expect(rt, "room");
    wave.push(20, Zero).expect(rt, "room");
    wave.push(30, One).expect(rt, "room");
    wave.push(40, Zero).expect(rt, "room");
    wave
}

/// The new wave rises at 12 in place of 10, and is left at 13, before it is left again at 15.
fn late_rise(rt: &impl Abort, alloc: Global, old: &Wave) -> Patch<Value>
    ensures { end_of result.line ≤ 13 }
{
    let patch = opened(rt, alloc, old, 10, Zero);
    let patch = put(rt, patch, old, 12, One);
    equal(rt, "since", patch.since(), None);
    let patch = left(patch, 13);
    for (t, value) in [(9, Zero), (11, Zero), (12, One), (13, One), (20, Zero)] {
        check_value(rt, &patch, old, t, value);
    }
    let patch = left(patch, 15);
    equal(rt, "since", patch.since(), Some(13));
    patch
}

/// It is unknown from 25 to 26 and falls at 33 in place of 40.
fn early_fall(rt: &impl Abort, old: &Wave, patch: Patch<Value>) -> Patch<Value>
    requires { end_of patch.line ≤ 25 }
    ensures { end_of result.line ≤ 34 }
{
    let patch = put(rt, patch, old, 25, Unknown);
    equal(rt, "since", patch.since(), None);
    let patch = left(put(rt, patch, old, 27, Zero), 28);
    left(put(rt, patch, old, 33, Zero), 40)
}

#[test]
fn a_wave_leaves_and_comes_back_twice(rt: HostRuntime) {
    let old = former_wave(&rt, rt.alloc());
    let patch = late_rise(&rt, rt.alloc(), &old);
    let patch = early_fall(&rt, &old, patch);
    for (t, value) in [
        (19, One),
        (24, Zero),
        (26, Unknown),
        (29, Zero),
        (32, One),
        (39, Zero),
        (50, Zero),
    ] {
        check_value(&rt, &patch, &old, t, value);
    }
    let wave = finished(&rt, patch, &old, 101);
    let changes = [
        (0, Zero),
        (12, One),
        (20, Zero),
        (25, Unknown),
        (27, Zero),
        (30, One),
        (33, Zero),
    ];
    check_changes(&rt, &wave, &changes);
    drop(wave);
    drop(old);
}

/// The patch with this value at a moment; one that is opened for it where there is none.
fn put_or_opened(
    rt: &impl Abort,
    alloc: Global,
    patch: Option<Patch<Value>>,
    old: &Wave,
    t: u64,
    value: Value,
) -> Patch<Value>
    requires within { t < TIME_END }
    requires later { ForSome patch (λ p. end_of p.line ≤ t) }
    ensures { end_of result.line ≤ suc t }
{
    Patch::put_or_open(patch, alloc, old, t, value).expect(rt, "room")
}

#[test]
fn a_patch_that_is_there(rt: HostRuntime) {
    let old = former_wave(&rt, rt.alloc());
    let patch = Patch::fork(rt.alloc(), &old, 19).expect(&rt, "room");
    equal(&rt, "since", patch.since(), None);
    let patch = put_or_opened(&rt, rt.alloc(), Some(patch), &old, 20, One);
    let patch = put_or_opened(&rt, rt.alloc(), Some(patch), &old, 22, Zero);
    let wave = finished(&rt, patch, &old, 30);
    check_changes(&rt, &wave, &[(0, Zero), (10, One), (22, Zero)]);
    drop(wave);
    drop(old);
}

#[test]
fn a_patch_that_is_not_there(rt: HostRuntime) {
    let old = former_wave(&rt, rt.alloc());
    let patch = put_or_opened(&rt, rt.alloc(), None, &old, 30, HighZ);
    let wave = finished(&rt, patch, &old, 31);
    check_changes(&rt, &wave, &[(0, Zero), (10, One), (20, Zero), (30, HighZ)]);
    drop(wave);
    drop(old);
}

/// The wave below `end` of a function that has this value at `t`, and at each other moment that of the function whose changes
/// `old` keeps.
fn with_one_other_value(
    alloc: Global,
    old: &Wave,
    t: u64,
    value: Value,
    end: u64,
) -> Result<Wave, AllocError>
    requires order { t < end }
    requires within { end ≤ TIME_END }
    ensures { IfOk result (λ wave. (f g : ℕ → values.Value) (h : ℕ) → old.now ≡ wave_changes_below g h → end ≤ h
        → ((u : ℕ) → u < t → f u ≡ g u) → value ≡ f t → ((u : ℕ) → t < u → u < end → f u ≡ g u)
        → wave ≡ wave_changes_below f end) }
{
    let mut patch = Patch::open(alloc, old, t, value)?;
    patch.leave(t + 1);
    patch.finish(old, end)
}

#[test]
fn a_wave_with_one_other_value(rt: HostRuntime) {
    let old = former_wave(&rt, rt.alloc());
    let wave = with_one_other_value(rt.alloc(), &old, 12, Unknown, 31).expect(&rt, "room");
    let changes = [
        (0, Zero),
        (10, One),
        (12, Unknown),
        (13, One),
        (20, Zero),
        (30, One),
    ];
    check_changes(&rt, &wave, &changes);
    drop(wave);
    drop(old);
}

// At the last moment that can be stored.
#[test]
fn a_wave_with_another_value_at_the_last_moment(rt: HostRuntime) {
    let old = late_changes(&rt, rt.alloc());
    let wave = with_one_other_value(rt.alloc(), &old, LAST, Zero, LAST + 1).expect(&rt, "room");
    equal(&rt, "number of changes", wave.changes().len(), 4);
    equal(&rt, "before", wave.at(LAST - 1), Unknown);
    equal(&rt, "last", wave.last(), (LAST, Zero));
    drop(wave);
    drop(old);
}

/// The moment of the next entry after `t`, or `end` where that comes first. Up to it the function whose changes the timeline
/// keeps moves by itself alone.
fn quiet_until<V: Sample>(line: &Timeline<V>, t: u64, end: u64) -> u64
    ensures { (f : ℕ → V) (n : ℕ) → IsAlwaysSettled V.drift f → line.now ≡ changes_below V.same V.drift f (suc n) → result ≤ suc n
        → (k : ℕ) → t ≤ k → k < result → f k ≡ V.drift (f t) k }
{
    laws::drift_between::<V>();
    match line.next_after(t) {
        Some((time, _)) if time < end => time,
        _ => end,
    }
}

#[test]
fn nothing_changes_up_to_the_next_entry(rt: HostRuntime) {
    let wave = former_wave(&rt, rt.alloc());
    for (t, end, until) in [
        (0, 50, 10),
        (9, 50, 10),
        (10, 50, 20),
        (39, 50, 40),
        (40, 50, 50),
        (20, 25, 25),
    ] {
        equal(&rt, t, quiet_until::<Value>(&wave, t, end), until);
    }
    drop(wave);
    let trace = former_trace(&rt, rt.alloc());
    equal(&rt, 5, quiet_until::<Driver>(&trace, 5, 50), 20);
    equal(&rt, 20, quiet_until::<Driver>(&trace, 20, 50), 50);
    drop(trace);
}

#[test]
fn a_wave_that_differs_from_the_first_moment(rt: HostRuntime) {
    let old = former_wave(&rt, rt.alloc());
    let patch = left(opened(&rt, rt.alloc(), &old, 0, HighZ), 1);
    // Back at the moment at which it was left: nothing is taken from the former wave.
    let patch = left(put(&rt, patch, &old, 1, HighZ), 30);
    let wave = finished(&rt, patch, &old, 40);
    check_changes(&rt, &wave, &[(0, HighZ), (30, One)]);
    drop(wave);
    drop(old);
}

/// The trace of a driver of x that schedules 0 at 5 for 8, and 1 at 20 for 23.
fn former_trace(rt: &impl Abort, alloc: Global) -> Trace {
    let mut trace = Trace::open(alloc, standing(Unknown)).expect(rt, "room");
    trace.push(5, moving(Unknown, Zero, 8)).expect(rt, "room");
    trace.push(20, moving(Zero, One, 23)).expect(rt, "room");
    trace
}

#[test]
fn a_forked_trace_keeps_what_is_pending(rt: HostRuntime) {
    let trace = former_trace(&rt, rt.alloc());
    let falling = moving(Unknown, Zero, 8);
    let fork = forked(&rt, rt.alloc(), &trace, 6);
    check_entries(&rt, &fork, &[(0, standing(Unknown)), (5, falling)]);
    equal(&rt, "at 7", fork.at(7), falling);
    equal(&rt, "at 8", fork.at(8), standing(Zero));
    drop(fork);
    drop(trace);
}

// Up to 21 the other trace's event falls due by itself, up to 19 there is none.
#[test]
fn a_trace_follows_another_one_with_an_event(rt: HostRuntime) {
    let trace = former_trace(&rt, rt.alloc());
    let (falling, rising) = (moving(Unknown, Zero, 8), moving(Zero, One, 23));
    let fork = forked(&rt, rt.alloc(), &trace, 6);
    let fork = followed(&rt, fork, 10, 19, &trace);
    check_entries(&rt, &fork, &[(0, standing(Unknown)), (5, falling)]);
    let fork = followed(&rt, fork, 21, 21, &trace);
    equal(&rt, "last", fork.last(), (21, rising));
    equal(&rt, "at 23", fork.at(23), standing(One));
    equal(&rt, "number of entries", fork.entries().len(), 3);
    drop(fork);
    drop(trace);
}

/// The new driver cancels its event at 6, falls at 9, and rises as the former one does.
fn cancelled(rt: &impl Abort, alloc: Global, old: &Trace) -> Patch<Driver>
    ensures { end_of result.line ≤ 10 }
{
    let patch = opened(rt, alloc, old, 6, standing(Unknown));
    let patch = left(put(rt, patch, old, 9, standing(Zero)), 10);
    for (t, state) in [
        (5, moving(Unknown, Zero, 8)),
        (8, standing(Unknown)),
        (22, moving(Zero, One, 23)),
        (23, standing(One)),
    ] {
        check_state(rt, &patch, old, t, state);
    }
    patch
}

#[test]
fn a_trace_leaves_and_comes_back_twice(rt: HostRuntime) {
    let old = former_trace(&rt, rt.alloc());
    let patch = cancelled(&rt, rt.alloc(), &old);
    // What it rises to by itself is no entry.
    let patch = left(put(&rt, patch, &old, 25, standing(One)), 26);
    let patch = put(&rt, patch, &old, 29, moving(One, Zero, 31));
    check_state(&rt, &patch, &old, 30, moving(One, Zero, 31));
    check_state(&rt, &patch, &old, 31, standing(Zero));
    let trace = finished(&rt, patch, &old, 101);
    let entries = [
        (0, standing(Unknown)),
        (5, moving(Unknown, Zero, 8)),
        (6, standing(Unknown)),
        (9, standing(Zero)),
        (20, moving(Zero, One, 23)),
        (29, moving(One, Zero, 31)),
    ];
    check_entries(&rt, &trace, &entries);
    drop(trace);
    drop(old);
}

// From 21 on it has the former one's pending event, which falls due while it is left.
#[test]
fn a_trace_left_while_its_event_is_pending(rt: HostRuntime) {
    let old = former_trace(&rt, rt.alloc());
    let patch = left(opened(&rt, rt.alloc(), &old, 0, standing(Zero)), 21);
    check_state(&rt, &patch, &old, 20, standing(Zero));
    check_state(&rt, &patch, &old, 21, moving(Zero, One, 23));
    let trace = finished(&rt, patch, &old, 50);
    check_entries(
        &rt,
        &trace,
        &[(0, standing(Zero)), (21, moving(Zero, One, 23))],
    );
    equal(&rt, "at 23", trace.at(23), standing(One));
    drop(trace);
    drop(old);
}
