//! Gates followed through time by hand, and a stepper through its bound.

ghost use Rattle.std.specs.Prelude.{◌≡◌, ◌<◌};

use crate::compare::equal;
use fourstate::Value::{One, Unknown, Zero};
use fourstate::{Delays, GateKind, Inputs, Value, fits};
use gatestep::{Driver, Serial, StepFault, Stepper, Task, next};
use std::alloc::Global;
use std::process::Abort;

/// The value at a time of a list of changes, in order of time; x before the first.
fn held(changes: &[(u64, Value)], t: u64) -> Value {
    let mut value = Unknown;
    for (time, next) in changes {
        if *time <= t {
            value = *next;
        }
    }
    value
}

fn task(
    rt: &impl Abort,
    kind: GateKind,
    delays: (u64, u64),
    state: Driver,
    inputs: &[Value],
) -> Task
    ensures { result.state ≡ state }
{
    let delays = Delays::new(delays.0, delays.1).expect(rt, "lawful delays");
    assert!(rt; fits(kind, inputs.len()));
    Task::new(kind, delays, state, Inputs::of(inputs))
}

/// Follows a gate of one or two inputs up to the horizon, and compares its output at each moment.
fn follow(
    rt: &impl Abort,
    kind: GateKind,
    delays: (u64, u64),
    first: &[(u64, Value)],
    second: Option<&[(u64, Value)]>,
    wanted: &[(u64, Value)],
    horizon: u64,
)
    requires { horizon < 1000 }
{
    let mut state = Driver::start();
    for t in 0..horizon + 1 {
        equal(rt, (kind, t), state.due(t).current(), held(wanted, t));
        state = match second {
            None => next(&task(rt, kind, delays, state, &[held(first, t)]), t),
            Some(second) => {
                let inputs = [held(first, t), held(second, t)];
                next(&task(rt, kind, delays, state, &inputs), t)
            }
        };
    }
}

/// Follows a gate of delay 1 that reads its own output, after its first input if there is one.
fn follow_loop(
    rt: &impl Abort,
    kind: GateKind,
    first: Option<&[(u64, Value)]>,
    wanted: &[(u64, Value)],
    horizon: u64,
)
    requires { horizon < 1000 }
{
    let mut state = Driver::start();
    for t in 0..horizon + 1 {
        let output = state.due(t).current();
        equal(rt, (kind, t), output, held(wanted, t));
        state = match first {
            None => next(&task(rt, kind, (1, 1), state, &[output]), t),
            Some(first) => {
                let inputs = [held(first, t), output];
                next(&task(rt, kind, (1, 1), state, &inputs), t)
            }
        };
    }
}

#[test]
fn a_buffer_swallows_a_short_pulse(rt: HostRuntime) {
    let input = [(0, Zero), (10, One), (12, Zero)];
    let output = [(0, Unknown), (3, Zero)];
    follow(&rt, GateKind::Buf, (3, 3), &input, None, &output, 30);
}

#[test]
fn a_buffer_passes_a_pulse_of_its_delay(rt: HostRuntime) {
    let input = [(0, Zero), (10, One), (13, Zero)];
    let output = [(0, Unknown), (3, Zero), (13, One), (16, Zero)];
    follow(&rt, GateKind::Buf, (3, 3), &input, None, &output, 100);
}

#[test]
fn the_lesser_delay_leads_to_x(rt: HostRuntime) {
    let input = [(0, Zero), (20, One), (25, Unknown), (26, One)];
    let output = [(0, Unknown), (1, Zero), (26, Unknown), (36, One)];
    follow(&rt, GateKind::Buf, (10, 1), &input, None, &output, 50);
}

#[test]
fn a_loop_swings_and_a_loop_of_x_stays(rt: HostRuntime) {
    let enable = [(0, Zero), (5, One)];
    let output = [
        (0, Unknown),
        (1, One),
        (6, Zero),
        (7, One),
        (8, Zero),
        (9, One),
    ];
    follow_loop(&rt, GateKind::Nand, Some(&enable), &output, 9);
    follow_loop(&rt, GateKind::Not, None, &[(0, Unknown)], 9);
}

// The event for 0 at 5 stands while 0 is evaluated again at 2.
#[test]
fn a_pending_event_keeps_its_time(rt: HostRuntime) {
    let first = [(0, Zero), (2, One)];
    let second = [(0, Zero)];
    let output = [(0, Unknown), (5, Zero)];
    follow(
        &rt,
        GateKind::And,
        (5, 5),
        &first,
        Some(&second),
        &output,
        20,
    );
}

#[test]
fn states_and_faults(rt: HostRuntime) {
    let start = Driver::start();
    equal(&rt, "value at the start", start.current(), Unknown);
    equal(&rt, "pending at the start", start.pending(), None);
    let waiting = Driver::waiting(Unknown, One, 7);
    equal(&rt, "due at 6", waiting.due(6), waiting);
    equal(&rt, "value at 7", waiting.due(7).current(), One);
    equal(&rt, "pending at 7", waiting.due(7).pending(), None);
    for (other, is_same) in [
        (Driver::waiting(Unknown, One, 7), true),
        (Driver::waiting(Unknown, One, 8), false),
        (Driver::waiting(Unknown, Zero, 7), false),
        (Driver::waiting(Zero, One, 7), false),
        (Driver::steady(Unknown), false),
    ] {
        equal(&rt, other, waiting.is_same(other), is_same);
        equal(&rt, other, waiting == other, is_same);
    }
    equal(&rt, "OutOfMemory", StepFault::OutOfMemory as u8, 1);
    equal(&rt, "WorkerLost", StepFault::WorkerLost as u8, 2);
}

/// A state of 0 that becomes 1 at 9.
fn waiting() -> Driver {
    Driver::waiting(Zero, One, 9)
}

/// Three gates at one moment: one waits for its event, one gets one, one has its value.
fn step_three<S: Stepper>(rt: &impl Abort, alloc: Global, stepper: &mut S) {
    let tasks = [
        task(
            rt,
            GateKind::Buf,
            (3, 4),
            Driver::waiting(Zero, One, 9),
            &[One],
        ),
        task(rt, GateKind::Not, (3, 4), Driver::start(), &[One]),
        task(rt, GateKind::Buf, (3, 4), Driver::start(), &[Unknown]),
    ];
    let mut answers = Vec::new(alloc);
    equal(rt, "step", stepper.step(&tasks, 5, &mut answers), Ok(()));
    drop(tasks);
    assert!(rt; answers.len() == 3);
    equal(rt, "first answer", answers[0].pending(), Some((One, 9)));
    equal(rt, "second answer", answers[1].pending(), Some((Zero, 9)));
    equal(rt, "third answer", answers[2], Driver::start());
    drop(answers);
}

#[test]
fn serial_answers_in_order(rt: HostRuntime) {
    step_three(&rt, rt.alloc(), &mut Serial::new());
}

fn check_parts(rt: &impl Abort, task: &Task) {
    equal(rt, "kind", task.kind(), GateKind::Nand);
    equal(rt, "delays", Some(task.delays()), Delays::new(3, 4));
    equal(rt, "state", task.state(), waiting());
    let inputs = Inputs::of(&[One, Unknown]);
    equal(rt, "inputs", task.inputs().is_same(inputs), true);
}

#[test]
fn a_task_is_read_and_copied(rt: HostRuntime) {
    let task = task(&rt, GateKind::Nand, (3, 4), waiting(), &[One, Unknown]);
    task.lawful();
    let copy = task;
    check_parts(&rt, &task);
    check_parts(&rt, &copy);
}

// No moment is too late for it.
#[test]
fn a_step_without_a_task_gives_nothing(rt: HostRuntime) {
    let mut answers = Vec::new(rt.alloc());
    let result = Serial::new().step(&[], 2_000_000_000, &mut answers);
    equal(&rt, "result", result, Ok(()));
    equal(&rt, "number of answers", answers.len(), 0);
    drop(answers);
}
