//! Runs that go on to a later horizon, worked out by hand.

ghost use Rattle.std.specs.Prelude.{◌≡◌};
ghost use Rattle.gatestep.specs.Step.{advance};
ghost use Rattle.scratch.specs.kept.Run.{IsRun};

use crate::calls::simulated;
use crate::compare::equal;
use crate::counting::Counting;
use crate::edit_lists::edit_lines::design_of;
use crate::waves::{Named, check_waves};
use design::Design;
use fourstate::MAX_TIME;
use gatestep::{Serial, Stepper};
use ordering::extend;
use std::alloc::Global;
use std::process::Abort;
use waveform::Run;

/// The same design with another horizon.
fn ending_at(rt: &impl Abort, design: &Design, horizon: u64) -> Design
    ensures { result ≡ record design.now { horizon = horizon } }
{
    assert!(rt; horizon <= MAX_TIME);
    let copy = design.try_clone().expect(rt, "a copy");
    copy.set_horizon(horizon)
}

/// The run of the design that goes on from its run up to an earlier horizon; the stepper is asked for what comes after that alone.
pub fn longer<S: Stepper>(
    rt: &impl Abort,
    alloc: Global,
    design: &Design,
    horizon: u64,
    stepper: &mut S,
) -> Run
    requires { S.answer ≡ advance }
    ensures { IsRun advance design.now result }
{
    let former = ending_at(rt, design, horizon);
    assert!(rt; former.horizon() <= design.horizon());
    let run = simulated(rt, alloc, &former, &mut Serial::new());
    let longer = extend(alloc, &former, &run, design, stepper).expect(rt, "a longer run");
    drop(run);
    drop(former);
    longer
}

/// Runs the design up to an earlier horizon and from there to its own: then the waves are these, and after the earlier one
/// so many steps were made, with so many tasks in them all. Where no step is dealt, all were asked alone.
fn check_design(
    rt: &impl Abort,
    alloc: Global,
    design: &Design,
    horizon: u64,
    waves: &[Named<'_>],
    asked: (u64, u64),
) {
    for (least_dealt, asked) in [(0, (asked.0, asked.1, 0)), (usize::MAX, (0, 0, asked.1))] {
        let mut stepper = Counting::new(least_dealt);
        let run = longer(rt, alloc, design, horizon, &mut stepper);
        equal(rt, "horizon", run.horizon(), design.horizon());
        check_waves(rt, alloc, design, &run, waves);
        drop(run);
        equal(rt, ("asked", least_dealt), stepper.asked(), asked);
    }
}

fn check(
    rt: &impl Abort,
    alloc: Global,
    lines: &[&str],
    horizon: u64,
    waves: &[Named<'_>],
    asked: (u64, u64),
) {
    let design = design_of(rt, alloc, lines);
    check_design(rt, alloc, &design, horizon, waves, asked);
    drop(design);
}

/// The buffer is evaluated at 0, 3, 10, 13, 20, 23, 40 and 43.
const BUFFER: [&str; 8] = [
    "input a",
    "net y wire",
    "gate g buf 3 3 y a",
    "stim a 0 0",
    "stim a 10 1",
    "stim a 20 0",
    "stim a 40 1",
    "horizon 100",
];

// At 21 an event is pending for 23, and a point is to come at 40; at 30 only the point is. Where the horizon stays nothing is
// asked.
#[test]
fn a_buffer_with_a_late_point(rt: HostRuntime) {
    let waves = [("y", " 0:x 3:0 13:1 23:0 43:1")];
    for (horizon, asked) in [(21, 3), (30, 2), (100, 0)] {
        check(&rt, rt.alloc(), &BUFFER, horizon, &waves, (asked, asked));
    }
}

// The ring swings from 5 on; the gate behind it is evaluated at each of these moments too, from 6 on.
#[test]
fn a_ring_and_a_gate_behind_it(rt: HostRuntime) {
    let lines = [
        "input en",
        "net n wire",
        "net y wire",
        "gate g nand 1 1 n en n",
        "gate h buf 2 2 y n",
        "stim en 0 0",
        "stim en 5 1",
        "horizon 9",
    ];
    let waves = [("n", " 0:x 1:1 6:0 7:1 8:0 9:1"), ("y", " 0:x 3:1")];
    check(&rt, rt.alloc(), &lines, 6, &waves, (3, 6));
}
