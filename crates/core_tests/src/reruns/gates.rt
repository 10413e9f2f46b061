//! Runs beside a former one through the whole of a design without loops: one gate after another.

ghost use Rattle.gatestep.specs.Step.{advance};
ghost use Rattle.scratch.specs.kept.Run.{IsRun};

use super::plain::rows;
use super::random::check_run;
use super::ways::Asked;
use crate::calls::{changed, followed, simulated};
use crate::compare::equal;
use crate::counting::Counting;
use crate::edit_lists::edit_lines::{edits, made_of};
use design::Design;
use gatestep::Serial;
use resim::{Limit, rerun};
use std::alloc::Global;
use std::process::Abort;
use waveform::Run;

/// Two buffers, one behind the other, and a third one apart. The first changes what it gives at 3 and 13, the second at 5 and 15.
const FIRST: [&str; 11] = [
    "input a",
    "input b",
    "net n wire",
    "net y wire",
    "net z wire",
    "gate g buf 3 3 n a",
    "gate h buf 2 2 y n",
    "gate k buf 1 1 z b",
    "stim a 0 0",
    "stim a 10 1",
    "horizon 30",
];

/// The first buffer takes longer.
const SLOWER: &[&str] = &["delay g 4 4"];

/// A pulse that the first buffer swallows.
const PULSE: &[&str] = &["stim a 5 1", "stim a 6 0"];

/// A gap behind the rise, so that the first buffer gives it later.
const GAP: &[&str] = &["stim a 12 0", "stim a 14 1"];

/// What these edits ask to go through the whole design behind so many looks, or from moment 0 on, and whether it asked of a moment after a
/// later one.
fn asked(
    rt: &impl Abort,
    alloc: Global,
    old: &Design,
    run: &Run,
    lines: &[&str],
    limit: Option<u64>,
) -> (Asked, bool)
    requires { IsRun advance old.now run.now }
{
    let edits = edits(rt, alloc, lines);
    let (new, touched) = changed(alloc, old, &edits).expect(rt, "accepted edits");
    let mut stepper = Counting::new(usize::MAX);
    let made = match limit {
        Some(looks) => {
            let limit = Limit::Looks(looks);
            followed(rt, alloc, old, run, &new, &touched, limit, &mut stepper)
        }
        None => rerun(alloc, old, run, &new, &mut stepper).expect(rt, "a run"),
    };
    let wanted = rows(rt, alloc, &new);
    check_run(rt, &new, &made, wanted.as_slice());
    drop(wanted);
    drop(made);
    drop(new);
    drop(touched);
    drop(edits);
    (stepper.asked(), stepper.went_back())
}

// The gate g is another one: it is asked at 0, 4, 10 and 14. h is asked at 4, 6, 14 and 16, where its state or n is not what it was;
// at 0 both are. k is never asked. For the pulse g is asked at 5 and 6, and from then on does what it did. For the gap it is asked
// at 12, 14 and 17, and h at 17 and 19.
#[test]
fn gate_after_gate(rt: HostRuntime) {
    let old = made_of(&rt, rt.alloc(), edits(&rt, rt.alloc(), &FIRST));
    let run = simulated(&rt, rt.alloc(), &old, &mut Serial::new());
    for (name, lines, limit, wanted) in [
        ("from moment 0 on", SLOWER, None, ((0, 0, 8), true)),
        ("behind moment 0", SLOWER, Some(0), ((1, 1, 7), true)),
        (
            "what differs alone",
            SLOWER,
            Some(1_000),
            ((6, 8, 0), false),
        ),
        ("where an input meets", PULSE, None, ((0, 0, 2), false)),
        ("where an input parts", GAP, None, ((0, 0, 5), false)),
    ] {
        equal(
            &rt,
            name,
            asked(&rt, rt.alloc(), &old, &run, lines, limit),
            wanted,
        );
    }
    drop(run);
    drop(old);
}
