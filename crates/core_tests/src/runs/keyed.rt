//! The run of a design that has lost a net and a gate, so that keys are no places.

ghost use Rattle.gatestep.specs.Step.{advance};
ghost use Rattle.scratch.specs.kept.Run.{IsRun};

use crate::calls::simulated;
use crate::compare::equal;
use crate::edit_lists::edit_lines::{carried_out, design_of, edits};
use crate::waves::{check_waves, text_of};
use design::{Design, GateKey, NetKey};
use fourstate::Value::{One, Unknown};
use gatestep::{Driver, Serial};
use scratch::{wave_at, wave_named};
use std::alloc::Global;
use std::process::Abort;
use waveform::Run;

const WHOLE: [&str; 7] = [
    "input a",
    "net b wire",
    "net y wire",
    "gate f buf 1 1 b a",
    "gate g not 2 3 y a",
    "stim a 0 0",
    "horizon 10",
];

/// The inverter's driver: 1 is pending from 0 on, and falls due at 2 by itself.
fn check_trace(rt: &impl Abort, design: &Design, run: &Run) {
    let gate = design.gate("g").expect(rt, "the inverter");
    let trace = run.trace(gate.number()).expect(rt, "its trace");
    let rising = Driver::waiting(Unknown, One, 2);
    let risen = Driver::steady(One);
    equal(rt, "number of entries", trace.entries().len(), 1);
    equal(rt, "at 1", trace.at(1), rising);
    equal(rt, "at 2", trace.at(2), risen);
}

fn check_places(rt: &impl Abort, alloc: Global, design: &Design, run: &Run)
    requires { IsRun advance design.now run.now }
{
    assert!(rt; design.net_count() == 2);
    for (place, wave) in [(0, " 0:0"), (1, " 0:x 2:1")] {
        equal(
            rt,
            "wave",
            text_of(rt, alloc, wave_at(design, run, place)).as_str(),
            wave,
        );
    }
}

/// The run of the design, in which nothing stands under the keys of a net and a gate that are gone.
fn check(rt: &impl Abort, alloc: Global, design: &Design, net: NetKey, gate: GateKey) {
    let run = simulated(rt, alloc, design, &mut Serial::new());
    check_places(rt, alloc, design, &run);
    check_waves(rt, alloc, design, &run, &[("a", " 0:0"), ("y", " 0:x 2:1")]);
    check_trace(rt, design, &run);
    assert!(rt; wave_named(design, &run, "b").is_none());
    assert!(rt; run.wave(net.number()).is_none());
    assert!(rt; run.trace(gate.number()).is_none());
    drop(run);
}

#[test]
fn a_run_stands_under_the_keys_that_are_left(rt: HostRuntime) {
    let alloc = rt.alloc();
    let whole = design_of(&rt, alloc, &WHOLE);
    let net = whole.net("b").expect(&rt, "a net");
    let gate = whole.gate("f").expect(&rt, "a gate");
    let edits = edits(&rt, alloc, &["drop f", "dropnet b"]);
    let design = carried_out(&rt, alloc, &whole, &edits);
    drop(edits);
    drop(whole);
    check(&rt, alloc, &design, net, gate);
    drop(design);
}
