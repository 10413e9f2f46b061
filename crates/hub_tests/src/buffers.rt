//! A bench of two buffers with delays of 3, `g` from the input `a` to `y` and `h` from the input `b` to `z`, all of which are x
//! at first. The horizon is 400.

ghost use Rattle.std.specs.Prelude.{◌≡◌};
ghost use Rattle.gatestep.specs.Step.{advance};

use crate::compare::equal;
use bench::{Bench, Snapshot};
use design::{Design, Name, NameHasher};
use edits::{Edit, Pin, Pins, Word, apply_all};
use fourstate::{DelayTimes, GateKind, NetKind, TimeUnit, Value};
use gatestep::{Serial, Stepper};
use std::alloc::Global;
use std::process::Abort;

/// How many nets the design has before any commit.
pub const NETS: usize = 4;

/// The rise and the fall of both buffers before any commit.
pub const DELAY: u64 = 3;

pub const HORIZON: u64 = 400;

fn word(rt: &impl Abort, alloc: Global, text: &str) -> Word {
    Word::new(alloc, text).expect(rt, "a word")
}

fn buffer(rt: &impl Abort, alloc: Global, name: &str, input: &str, output: &str) -> Edit {
    let mut inputs = Pins::new(alloc);
    let pin = Pin::Net(word(rt, alloc, input));
    inputs.push(pin).expect(rt, "a pin");
    Edit::AddGate {
        name: word(rt, alloc, name),
        kind: GateKind::Buf,
        delays: DelayTimes::uniform(DELAY),
        output: word(rt, alloc, output),
        inputs,
    }
}

fn wire(rt: &impl Abort, alloc: Global, name: &str) -> Edit {
    Edit::AddNet {
        name: word(rt, alloc, name),
        kind: NetKind::Wire,
    }
}

fn edits(rt: &impl Abort, alloc: Global) -> Vec<Edit> {
    let mut edits = Vec::with_capacity(alloc, 7).expect(rt, "room");
    for (name, from, to) in [("g", "a", "y"), ("h", "b", "z")] {
        edits.push(input(rt, alloc, from)).expect(rt, "room");
        edits.push(wire(rt, alloc, to)).expect(rt, "room");
        let gate = buffer(rt, alloc, name, from, to);
        edits.push(gate).expect(rt, "room");
    }
    let horizon = Edit::Horizon { time: HORIZON };
    edits.push(horizon).expect(rt, "room");
    edits
}

fn design(rt: &impl Abort, alloc: Global) -> Design {
    assert!(rt; Name::is_valid("m"));
    let top = Name::new(alloc, "m").expect(rt, "a name");
    let start = Design::empty(alloc, NameHasher::fixed(), top, TimeUnit::default());
    let edits = edits(rt, alloc);
    let design = apply_all(alloc, &start, &edits).expect(rt, "accepted edits");
    drop(edits);
    drop(start);
    design
}

/// The bench, whose runs this stepper makes.
pub fn bench_with<S: Stepper + Drop>(rt: &impl Abort, alloc: Global, stepper: S) -> Bench<S>
    requires { S.answer ≡ advance }
{
    Bench::open(alloc, design(rt, alloc), stepper).expect(rt, "a bench")
}

pub fn bench(rt: &impl Abort, alloc: Global) -> Bench<Serial> {
    bench_with(rt, alloc, Serial::new())
}

/// One input more, of this name.
pub fn input(rt: &impl Abort, alloc: Global, name: &str) -> Edit {
    Edit::AddInput {
        name: word(rt, alloc, name),
    }
}

/// The net of this name goes.
pub fn without(rt: &impl Abort, alloc: Global, name: &str) -> Edit {
    Edit::DropNet {
        name: word(rt, alloc, name),
    }
}

/// The buffer of this name has another rise.
pub fn rise(rt: &impl Abort, alloc: Global, gate: &str, rise: u64) -> Edit {
    Edit::SetDelay {
        name: word(rt, alloc, gate),
        delays: DelayTimes::new(rise, DELAY),
    }
}

/// The input of this name has this value from this time on.
pub fn stim(rt: &impl Abort, alloc: Global, net: &str, time: u64, value: Value) -> Edit {
    Edit::Stim {
        net: word(rt, alloc, net),
        time,
        value,
    }
}

/// The wave of `y` has so many changes, and this is the last one.
pub fn check(rt: &impl Abort, snapshot: &Snapshot, count: usize, time: u64, value: Value) {
    let wave = snapshot.wave("y").expect(rt, "a net of this name");
    let changes = wave.changes();
    equal(rt, "number of changes", changes.len(), count);
    let last = changes.last().expect(rt, "a change");
    equal(rt, "time", last.time(), time);
    equal(rt, "value", last.value(), value);
}
