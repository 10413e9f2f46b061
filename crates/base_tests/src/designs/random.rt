//! Random lists of edits, and the same edits of plain vectors.

use super::changes::{remove_gate, remove_net, rewire};
use super::{add_gate, empty, gate, name, nets_read, put_net};
use crate::compare::equal;
use crate::dice::Dice;
use design::{Design, GateKey, Name, NetKey};
use fourstate::GateKind;
use std::alloc::Global;
use std::process::Abort;

const NETS: [&str; 5] = ["a", "b", "c", "d", "e"];

const GATES: [&str; 5] = ["g", "h", "i", "j", "k"];

/// A gate by name: its output and its two inputs.
#[derive(Clone, Copy, Debug, PartialEq, Eq)]
struct PlainGate {
    name: &'static str,
    output: &'static str,
    inputs: [&'static str; 2],
}

impl PlainGate {
    fn uses(&self, net: &str) -> bool {
        self.output == net || self.reads(net)
    }

    fn reads(&self, net: &str) -> bool {
        self.inputs[0] == net || self.inputs[1] == net
    }
}

/// A design as vectors: the names of its nets, and its gates.
#[derive(Drop)]
struct Plain {
    nets: Vec<&'static str>,
    gates: Vec<PlainGate>,
}

impl Plain {
    fn has_net(&self, name: &str) -> bool {
        self.nets.iter().any(|net| *net == name)
    }

    fn has_gate(&self, name: &str) -> bool {
        self.gates.iter().any(|gate| gate.name == name)
    }

    fn uses(&self, net: &str) -> bool {
        self.gates.iter().any(|gate| gate.uses(net))
    }

    fn put(&mut self, wanted: PlainGate) {
        for kept in &mut self.gates {
            if kept.name == wanted.name {
                *kept = wanted;
            }
        }
    }

    fn fits(&self, gate: &PlainGate) -> bool {
        self.has_net(gate.output) && self.has_net(gate.inputs[0]) && self.has_net(gate.inputs[1])
    }
}

/// What a turn does to a design.
#[derive(Drop)]
enum Step {
    Nothing,
    AddNet(Name),
    RemoveNet(NetKey),
    AddGate(PlainGate),
    RemoveGate(GateKey),
    Rewire(GateKey, PlainGate),
}

fn net_step(
    rt: &impl Abort,
    alloc: Global,
    design: &Design,
    plain: &mut Plain,
    text: &'static str,
) -> Step {
    if !plain.has_net(text) {
        plain.nets.push(text).expect(rt, "one more");
        return Step::AddNet(name(rt, alloc, text));
    }
    let net = design.net(text).expect(rt, "a net of this name");
    assert!(rt; design.net_place_of(net).is_some());
    equal(rt, "is used", design.is_used(net), plain.uses(text));
    if plain.uses(text) {
        return Step::Nothing;
    }
    plain.nets.retain(|kept| *kept != text);
    Step::RemoveNet(net)
}

fn gate_step(
    rt: &impl Abort,
    design: &Design,
    plain: &mut Plain,
    wanted: PlainGate,
    removes: bool,
) -> Step {
    let there = plain.has_gate(wanted.name);
    if there && removes {
        plain.gates.retain(|kept| kept.name != wanted.name);
        let key = design.gate(wanted.name).expect(rt, "a gate of this name");
        return Step::RemoveGate(key);
    }
    if !plain.fits(&wanted) {
        return Step::Nothing;
    }
    if !there {
        plain.gates.push(wanted).expect(rt, "one more");
        return Step::AddGate(wanted);
    }
    plain.put(wanted);
    let key = design.gate(wanted.name).expect(rt, "a gate of this name");
    Step::Rewire(key, wanted)
}

fn take_step(rt: &impl Abort, alloc: Global, design: Design, step: Step) -> Design {
    match step {
        Step::Nothing => design,
        Step::AddNet(name) => with_net(rt, design, name),
        Step::RemoveNet(net) => remove_net(rt, design, net),
        Step::AddGate(gate) => with_gate(rt, alloc, design, gate),
        Step::RemoveGate(gate) => remove_gate(rt, design, gate),
        Step::Rewire(key, gate) => {
            let inputs = nets_read(rt, alloc, &design, &gate.inputs);
            rewire(rt, design, key, gate.output, inputs)
        }
    }
}

fn with_net(rt: &impl Abort, design: Design, name: Name) -> Design {
    let (design, _) = put_net(rt, design, name);
    design
}

fn with_gate(rt: &impl Abort, alloc: Global, design: Design, wanted: PlainGate) -> Design {
    let inputs = nets_read(rt, alloc, &design, &wanted.inputs);
    let (text, output) = (wanted.name, wanted.output);
    let gate = gate(rt, alloc, &design, text, GateKind::Xor, output, inputs);
    let (design, _) = add_gate(rt, design, gate);
    design
}

/// The keys of the gates that read a net, or that drive it, in order.
fn keys(
    rt: &impl Abort,
    alloc: Global,
    design: &Design,
    plain: &Plain,
    net: &str,
    drive: bool,
) -> Vec<GateKey> {
    let mut keys = Vec::new(alloc);
    for gate in &plain.gates {
        let listed = if drive {
            gate.output == net
        } else {
            gate.reads(net)
        };
        if listed {
            keys.push(design.gate(gate.name).expect(rt, "a gate of this name"))
                .expect(rt, "one more");
        }
    }
    keys
}

/// The net at a place, and the gates that read it and drive it.
fn check_net(
    rt: &impl Abort,
    alloc: Global,
    design: &Design,
    plain: &Plain,
    place: usize,
    name: &str,
) {
    equal(rt, name, design.net_place(name), Some(place));
    let net = design.net(name).expect(rt, "a net of this name");
    assert!(rt; design.net_place_of(net).is_some());
    let readers = keys(rt, alloc, design, plain, name, false);
    equal(rt, name, design.fanout(net), readers.as_slice());
    drop(readers);
    let drivers = keys(rt, alloc, design, plain, name, true);
    equal(rt, name, design.drivers(net), drivers.as_slice());
    drop(drivers);
}

/// The gate at a place, and the net that it drives.
fn check_gate(rt: &impl Abort, design: &Design, place: usize, gate: &PlainGate) {
    equal(rt, gate.name, design.gate_place(gate.name), Some(place));
    assert!(rt; place < design.gate_count());
    let output = design.gate_at(place).output();
    equal(rt, gate.name, Some(output), design.net(gate.output));
}

fn compare(rt: &impl Abort, alloc: Global, design: &Design, plain: &Plain) {
    equal(rt, "net count", design.net_count(), plain.nets.len());
    equal(rt, "gate count", design.gate_count(), plain.gates.len());
    for (place, name) in plain.nets.iter().enumerate() {
        check_net(rt, alloc, design, plain, place, name);
    }
    for (place, gate) in plain.gates.iter().enumerate() {
        check_gate(rt, design, place, gate);
    }
}

fn next_step(
    rt: &impl Abort,
    alloc: Global,
    dice: &mut Dice,
    design: &Design,
    plain: &mut Plain,
) -> Step {
    let net = NETS[dice.below(5) as usize];
    let wanted = PlainGate {
        name: GATES[dice.below(5) as usize],
        output: NETS[dice.below(5) as usize],
        inputs: [NETS[dice.below(5) as usize], NETS[dice.below(5) as usize]],
    };
    match dice.below(4) {
        0 => net_step(rt, alloc, design, plain, net),
        1 => gate_step(rt, design, plain, wanted, true),
        _ => gate_step(rt, design, plain, wanted, false),
    }
}

// The design after a random step. A copy of the one before goes on beside it for a while.
fn turn(
    rt: &impl Abort,
    alloc: Global,
    dice: &mut Dice,
    design: Design,
    plain: &mut Plain,
) -> Design {
    let before = design.try_clone().expect(rt, "a copy");
    let step = next_step(rt, alloc, dice, &before, plain);
    drop(before);
    take_step(rt, alloc, design, step)
}

#[test]
fn random_edits(rt: HostRuntime) {
    let alloc = rt.alloc();
    let mut dice = Dice(7);
    let mut design = empty(&rt, alloc);
    let mut plain = Plain {
        nets: Vec::new(alloc),
        gates: Vec::new(alloc),
    };
    for _ in 0..400 {
        design = turn(&rt, alloc, &mut dice, design, &mut plain);
        compare(&rt, alloc, &design, &plain);
    }
    assert!(rt; plain.gates.len() > 1);
    drop(design);
}
