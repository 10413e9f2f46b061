//! A random circuit, as the edits that build it: inputs `a0`, `a1`, .., and gates `g0`, `g1`, .., where `g7` drives the
//! net `n7`. A gate reads inputs and earlier nets.

use super::random::Random;
use crate::built::name_of;
use anyhow::{Result, bail};
use edits::{Edit, Pin, Pins, Word};
use fourstate::{DelayTimes, GateKind, NetKind};
use std::alloc::Global;

/// The kinds of gates, each with a number of inputs.
const KINDS: [(GateKind, usize); 7] = [
    (GateKind::And, 2),
    (GateKind::Nand, 2),
    (GateKind::Nand, 3),
    (GateKind::Or, 2),
    (GateKind::Nor, 3),
    (GateKind::Xor, 2),
    (GateKind::Not, 1),
];

/// The greatest delay of a gate.
const MAX_DELAY: usize = 10;

/// How many inputs a circuit of so many gates has.
pub fn input_count(gates: usize) -> usize {
    (gates / 16).saturating_add(4)
}

/// The edits that build a circuit of so many gates.
pub fn circuit(alloc: Global, gates: usize, seed: u64) -> Result<Vec<Edit>> {
    let mut edits = Vec::new(alloc);
    let inputs = input_count(gates);
    for number in 0..inputs {
        let name = name_of(alloc, "a", number)?;
        edits.push(Edit::AddInput { name })?;
    }
    let mut random = Random::new(seed);
    for number in 0..gates {
        let net = added_net(alloc, number)?;
        edits.push(net)?;
        let gate = added_gate(alloc, &mut random, inputs, number)?;
        edits.push(gate)?;
    }
    Ok(edits)
}

fn added_net(alloc: Global, number: usize) -> Result<Edit> {
    let name = name_of(alloc, "n", number)?;
    let kind = NetKind::Wire;
    Ok(Edit::AddNet { name, kind })
}

fn added_gate(alloc: Global, random: &mut Random, inputs: usize, number: usize) -> Result<Edit> {
    let (kind, _) = kind_of(number);
    let delays = DelayTimes::new(random_delay(random), random_delay(random));
    let name = name_of(alloc, "g", number)?;
    let output = name_of(alloc, "n", number)?;
    let inputs = random_pins(alloc, random, inputs, number)?;
    Ok(Edit::AddGate {
        name,
        kind,
        delays,
        output,
        inputs,
    })
}

// The kind of the gate of a number, and how many inputs it has.
fn kind_of(number: usize) -> (GateKind, usize) {
    KINDS[number % KINDS.len()]
}

/// A delay of 1 to `MAX_DELAY`.
pub fn random_delay(random: &mut Random) -> u64 {
    random.below(MAX_DELAY) as u64 + 1
}

/// What the inputs of the gate of this number may be connected to.
pub fn random_pins(
    alloc: Global,
    random: &mut Random,
    inputs: usize,
    number: usize,
) -> Result<Pins> {
    let (_, count) = kind_of(number);
    let mut pins = Pins::new(alloc);
    for _ in 0..count {
        let source = random_source(alloc, random, inputs, number)?;
        pins.push(Pin::Net(source))?;
    }
    Ok(pins)
}

// An input, or a net of an earlier gate.
fn random_source(alloc: Global, random: &mut Random, inputs: usize, number: usize) -> Result<Word> {
    let all = inputs.saturating_add(number);
    if all == 0 {
        bail!("there is nothing to read");
    }
    let place = random.below(all);
    if place < inputs {
        name_of(alloc, "a", place)
    } else {
        name_of(alloc, "n", place - inputs)
    }
}
