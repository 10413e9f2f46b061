//! A circuit of so many gates: gates of two inputs, each behind its net, which read inputs and earlier nets; one input for 16
//! gates, and four points of each.

use crate::built::{built, name_of};
use anyhow::Result;
use design::Design;
use edits::{Edit, Pin, Pins, Word};
use fourstate::{DelayTimes, GateKind, NetKind, Value};
use std::alloc::Global;

const KINDS: [GateKind; 4] = [GateKind::Nand, GateKind::Nor, GateKind::Xor, GateKind::And];

/// How many points an input has.
const POINTS: usize = 4;

/// The moments from one point of an input to its next.
const GAP: usize = 25;

/// The last moment of the run.
const HORIZON: u64 = 100;

fn input_count(gates: usize) -> usize {
    gates / 16 + 4
}

// A net that the gate of a number may read: which one of them is spread evenly.
fn source(alloc: Global, inputs: usize, number: usize, pin: usize) -> Result<Word> {
    let all = inputs.saturating_add(number).max(1);
    let place = number
        .wrapping_mul(7919)
        .wrapping_add(pin.wrapping_mul(104_729))
        % all;
    if place < inputs {
        name_of(alloc, "a", place)
    } else {
        name_of(alloc, "n", place - inputs)
    }
}

fn gate(alloc: Global, inputs: usize, number: usize) -> Result<Edit> {
    let mut pins = Pins::new(alloc);
    for pin in 0..2 {
        let net = source(alloc, inputs, number, pin)?;
        pins.push(Pin::Net(net))?;
    }
    Ok(Edit::AddGate {
        name: name_of(alloc, "g", number)?,
        kind: KINDS[number % 4],
        delays: DelayTimes::uniform((number % 10) as u64 + 1),
        output: name_of(alloc, "n", number)?,
        inputs: pins,
    })
}

fn point(alloc: Global, input: usize, place: usize) -> Result<Edit> {
    let value = if place % 2 == 0 {
        Value::One
    } else {
        Value::Zero
    };
    let time = (place.wrapping_mul(GAP).wrapping_add(input % GAP)) as u64;
    let net = name_of(alloc, "a", input)?;
    Ok(Edit::Stim { net, time, value })
}

fn all_edits(alloc: Global, gates: usize) -> Result<Vec<Edit>> {
    let mut edits = Vec::new(alloc);
    let inputs = input_count(gates);
    for number in 0..inputs {
        let name = name_of(alloc, "a", number)?;
        edits.push(Edit::AddInput { name })?;
    }
    for number in 0..gates {
        let name = name_of(alloc, "n", number)?;
        let kind = NetKind::Wire;
        edits.push(Edit::AddNet { name, kind })?;
        let gate = gate(alloc, inputs, number)?;
        edits.push(gate)?;
    }
    for number in 0..inputs.saturating_mul(POINTS) {
        let point = point(alloc, number / POINTS, number % POINTS)?;
        edits.push(point)?;
    }
    Ok(edits)
}

/// The circuit of so many gates.
pub fn circuit(alloc: Global, gates: usize) -> Result<Design> {
    let edits = all_edits(alloc, gates)?;
    let design = built(alloc, edits.as_slice())?;
    Ok(design.set_horizon(HORIZON))
}

/// Edits that give so many gates, spread over the circuit, this delay.
pub fn delays(alloc: Global, gates: usize, count: usize, delay: u64) -> Result<Vec<Edit>> {
    let mut edits = Vec::new(alloc);
    for place in 0..count {
        let number = place.wrapping_mul(937) % gates.max(1);
        let name = name_of(alloc, "g", number)?;
        let delays = DelayTimes::uniform(delay);
        edits.push(Edit::SetDelay { name, delays })?;
    }
    Ok(edits)
}
