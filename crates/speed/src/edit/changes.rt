//! Random edits of a circuit.

use super::circuit::{input_count, random_delay, random_pins};
use super::random::Random;
use crate::built::name_of;
use anyhow::Result;
use edits::Edit;
use fourstate::{DelayTimes, Value};
use std::alloc::Global;

/// What an edit changes.
#[derive(Clone, Copy, Debug)]
pub enum Kind {
    /// A stimulus point of an input.
    Point,
    /// The delays of a gate.
    Delays,
    /// What a gate reads.
    Wiring,
}

/// Each kind of edit.
pub const KINDS: [Kind; 3] = [Kind::Point, Kind::Delays, Kind::Wiring];

impl Kind {
    /// The name of the kind.
    pub fn name(self) -> &'static str {
        match self {
            Kind::Point => "point",
            Kind::Delays => "delays",
            Kind::Wiring => "wiring",
        }
    }
}

/// So many random edits of a kind, for the circuit of `gates` gates, at least one.
pub fn random_edits(alloc: Global, kind: Kind, gates: usize, count: usize) -> Result<Vec<Edit>> {
    let mut random = Random::new(2);
    let mut edits = Vec::new(alloc);
    for _ in 0..count {
        let edit = random_edit(alloc, &mut random, kind, gates)?;
        edits.push(edit)?;
    }
    Ok(edits)
}

/// One point of the first input at each of so many moments from `first` on.
pub fn points_in_order(alloc: Global, first: u64, count: u64) -> Result<Vec<Edit>> {
    let mut edits = Vec::new(alloc);
    for place in 0..count {
        let net = name_of(alloc, "a", 0)?;
        let time = first.saturating_add(place);
        let value = if place % 2 == 0 {
            Value::One
        } else {
            Value::Zero
        };
        edits.push(Edit::Stim { net, time, value })?;
    }
    Ok(edits)
}

fn random_edit(alloc: Global, random: &mut Random, kind: Kind, gates: usize) -> Result<Edit> {
    let number = random.below(gates.max(1));
    match kind {
        Kind::Point => random_point(alloc, random, input_count(gates)),
        Kind::Delays => random_delays(alloc, random, number),
        Kind::Wiring => random_wiring(alloc, random, input_count(gates), number),
    }
}

fn random_point(alloc: Global, random: &mut Random, inputs: usize) -> Result<Edit> {
    let net = name_of(alloc, "a", random.below(inputs.max(1)))?;
    let time = random.below(1_000) as u64;
    let value = Value::One;
    Ok(Edit::Stim { net, time, value })
}

fn random_delays(alloc: Global, random: &mut Random, number: usize) -> Result<Edit> {
    let delays = DelayTimes::new(random_delay(random), random_delay(random));
    let name = name_of(alloc, "g", number)?;
    Ok(Edit::SetDelay { name, delays })
}

fn random_wiring(alloc: Global, random: &mut Random, inputs: usize, number: usize) -> Result<Edit> {
    let name = name_of(alloc, "g", number)?;
    let output = name_of(alloc, "n", number)?;
    let inputs = random_pins(alloc, random, inputs, number)?;
    Ok(Edit::Rewire {
        name,
        output,
        inputs,
    })
}
