//! Whether edits touched so much that a run beside the old one goes through the whole design.

use design::{Design, GateKey, NetKey};
use edits::Touched;
use std::alloc::{AllocError, Global};
use waveform::Run;

/// To look at a gate beside the old run takes about as long as to evaluate so many as from scratch (own).
const LOOK: usize = 8;

/// A list with fewer edits of nets than this is no stimulus of a whole design: it goes with what differs (own).
const STIMULUS: usize = 32;

/// Whether edits touched so much that to go through all gates is less work than to look for what differs: a good part of the
/// inputs, not only late, or of the gates. The run is the same in either way.
pub fn is_wide(
    alloc: Global,
    old: &Design,
    run: &Run,
    new: &Design,
    touched: &Touched,
) -> Result<bool, AllocError> {
    if touched.nets.len() >= STIMULUS {
        let inputs = inputs_among(alloc, new, touched.nets.as_slice())?;
        let inputs = inputs.as_slice();
        if are_points_many(new, inputs, touched.nets.len()) && differ_early(old, new, inputs) {
            return Ok(true);
        }
    }
    Ok(are_many(new, touched) && are_busy(run, new, touched))
}

/// The places of the inputs among these nets, each once.
fn inputs_among(alloc: Global, new: &Design, nets: &[NetKey]) -> Result<Vec<usize>, AllocError> {
    let mut inputs = Vec::with_capacity(alloc, nets.len())?;
    for net in nets {
        if let Some(place) = input_place(new, *net) {
            inputs.push(place)?;
        }
    }
    inputs.sort_unstable();
    inputs.dedup();
    Ok(inputs)
}

/// The place of the input of this key, if the design has one.
fn input_place(new: &Design, net: NetKey) -> Option<usize> {
    let place = new.net_place_of(net)?;
    if new.net_of(net).is_input() {
        return Some(place);
    }
    None
}

/// Whether these inputs are a good part of all, and so many edits a good part of their points. Most gates drive a net of their own,
/// so there are about as many inputs as there are more nets than gates.
fn are_points_many(new: &Design, inputs: &[usize], edits: usize) -> bool {
    let all = new.net_count().saturating_sub(new.gate_count());
    let mut points = 0usize;
    for place in inputs {
        points = points.saturating_add(point_count(new, *place));
    }
    !inputs.is_empty()
        && inputs.len().saturating_mul(LOOK) >= all
        && edits.saturating_mul(LOOK) >= points
}

/// How many points the net at a place has; 0 where there is none.
fn point_count(new: &Design, place: usize) -> usize {
    if place < new.net_count() {
        return new.net_at(place).point_count();
    }
    0
}

/// Whether the stimulus of one of these inputs differs in the first half of the run. A run through all gates begins at moment 0,
/// however late the difference.
fn differ_early(old: &Design, new: &Design, inputs: &[usize]) -> bool {
    let middle = new.horizon() / 2;
    for place in inputs {
        if differs_until(old, new, *place, middle) {
            return true;
        }
    }
    false
}

/// Whether the stimulus of the net at a place, which both designs have, differs up to the moment `end`.
fn differs_until(old: &Design, new: &Design, place: usize, end: u64) -> bool {
    if place >= new.net_count() {
        return false;
    }
    let key = new.net_key_at(place);
    if old.net_place_of(key).is_none() {
        return false;
    }
    match old
        .net_of(key)
        .parts_from(new.net_at(place), 0, end.saturating_add(1))
    {
        Some(moment) => moment <= end,
        None => false,
    }
}

/// Whether the touched gates and those that read what they drive are a good part of all.
fn are_many(new: &Design, touched: &Touched) -> bool {
    let mut count = touched.gates.len();
    for gate in touched.gates.as_slice() {
        count = count.saturating_add(readers_behind(new, *gate).len());
    }
    count > 0 && count.saturating_mul(LOOK) >= new.gate_count()
}

/// The gates that read what a gate drives.
fn readers_behind(new: &Design, gate: GateKey) -> &[GateKey] {
    if new.gate_place_of(gate).is_none() {
        return &[];
    }
    new.fanout(new.gate_of(gate).output())
}

/// Whether a good part of what the old run keeps of gates is of these.
fn are_busy(run: &Run, new: &Design, touched: &Touched) -> bool {
    let mut count = entries_of(run, touched.gates.as_slice());
    for gate in touched.gates.as_slice() {
        count = count.saturating_add(entries_of(run, readers_behind(new, *gate)));
    }
    count.saturating_mul(LOOK) >= all_entries(run, new)
}

/// How many entries the old run keeps of all gates of the new design: about as many as a run from scratch.
pub fn all_entries(run: &Run, new: &Design) -> usize {
    let mut all = 0usize;
    for place in 0..new.gate_count() {
        all = all.saturating_add(entry_count(run, new.gate_key_at(place)));
    }
    all
}

/// How many entries the old run keeps of some gates.
fn entries_of(run: &Run, gates: &[GateKey]) -> usize {
    let mut count = 0usize;
    for gate in gates {
        count = count.saturating_add(entry_count(run, *gate));
    }
    count
}

/// How many entries the old run keeps of a gate; one, where it has none.
fn entry_count(run: &Run, gate: GateKey) -> usize {
    match run.trace(gate.number()) {
        Some(trace) => trace.entries().len(),
        None => 1,
    }
}
