//! What is timed.

use super::changes::{KINDS, Kind, points_in_order, random_edits};
use super::circuit::circuit;
use crate::built::{applied, built, built_on};
use crate::clock::{now, since};
use anyhow::{Result, bail};
use design::Design;
use edits::Edit;
use std::time::CpuClock;

/// How often a design is cloned.
const ROUNDS: usize = 20;

/// How many edits of each kind a design is given.
const EDITS: usize = 1_000;

/// How many points an input has before more are added behind them.
pub const POINTS: u64 = 10_000;

/// Nanoseconds of processor time for one design.
#[derive(Drop)]
pub struct Times {
    /// Building it by lists of edits.
    pub build: u64,
    /// One clone and its drop; the least of all rounds.
    pub clone: u64,
    /// One edit of each of `KINDS`, in a list of 1,000; the mean of all edits.
    pub listed: [u64; 3],
    /// A list of one edit of each of `KINDS`, and the drop of the design that it gives; the mean of all edits.
    pub alone: [u64; 3],
    /// A list of one point of an input behind `POINTS` others, and the drop of the design that it gives; the mean.
    pub behind: u64,
}

/// The times of a random design of so many gates.
pub fn measured<R: CpuClock + AllocGlobal>(rt: &R, gates: usize, seed: u64) -> Result<Times> {
    let edits = circuit(rt.alloc(), gates, seed)?;
    let start = now(rt)?;
    let design = built(rt.alloc(), edits.as_slice())?;
    let build = since(rt, start)?;
    timed(rt, &design, build, gates)
}

fn timed<R: CpuClock + AllocGlobal>(
    rt: &R,
    design: &Design,
    build: u64,
    gates: usize,
) -> Result<Times> {
    if design.gate_count() != gates {
        bail!("the circuit has another number of gates");
    }
    let clone = clone_time(rt, design)?;
    let mut listed = [0; 3];
    let mut alone = [0; 3];
    for (place, kind) in KINDS.iter().enumerate() {
        (listed[place], alone[place]) = edit_times(rt, design, *kind, gates)?;
    }
    let behind = behind_time(rt, design)?;
    Ok(Times {
        build,
        clone,
        listed,
        alone,
        behind,
    })
}

fn clone_time<R: CpuClock>(rt: &R, design: &Design) -> Result<u64> {
    let mut least = u64::MAX;
    for _ in 0..ROUNDS {
        let start = now(rt)?;
        let copy = design.try_clone()?;
        drop(copy);
        least = least.min(since(rt, start)?);
    }
    Ok(least)
}

// The time of an edit of a kind, in a list and alone.
fn edit_times<R: CpuClock + AllocGlobal>(
    rt: &R,
    design: &Design,
    kind: Kind,
    gates: usize,
) -> Result<(u64, u64)> {
    let edits = random_edits(rt.alloc(), kind, gates, EDITS)?;
    let listed = list_time(rt, design, edits.as_slice())?;
    let alone = alone_time(rt, design, edits.as_slice())?;
    Ok((listed / EDITS as u64, alone))
}

// The time of a point behind many others of its net.
fn behind_time<R: CpuClock + AllocGlobal>(rt: &R, design: &Design) -> Result<u64> {
    let before = points_in_order(rt.alloc(), 0, POINTS)?;
    let full = built_on(rt.alloc(), design, before.as_slice())?;
    let after = points_in_order(rt.alloc(), POINTS, EDITS as u64)?;
    alone_time(rt, &full, after.as_slice())
}

// The mean time of edits, each as a list of its own.
fn alone_time<R: CpuClock + AllocGlobal>(rt: &R, design: &Design, edits: &[Edit]) -> Result<u64> {
    let mut spent = 0u64;
    for place in 0..edits.len() {
        spent = spent.saturating_add(list_time(rt, design, &edits[place..place + 1])?);
    }
    Ok(spent / EDITS as u64)
}

// The time of a list of edits, and of dropping the design that it gives.
fn list_time<R: CpuClock + AllocGlobal>(rt: &R, design: &Design, edits: &[Edit]) -> Result<u64> {
    let start = now(rt)?;
    let new = applied(rt.alloc(), design, edits)?;
    drop(new);
    since(rt, start)
}
