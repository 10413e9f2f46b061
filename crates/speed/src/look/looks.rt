//! The looks of one viewer.

use crate::clock::nanoseconds;
use hub::{HubName, Viewer};
use std::alloc::Global;
use std::time::{Clock, Instant};

/// How many looks are timed one by one.
const EACH: usize = 100_000;

/// How many looks are timed in one.
const ALL: u64 = 1_000_000;

/// A look that takes more nanoseconds is slow.
const SLOW: u64 = 2_000;

/// What looks took.
#[derive(Clone, Copy)]
pub struct Times {
    /// The nanoseconds that half of the looks took at most.
    pub half: u64,
    /// The nanoseconds that 999 of 1,000 looks took at most.
    pub most: u64,
    /// How many looks were slow.
    pub slow: u64,
    /// How many looks there were in a second.
    pub second: u64,
}

/// The times of this viewer's looks.
pub fn times_of<J: HubName, R: Clock>(rt: &R, alloc: Global, viewer: Viewer<J>) -> Option<Times> {
    let mut viewer = viewer;
    let second = in_a_second(rt, &mut viewer)?;
    let mut passed = Vec::with_capacity(alloc, EACH).ok()?;
    for _look in 0..EACH {
        let time = one_look(rt, &mut viewer)?;
        passed.push(time).ok()?;
    }
    passed.sort_unstable();
    Some(Times {
        half: part_of(&passed, 500),
        most: part_of(&passed, 999),
        slow: slow_count(&passed),
        second,
    })
}

// The time that so many thousandths of sorted times are at most.
fn part_of(times: &[u64], thousandths: usize) -> u64 {
    let place = (times.len() / 1_000).wrapping_mul(thousandths);
    match times.get(place) {
        Some(time) => *time,
        None => 0,
    }
}

fn slow_count(times: &[u64]) -> u64 {
    let mut count = 0u64;
    for time in times {
        if *time > SLOW {
            count = count.wrapping_add(1);
        }
    }
    count
}

// The nanoseconds of one look. What it gives is dropped behind it.
fn one_look<J: HubName, R: Clock>(rt: &R, viewer: &mut Viewer<J>) -> Option<u64> {
    let start = Instant::now(rt).ok()?;
    let seen = viewer.look();
    let passed = start.elapsed(rt).ok()?;
    drop(seen.ok()?);
    Some(nanoseconds(passed))
}

// How many looks there are in a second, with the drop of what they give.
fn in_a_second<J: HubName, R: Clock>(rt: &R, viewer: &mut Viewer<J>) -> Option<u64> {
    let start = Instant::now(rt).ok()?;
    for _look in 0..ALL {
        drop(viewer.look().ok()?);
    }
    let passed = nanoseconds(start.elapsed(rt).ok()?);
    Some(ALL.saturating_mul(1_000_000_000) / passed.max(1))
}
