//! Times of designs: for each size that the words ask for, building a random design of so many gates by edits, cloning it
//! and editing it, in lists of edits and one by one. Each line of the output is `SIZE WHAT NANOSECONDS`, in processor time of the
//! thread.

mod changes;
mod circuit;
mod random;
mod rounds;

use anyhow::{Result, bail};
use changes::KINDS;
use std::time::CpuClock;

/// The seed of every circuit, so that each run builds the same ones.
const SEED: u64 = 1;

/// The times of designs of the sizes that the words say.
pub fn run<R: CpuClock + Print + AllocGlobal>(rt: &R, words: &[String]) -> Result<()> {
    for word in words {
        let Ok(gates) = word.as_str().parse::<usize>() else {
            bail!("a size is a number of gates");
        };
        let times = rounds::measured(rt, gates, SEED)?;
        println!(rt; "{gates} build {}", times.build)?;
        println!(rt; "{gates} clone {}", times.clone)?;
        for (kind, nanoseconds) in KINDS.iter().zip(times.listed) {
            println!(rt; "{gates} {}-in-a-list {nanoseconds}", kind.name())?;
        }
        for (kind, nanoseconds) in KINDS.iter().zip(times.alone) {
            println!(rt; "{gates} {}-alone {nanoseconds}", kind.name())?;
        }
        println!(rt; "{gates} point-behind-{} {}", rounds::POINTS, times.behind)?;
    }
    Ok(())
}
