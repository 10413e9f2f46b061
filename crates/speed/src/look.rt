//! Times of looks at a hub over a random circuit: for each number of gates that the words ask for, viewers in threads of their
//! own look while an editor commits, and while it does not. Each line of the output is `GATES VIEWERS EDITS HALF MOST SLOW SECOND
//! COMMITS`: how many edits each commit has (0: there are no commits); the nanoseconds that half of the looks took at most, and
//! that 999 of 1,000 took at most, each of the viewer for which it is the most; how many looks took more than 2 microseconds; how
//! many looks all viewers made in a second together; and how many commits there were.

mod circuit;
mod looks;
mod rounds;

use anyhow::{Result, bail};
use circuit::{circuit, delays};
use std::alloc::Global;
use std::sync::Wait;
use std::thread::Threads;
use std::time::Clock;

const VIEWERS: [u32; 4] = [1, 2, 4, 8];

const EDITS: [usize; 3] = [0, 1, 64];

/// One line of the output.
fn row<R: Threads + Wait + Clock + Print + Sync>(
    rt: &R,
    alloc: Global,
    gates: usize,
    viewers: u32,
    edits: usize,
) -> Result<()> {
    let batches = (
        delays(alloc, gates, edits, 3)?,
        delays(alloc, gates, edits, 4)?,
    );
    let design = circuit(alloc, gates)?;
    let Some((times, commits)) = rounds::run(rt, alloc, design, viewers, batches) else {
        bail!("nothing was timed");
    };
    println!(rt;
        "{gates} {viewers} {edits} {} {} {} {} {commits}",
        times.half, times.most, times.slow, times.second,
    )?;
    Ok(())
}

/// The times of looks at circuits of the sizes that the words say.
pub fn run<R: Threads + Wait + Clock + Print + Sync + AllocGlobal>(
    rt: &R,
    words: &[String],
) -> Result<()> {
    for word in words {
        let Ok(gates) = word.as_str().parse::<usize>() else {
            bail!("a size is a number of gates");
        };
        for edits in EDITS {
            for viewers in VIEWERS {
                row(rt, rt.alloc(), gates, viewers, edits)?;
            }
        }
    }
    Ok(())
}
