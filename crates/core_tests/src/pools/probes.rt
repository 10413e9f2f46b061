//! Probes that hold pieces or end workers.

use crate::compare::equal;
use parstep::{MAX_WORKERS, Probe};
use std::alloc::Global;
use std::process::Abort;
use std::sync::atomic::{AtomicBool, AtomicU64, Ordering};
use std::sync::{Arc, Wait};
use std::time::Duration;

/// How often a wait looks before it gives up.
const MOST_LOOKS: u32 = 200;

/// Sleeps until a count is so high, for some seconds at most. Each change of the count wakes it.
fn reach(rt: &impl Wait, count: &AtomicU64, wanted: u32) -> bool {
    for _ in 0..MOST_LOOKS {
        let Ok(now) = u32::try_from(count.load(Ordering::SeqCst)) else {
            return false;
        };
        if now >= wanted {
            return true;
        }
        count.park_timeout(rt, now, Duration::from_millis(50));
    }
    false
}

/// Counts one more, and wakes who waits for it.
fn raise(count: &AtomicU64) {
    count.fetch_add(1, Ordering::SeqCst);
    count.wake_all();
}

/// Ends the worker of one piece while a flag is set.
#[derive(Drop)]
pub struct Ending {
    pub piece: u32,
    pub flag: Arc<AtomicBool>,
}

impl Probe for Ending {
    fn at(&self, piece: u32) -> bool {
        piece != self.piece || !self.flag.load(Ordering::SeqCst)
    }

    fn done(&self, _piece: u32) {}
}

/// How often workers came to each piece, and how often each was done.
#[derive(Drop)]
pub struct Calls {
    came: Vec<AtomicU64>,
    done: Vec<AtomicU64>,
    all_came: AtomicU64,
}

fn counts(rt: &impl Abort, alloc: Global) -> Vec<AtomicU64> {
    let mut counts = Vec::new(alloc);
    for _ in 0..MAX_WORKERS {
        counts.push(AtomicU64::new(0)).expect(rt, "one count more");
    }
    counts
}

impl Calls {
    pub fn new(rt: &impl Abort, alloc: Global) -> Calls {
        Calls {
            came: counts(rt, alloc),
            done: counts(rt, alloc),
            all_came: AtomicU64::new(0),
        }
    }

    /// A worker came to each of so many pieces once, each was done once, and there was no other.
    pub fn check(&self, rt: &impl Abort, pieces: usize) {
        for (of, counts) in [("came", &self.came), ("done", &self.done)] {
            for (piece, count) in counts.iter().enumerate() {
                let wanted = u64::from(piece < pieces);
                equal(rt, (of, piece), count.load(Ordering::SeqCst), wanted);
            }
        }
    }
}

/// What pieces wait for.
#[derive(Clone, Copy)]
pub enum Hold {
    /// Piece 0 until piece 1 is done.
    ForTheNext,
    /// Each until so many have come.
    ForAll(u32),
}

/// Counts its calls and holds pieces.
#[derive(Drop)]
pub struct Holding<R: Wait + Drop> {
    pub rt: R,
    pub calls: Arc<Calls>,
    pub hold: Hold,
}

impl<R: Wait + Drop> Probe for Holding<R> {
    fn at(&self, piece: u32) -> bool {
        if let Some(count) = self.calls.came.get(piece as usize) {
            raise(count);
        }
        raise(&self.calls.all_came);
        match self.hold {
            Hold::ForAll(wanted) => reach(&self.rt, &self.calls.all_came, wanted),
            Hold::ForTheNext => match self.calls.done.get(1) {
                Some(next) if piece == 0 => reach(&self.rt, next, 1),
                _ => true,
            },
        }
    }

    fn done(&self, piece: u32) {
        if let Some(count) = self.calls.done.get(piece as usize) {
            raise(count);
        }
    }
}
