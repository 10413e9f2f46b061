//! What threads share that follow gates ahead of a run.

use gateline::KnownLine;
use std::alloc::{AllocError, Global};
use std::sync::OnceLock;
use std::sync::atomic::{AtomicBool, Ordering};

/// What threads share that follow the gates of a design ahead of its run, by the places of the gates: the lines that they found, which
/// gates they took, and whether they are to stop. No result of a run depends on it, but how long it takes.
#[derive(Drop)]
pub struct Ahead {
    lines: Vec<OnceLock<KnownLine>>,
    taken: Vec<AtomicBool>,
    stop: AtomicBool,
}

impl Ahead {
    /// Nothing found, of so many gates. It fails where memory runs out.
    pub fn open(alloc: Global, gates: usize) -> Result<Ahead, AllocError> {
        let mut lines = Vec::with_capacity(alloc, gates)?;
        let mut taken = Vec::with_capacity(alloc, gates)?;
        for _ in 0..gates {
            lines.push(OnceLock::new())?;
            taken.push(AtomicBool::new(false))?;
        }
        Ok(Ahead {
            lines,
            taken,
            stop: AtomicBool::new(false),
        })
    }

    /// The line of the gate at a place, if a thread found it.
    pub fn line(&self, place: usize) -> Option<&KnownLine> {
        self.lines.get(place)?.get()
    }

    /// Whether the caller has the gate at a place to follow: the first who asks.
    pub fn take(&self, place: usize) -> bool {
        match self.taken.get(place) {
            Some(taken) => !taken.swap(true, Ordering::SeqCst),
            None => false,
        }
    }

    /// Puts the line of the gate at a place, for all.
    pub fn put(&self, place: usize, line: KnownLine) {
        if let Some(slot) = self.lines.get(place) {
            let _full = slot.try_set(line);
        }
    }

    /// Tells all threads to stop.
    pub fn stop(&self) {
        self.stop.store(true, Ordering::SeqCst);
    }

    /// Whether they are to stop.
    pub fn is_stopped(&self) -> bool {
        self.stop.load(Ordering::SeqCst)
    }
}

/// The line of the gate at a place, if there are threads that follow gates ahead and one found it.
pub fn known_at<'a>(ahead: Option<&'a Ahead>, place: usize) -> Option<&'a KnownLine> {
    ahead?.line(place)
}
