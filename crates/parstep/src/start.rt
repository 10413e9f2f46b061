//! How the workers of a pool are started.

ghost use Rattle.std.specs.Prelude.{◌≡◌, ◌<◌, ◌≤◌, vec_len, IfOk, IfErr};
ghost use Rattle.parstep.specs.declared.limits.TheConstants.{MAX_WORKERS};

use crate::seat::Seat;
use crate::worker::{Probe, work};
use crossbeam_channel::bounded;
use gatestep::StepFault;
use std::alloc::{AllocError, Global};
use std::sync::{Arc, Wait};
use std::thread;
use std::thread::Threads;

/// Starts so many workers, each with channels of its own. Where that fails, those that were started end.
pub fn start_all<
    P: Probe + Send + Sync + Drop + 'static,
    R: Threads + Wait + Copy + Send + 'static,
>(rt: R, alloc: Global, workers: u32, probe: P) -> Result<Vec<Seat>, AllocError>
    ensures count { IfOk result (λ seats. vec_len seats ≡ workers) }
{
    let probe = Arc::new(alloc, probe)?;
    let mut seats = Vec::with_capacity(alloc, workers as usize)?;
    for _ in 0..workers {
        let seat = start(rt, alloc, Arc::try_clone(&probe)?)?;
        if seats.push(seat).is_err() {
            return Err(AllocError);
        }
    }
    Ok(seats)
}

/// Starts a worker. Its thread's handle is dropped, so it lives on until its channels are closed or its probe ends it.
fn start<P: Probe + Send + Sync + Drop + 'static, R: Threads + Wait + Copy + Send + 'static>(
    rt: R,
    alloc: Global,
    probe: Arc<P>,
) -> Result<Seat, AllocError> {
    let Ok((errands, theirs)) = bounded(alloc, 1) else {
        return Err(AllocError);
    };
    let Ok((back, answers)) = bounded(alloc, 1) else {
        return Err(AllocError);
    };
    match thread::spawn(&rt, move || work(&rt, &*probe, &theirs, &back)) {
        Ok(worker) => Ok(Seat::new(alloc, errands, answers, worker)),
        Err(_) => Err(AllocError),
    }
}
