//! A stepper that does whole jobs in threads.

ghost use Rattle.std.specs.Prelude.{true, false, [], ◌≡◌, ◌<◌, ◌≤◌, length, vec_len, vec_capacity, All, IfOk};
ghost use Rattle.std.specs.List.{AllZip, flat_map};
ghost use Rattle.gatestep.specs.Step.{advance};
ghost use Rattle.gatestep.specs.kept.StepLaws.{advance_current, advance_later, advance_near, advance_stays};
ghost use Rattle.parstep.specs.declared.limits.TheConstants.{MAX_WORKERS};

use crate::limits::MAX_WORKERS;
use crate::places::{empty_places, outputs_of, record_all};
use crate::shareable::Shareable;
use gatestep::{Driver, Job, Serial, StepFault, Stepper, Task};
use std::alloc::{AllocError, Global};
use std::thread::Threads;

/// Does whole jobs in threads that are started for them, at most so many at once as it has workers, and evaluates the gates
/// of a step on the caller's thread. It keeps no thread, so none can be lost.
#[derive(Drop)]
pub struct Parallel<R: Threads + Sync + Drop> {
    rt: R,
    workers: u32,
    shareable: Shareable<R>,
    alone: Serial,
    ghost some: { 0 < workers },
    ghost few: { workers ≤ MAX_WORKERS },
}

impl<R: Threads + Sync + Drop> Parallel<R> {
    /// A stepper of so many workers that was asked nothing. It takes no memory and starts no thread.
    pub fn open(rt: R, workers: u32) -> Parallel<R>
        requires some { 0 < workers }
        requires few { workers ≤ MAX_WORKERS }
        ensures asked { ⟦<Parallel<R> as Stepper>⟧.asked result ≡ [] }
        ensures losses { ⟦<Parallel<R> as Stepper>⟧.losses result ≡ 0 }
    {
        Parallel {
            rt,
            workers,
            shareable: Shareable::new(),
            alone: Serial::new(),
        }
    }
}

impl<R: Threads + Sync + Drop> Stepper for Parallel<R> {
    ghost answer = { advance };

    ghost asked = { λ s. ⟦<Serial as Stepper>⟧.asked s.alone };

    ghost losses = { λ s. ⟦<Serial as Stepper>⟧.losses s.alone };

    /// It never loses a worker; `OutOfMemory` where `out` can't grow.
    fn step(&mut self, tasks: &[Task], t: u64, out: &mut Vec<Driver>) -> Result<(), StepFault> {
        self.alone.step(tasks, t, out)
    }

    /// It deals no tasks of a step.
    #[inline(always)]
    fn deals(&self, tasks: usize) -> bool
        ensures { result ≡ false }
    {
        self.alone.deals(tasks)
    }

    #[inline(always)]
    fn evaluate(&mut self, task: &Task, t: u64) -> Driver {
        self.alone.evaluate(task, t)
    }

    /// It deals jobs to threads.
    #[inline(always)]
    fn takes_jobs(&self) -> bool
        ensures { result ≡ true }
    {
        true
    }

    fn run_jobs<J: Job + Sync>(
        &mut self,
        alloc: Global,
        jobs: &[J],
    ) -> Result<Vec<J::Output>, AllocError> {
        let mut places = empty_places(alloc, jobs.len())?;
        let room = Vec::with_capacity(alloc, jobs.len())?;
        self.shareable.says();
        J::run_all(&self.rt, self.workers as usize, jobs, places.as_mut_slice());
        record_all(&mut self.alone, places.as_slice());
        outputs_of(places, room)
    }

    ghost answer_current = { advance_current };

    ghost answer_pending = { advance_later };

    ghost answer_near = { advance_near };

    ghost answer_stays = { advance_stays };
}
