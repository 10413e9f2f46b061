//! A stepper in threads that counts what it is asked for.

ghost use Rattle.std.specs.Prelude.{◌<◌, ◌≤◌, true};
ghost use Rattle.gatestep.specs.Step.{advance};
ghost use Rattle.gatestep.specs.kept.StepLaws.{advance_current, advance_later, advance_near, advance_stays};
ghost use Rattle.parstep.specs.declared.limits.TheConstants.{MAX_WORKERS};

use gatestep::{Driver, Job, StepFault, Stepper, Task};
use parstep::Parallel;
use std::alloc::{AllocError, Global};
use std::thread::Threads;

/// Passes all on to `Parallel`, and counts how often jobs were asked for, and the jobs in all.
#[derive(Drop)]
pub struct Asking<R: Threads + Sync + Drop> {
    parallel: Parallel<R>,
    calls: usize,
    jobs: usize,
}

impl<R: Threads + Sync + Drop> Asking<R> {
    /// A stepper of so many workers.
    pub fn open(rt: R, workers: u32) -> Asking<R>
        requires some { 0 < workers }
        requires few { workers ≤ MAX_WORKERS }
    {
        Asking {
            parallel: Parallel::open(rt, workers),
            calls: 0,
            jobs: 0,
        }
    }

    /// How often jobs were asked for, and how many in all.
    pub fn asked(&self) -> (usize, usize) {
        (self.calls, self.jobs)
    }
}

impl<R: Threads + Sync + Drop> Stepper for Asking<R> {
    ghost answer = { advance };

    ghost asked = { λ s. ⟦<Parallel<R> as Stepper>⟧.asked s.parallel };

    ghost losses = { λ s. ⟦<Parallel<R> as Stepper>⟧.losses s.parallel };

    fn step(&mut self, tasks: &[Task], t: u64, out: &mut Vec<Driver>) -> Result<(), StepFault> {
        self.parallel.step(tasks, t, out)
    }

    fn deals(&self, tasks: usize) -> bool {
        self.parallel.deals(tasks)
    }

    fn evaluate(&mut self, task: &Task, t: u64) -> Driver {
        self.parallel.evaluate(task, t)
    }

    fn takes_jobs(&self) -> bool {
        self.parallel.takes_jobs()
    }

    fn run_jobs<J: Job + Sync>(
        &mut self,
        alloc: Global,
        jobs: &[J],
    ) -> Result<Vec<J::Output>, AllocError> {
        self.calls = self.calls.saturating_add(1);
        self.jobs = self.jobs.saturating_add(jobs.len());
        self.parallel.run_jobs(alloc, jobs)
    }

    ghost answer_current = { advance_current };

    ghost answer_pending = { advance_later };

    ghost answer_near = { advance_near };

    ghost answer_stays = { advance_stays };
}
