//! A stepper over a parallel map.

ghost use Rattle.std.specs.Prelude.{true, false, [], ◌≡◌, ◌<◌, ◌≤◌, ◌+◌, ◌++◌, length, map, All, OnOk, OnErr, IfOk, if◌then◌else◌};
ghost use Rattle.fourstate.specs.declared.limits.TheConstants.{MAX_TIME};
ghost use Rattle.gatestep.specs.Faults.{is_lost};
ghost use Rattle.gatestep.specs.Record.{at_moment};
ghost use Rattle.gatestep.specs.Step.{advance};
ghost use Rattle.gatestep.specs.kept.StepLaws.{advance_current, advance_later, advance_near, advance_stays};
ghost use Rattle.gatestep.specs.Tasks.{IsReady, PendingFrom};

use crate::shareable::Shareable;
use gatestep::{Driver, Job, Record, Serial, StepFault, Stepper, Task, next};
use rayon::prelude::*;
use std::alloc::{AllocError, Global};
use std::thread::Threads;

/// Evaluates the gates of a step by a parallel map of rayon, which keeps their order. Few gates are evaluated in one
/// thread: rayon cuts a list into pieces of 1,024 at least.
#[derive(Drop)]
pub struct Bulk<R: Threads + Sync + Drop> {
    rt: R,
    alloc: Global,
    shareable: Shareable<R>,
    history: Record,
}

impl<R: Threads + Sync + Drop> Bulk<R> {
    /// A stepper that was asked nothing.
    pub fn open(rt: R, alloc: Global) -> Bulk<R>
        ensures asked { ⟦<Bulk<R> as Stepper>⟧.asked result ≡ [] }
        ensures losses { ⟦<Bulk<R> as Stepper>⟧.losses result ≡ 0 }
    {
        Bulk {
            rt,
            alloc,
            shareable: Shareable::new(),
            history: Record::new(),
        }
    }
}

/// The answers to all tasks at the moment `t`, in their order. It fails where memory runs out.
fn answers<R: Threads + Sync>(
    rt: &R,
    alloc: Global,
    tasks: &[Task],
    t: u64,
) -> Result<Vec<Driver>, AllocError>
    requires ready { All (IsReady t) tasks.now }
    requires within { 0 < length tasks.now → t ≤ MAX_TIME }
    ensures answers { IfOk result (λ v. v.items ≡ map (λ task. advance task t) tasks.now) }
    ensures later { IfOk result (λ v. All (PendingFrom (t + 1)) v.items) }
{
    tasks
        .par_iter()
        .map(
            |task: &Task| -> Driver
                requires { IsReady t task.now × (t ≤ MAX_TIME) }
                ensures { (result ≡ advance task.now t) × PendingFrom (t + 1) result }
            { next(task, t) },
        )
        .collect(rt, alloc)
}

impl<R: Threads + Sync + Drop> Stepper for Bulk<R> {
    ghost answer = { advance };

    ghost asked = { λ s. s.history.asked };

    ghost losses = { λ s. s.history.losses };

    /// It never loses a worker; `OutOfMemory` where the map fails.
    fn step(&mut self, tasks: &[Task], t: u64, out: &mut Vec<Driver>) -> Result<(), StepFault> {
        self.history.add(tasks, t, false);
        self.shareable.says();
        match answers(&self.rt, self.alloc, tasks, t) {
            Ok(all) => {
                *out = all;
                Ok(())
            }
            Err(_) => Err(StepFault::OutOfMemory),
        }
    }

    /// It deals every step.
    fn deals(&self, _tasks: usize) -> bool
        ensures { result ≡ true }
    {
        true
    }

    fn evaluate(&mut self, task: &Task, t: u64) -> Driver {
        self.history.add_one(task, t);
        next(task, t)
    }

    /// It deals no jobs.
    fn takes_jobs(&self) -> bool
        ensures { result ≡ false }
    {
        false
    }

    /// It does them one after another, on the caller's thread.
    fn run_jobs<J: Job + Sync>(
        &mut self,
        alloc: Global,
        jobs: &[J],
    ) -> Result<Vec<J::Output>, AllocError> {
        let mut alone = Serial::new();
        let outputs = alone.run_jobs(alloc, jobs);
        self.history.append(&alone.into_record());
        outputs
    }

    ghost answer_current = { advance_current };

    ghost answer_pending = { advance_later };

    ghost answer_near = { advance_near };

    ghost answer_stays = { advance_stays };
}
