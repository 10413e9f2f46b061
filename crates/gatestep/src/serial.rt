//! A stepper that evaluates on the caller's thread.

ghost use Rattle.std.specs.Prelude.{false, [], ◌≡◌, ◌≢◌, ◌<◌, ◌≤◌, ◌+◌, ◌++◌, length, map, All, OnOk, OnErr, if◌then◌else◌};
ghost use Rattle.fourstate.specs.declared.limits.TheConstants.{MAX_TIME};
ghost use Rattle.gatestep.specs.Faults.{is_lost};
ghost use Rattle.gatestep.specs.Record.{at_moment};
ghost use Rattle.gatestep.specs.Step.{advance};
ghost use Rattle.gatestep.specs.kept.StepLaws.{advance_current, advance_later, advance_near, advance_stays};
ghost use Rattle.gatestep.specs.Tasks.{IsReady, PendingFrom};

use crate::driver::Driver;
use crate::fault::StepFault;
use crate::job::Job;
use crate::record::Record;
use crate::stepper::Stepper;
use crate::task::{Task, next};
use std::alloc::{AllocError, Global};

/// Evaluates gates one after another, on the caller's thread.
#[derive(Drop)]
pub struct Serial {
    history: Record,
    ghost none_lost: { history.losses ≡ 0 },
}

impl Serial {
    /// A stepper that was asked nothing.
    pub fn new() -> Serial
        ensures asked { ⟦<Serial as Stepper>⟧.asked result ≡ [] }
        ensures losses { ⟦<Serial as Stepper>⟧.losses result ≡ 0 }
    {
        Serial {
            history: Record::new(),
        }
    }

    /// Counts what another record has as asked after all that was, where no worker was lost in it. Nothing runs.
    #[inline(always)]
    pub fn append(&mut self, other: &Record)
        requires none_lost { other.now.losses ≡ 0 }
        ensures asked { ⟦<Serial as Stepper>⟧.asked self.new ≡ ⟦<Serial as Stepper>⟧.asked self.old ++ other.now.asked }
    {
        self.history.append(other);
    }

    /// What it was asked.
    #[inline(always)]
    pub fn into_record(self) -> Record
        ensures asked { result.asked ≡ ⟦<Serial as Stepper>⟧.asked self }
        ensures losses { result.losses ≡ 0 }
    {
        let Serial { history } = self;
        history
    }
}

impl Stepper for Serial {
    ghost answer = { advance };

    ghost asked = { λ s. s.history.asked };

    ghost losses = { λ s. s.history.losses };

    /// It never loses a worker; `OutOfMemory` where `out` can't grow.
    fn step(&mut self, tasks: &[Task], t: u64, out: &mut Vec<Driver>) -> Result<(), StepFault>
        requires empty { out.old.items ≡ [] }
        requires ready { All (IsReady t) tasks.now }
        requires within { 0 < length tasks.now → t ≤ MAX_TIME }
        ensures answers { OnOk result (out.new.items ≡ map (λ task. advance task t) tasks.now) }
        ensures later { OnOk result (All (PendingFrom (t + 1)) out.new.items) }
        ensures none { OnErr result (out.new.items ≡ []) }
        ensures recorded { ⟦<Serial as Stepper>⟧.asked self.new ≡ ⟦<Serial as Stepper>⟧.asked self.old ++ at_moment t tasks.now }
        ensures lost { ⟦<Serial as Stepper>⟧.losses self.new ≡ ⟦<Serial as Stepper>⟧.losses self.old + (if is_lost result then 1 else 0) }
        ensures never { result ≢ Err StepFault.WorkerLost }
    {
        self.history.add(tasks, t, false);
        for task in tasks {
            if out.push(next(task, t)).is_err() {
                out.clear();
                return Err(StepFault::OutOfMemory);
            }
        }
        Ok(())
    }

    /// It deals to nobody.
    #[inline(always)]
    fn deals(&self, _tasks: usize) -> bool
        ensures { result ≡ false }
    {
        false
    }

    #[inline(always)]
    fn evaluate(&mut self, task: &Task, t: u64) -> Driver {
        self.history.add_one(task, t);
        next(task, t)
    }

    /// It deals to nobody.
    #[inline(always)]
    fn takes_jobs(&self) -> bool
        ensures { result ≡ false }
    {
        self.deals(0)
    }

    /// It does them one after another, on the caller's thread.
    fn run_jobs<J: Job + Sync>(
        &mut self,
        alloc: Global,
        jobs: &[J],
    ) -> Result<Vec<J::Output>, AllocError> {
        let mut outputs = Vec::with_capacity(alloc, jobs.len())?;
        for job in jobs {
            let outcome = job.run();
            self.history.append(&outcome.record);
            outputs.push(outcome.output?)?;
        }
        Ok(outputs)
    }

    ghost answer_current = { advance_current };

    ghost answer_pending = { advance_later };

    ghost answer_near = { advance_near };

    ghost answer_stays = { advance_stays };
}
