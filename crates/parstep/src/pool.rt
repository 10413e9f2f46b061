//! A stepper over threads that live on.

ghost use Rattle.std.specs.Prelude.{true, false, [], ◌≡◌, ◌<◌, ◌≤◌, ◌+◌, ◌++◌, ℕ, length, map, vec_len, All, OnOk, OnErr, IfOk, IfErr, Err, if◌then◌else◌, nat_lt};
ghost use Rattle.fourstate.specs.declared.limits.TheConstants.{MAX_TIME};
ghost use Rattle.gatestep.specs.Faults.{is_lost};
ghost use Rattle.gatestep.specs.Record.{at_moment};
ghost use Rattle.gatestep.specs.Step.{advance};
ghost use Rattle.gatestep.specs.kept.StepLaws.{advance_current, advance_later, advance_near, advance_stays};
ghost use Rattle.gatestep.specs.Tasks.{IsReady, PendingFrom};
ghost use Rattle.parstep.specs.declared.limits.TheConstants.{MAX_WORKERS};

use crate::gather::answers;
use crate::limits::MAX_WORKERS;
use crate::seat::Seat;
use crate::start::start_all;
use crate::worker::Probe;
use gatestep::{Driver, Job, Record, Serial, StepFault, Stepper, Task, next};
use std::alloc::{AllocError, Global};
use std::marker::PhantomData;
use std::sync::Wait;
use std::thread::Threads;

/// Evaluates the gates of a step in threads that live on, each with two channels of its own. A step deals its tasks in
/// pieces, one to each of the first workers, as many as there are workers or tasks, whichever is less. Once a worker was
/// lost, every step answers so. A pool that is dropped closes its channels, and its workers end.
#[derive(Drop)]
pub struct Pool<P: Probe, R: Wait + Drop> {
    rt: R,
    alloc: Global,
    seats: Vec<Seat>,
    is_lost: bool,
    history: Record,
    probe: PhantomData<P>,
    ghost some: { 0 < vec_len seats },
    ghost few: { vec_len seats ≤ MAX_WORKERS },
    ghost lost: { is_lost ≡ nat_lt 0 history.losses },
}

impl<
    P: Probe + Send + Sync + Drop + 'static,
    R: Threads + Wait + Copy + Drop + Send + 'static,
> Pool<P, R> {
    ghost use Rattle.parstep.specs.kept.Workers.{workers_of};

    /// Starts so many workers, whose pieces pass the probe. A thread that can't be started is answered as an allocation
    /// that is refused; the workers that were started by then end.
    pub fn open(rt: R, alloc: Global, workers: u32, probe: P) -> Result<Pool<P, R>, StepFault>
        requires some { 0 < workers }
        requires few { workers ≤ MAX_WORKERS }
        ensures workers { IfOk result (λ pool. workers_of pool ≡ workers) }
        ensures asked { IfOk result (λ pool. ⟦<Pool<P, R> as Stepper>⟧.asked pool ≡ []) }
        ensures losses { IfOk result (λ pool. ⟦<Pool<P, R> as Stepper>⟧.losses pool ≡ 0) }
        ensures fault { IfErr result (λ fault. fault ≡ StepFault.OutOfMemory) }
    {
        let seats = start_all(rt, alloc, workers, probe)?;
        Ok(Pool {
            rt,
            alloc,
            seats,
            is_lost: false,
            history: Record::new(),
            probe: PhantomData,
        })
    }
}

impl<P: Probe, R: Wait + Drop> Stepper for Pool<P, R> {
    ghost use Rattle.parstep.specs.kept.Workers.{workers_of};

    ghost answer = { advance };

    ghost asked = { λ s. s.history.asked };

    ghost losses = { λ s. s.history.losses };

    /// `WorkerLost` where a worker has ended before its answers came, and in every step after that; `OutOfMemory` where
    /// an allocation is refused.
    fn step(&mut self, tasks: &[Task], t: u64, out: &mut Vec<Driver>) -> Result<(), StepFault>
        requires empty { out.old.items ≡ [] }
        requires ready { All (IsReady t) tasks.now }
        requires within { 0 < length tasks.now → t ≤ MAX_TIME }
        ensures answers { OnOk result (out.new.items ≡ map (λ task. advance task t) tasks.now) }
        ensures later { OnOk result (All (PendingFrom (t + 1)) out.new.items) }
        ensures none { OnErr result (out.new.items ≡ []) }
        ensures recorded { ⟦<Pool<P, R> as Stepper>⟧.asked self.new ≡ ⟦<Pool<P, R> as Stepper>⟧.asked self.old ++ at_moment t tasks.now }
        ensures lost { ⟦<Pool<P, R> as Stepper>⟧.losses self.new ≡ ⟦<Pool<P, R> as Stepper>⟧.losses self.old + (if is_lost result then 1 else 0) }
        ensures stays_lost { 0 < ⟦<Pool<P, R> as Stepper>⟧.losses self.old → result ≡ Err StepFault.WorkerLost }
        ensures workers { workers_of self.new ≡ workers_of self.old }
    {
        let result = if self.is_lost {
            Err(StepFault::WorkerLost)
        } else {
            answers(
                &self.rt,
                self.alloc,
                self.seats.as_mut_slice(),
                tasks,
                t,
                out,
            )
        };
        let lost = matches!(result, Err(StepFault::WorkerLost));
        self.is_lost = lost || self.is_lost;
        self.history.add(tasks, t, lost);
        result
    }

    /// It deals every step.
    fn deals(&self, _tasks: usize) -> bool
        ensures { result ≡ true }
    {
        true
    }

    fn evaluate(&mut self, task: &Task, t: u64) -> Driver {
        self.history.add_one(task, t);
        next(task, t)
    }

    /// It deals no jobs.
    fn takes_jobs(&self) -> bool
        ensures { result ≡ false }
    {
        false
    }

    /// It does them one after another, on the caller's thread.
    fn run_jobs<J: Job + Sync>(
        &mut self,
        alloc: Global,
        jobs: &[J],
    ) -> Result<Vec<J::Output>, AllocError> {
        let mut alone = Serial::new();
        let outputs = alone.run_jobs(alloc, jobs);
        self.history.append(&alone.into_record());
        outputs
    }

    ghost answer_current = { advance_current };

    ghost answer_pending = { advance_later };

    ghost answer_near = { advance_near };

    ghost answer_stays = { advance_stays };
}
