//! Who evaluates gates.

ghost use Rattle.std.specs.Prelude.{◌≡◌, ℕ, ◌+◌, ◌<◌, ◌≤◌, List, [], ◌∷◌, ◌++◌, length, map, All, IfOk, OnOk, OnErr, if◌then◌else◌};
ghost use Rattle.std.specs.Bool.{OnFalse};
ghost use Rattle.std.specs.List.{AllZip, flat_map};
ghost use Rattle.fourstate.specs.declared.limits.TheConstants.{MAX_DELAY, MAX_TIME};
ghost use Rattle.gatestep.specs.Faults.{is_lost};
ghost use Rattle.gatestep.specs.Jobs.{IsPart};
ghost use Rattle.gatestep.specs.Record.{at_moment};
ghost use Rattle.gatestep.specs.Step.{State, Evaluation, due};
ghost use Rattle.gatestep.specs.Tasks.{IsReady, PendingFrom};
ghost use Rattle.gatestep.specs.kept.Tasks.{IsTask, PendingBefore, NothingDue, again};

use crate::driver::Driver;
use crate::fault::StepFault;
use crate::job::Job;
use crate::task::Task;
use std::alloc::{AllocError, Global};

/// Who evaluates gates. Generic code knows the answers by `answer` alone, and can't compute them by itself.
pub trait Stepper {
    /// The answer to a task at a moment. It belongs to the type, so no step changes it.
    ghost answer: { Evaluation → ℕ → State };

    /// All that was asked so far, in order, each task with its moment.
    ghost asked: { Self → List (Evaluation × ℕ) };

    /// How many steps answered that a worker was lost.
    ghost losses: { Self → ℕ };

    /// Evaluates each task at the moment `t`, in time units, and puts the answers into `out` in the order of the tasks;
    /// on an error `out` is empty. All tasks count as asked, on an error too.
    fn step(&mut self, tasks: &[Task], t: u64, out: &mut Vec<Driver>) -> Result<(), StepFault>
        requires empty { out.old.items ≡ [] }
        requires ready { All (IsReady t) tasks.now }
        requires within { 0 < length tasks.now → t ≤ MAX_TIME }
        ensures answers { OnOk result (out.new.items ≡ map (λ task. answer task t) tasks.now) }
        ensures later { OnOk result (All (PendingFrom (t + 1)) out.new.items) }
        ensures none { OnErr result (out.new.items ≡ []) }
        ensures recorded { asked self.new ≡ asked self.old ++ at_moment t tasks.now }
        ensures lost { losses self.new ≡ losses self.old + (if is_lost result then 1 else 0) };

    /// Whether a step of so many tasks is to be asked in one piece, since its tasks are dealt to others or a worker was
    /// lost. No answer depends on it.
    fn deals(&self, tasks: usize) -> bool
        ensures { OnFalse result (losses self.now ≡ 0) };

    /// Evaluates a task at the moment `t`, in time units, on the caller's thread, and never fails. It counts as asked.
    /// Who lost a worker can only be asked by a step.
    fn evaluate(&mut self, task: &Task, t: u64) -> Driver
        requires none_lost { losses self.old ≡ 0 }
        requires ready { IsReady t task.now }
        requires within { t ≤ MAX_TIME }
        ensures answer { result ≡ answer task.now t }
        ensures later { PendingFrom (t + 1) result }
        ensures recorded { asked self.new ≡ asked self.old ++ (task.now, t) ∷ [] }
        ensures lost { losses self.new ≡ losses self.old };

    /// Whether whole jobs are best asked of it, since it deals them to others. No answer depends on it.
    fn takes_jobs(&self) -> bool;

    /// Does each of these jobs, and gives what they give in the order of the jobs. All that they ask counts as asked, job after
    /// job. It fails where memory runs out, and then what was asked is a part of that.
    fn run_jobs<J: Job + Sync>(
        &mut self,
        alloc: Global,
        jobs: &[J],
    ) -> Result<Vec<J::Output>, AllocError>
        requires none_lost { losses self.old ≡ 0 }
        requires ready { All (J.ready answer) jobs.now }
        ensures outputs { IfOk result (λ outputs. AllZip (J.gives answer) jobs.now outputs.items) }
        ensures asked { OnOk result (asked self.new ≡ asked self.old ++ flat_map (J.work answer) jobs.now) }
        ensures part { OnErr result ((piece : List (Evaluation × ℕ)) × IsPart piece (flat_map (J.work answer) jobs.now) × (asked self.new ≡ asked self.old ++ piece)) }
        ensures lost { losses self.new ≡ losses self.old };

    /// An answer's current value is that of the task's state once a due event has become current.
    ghost answer_current: { (e : Evaluation) (t : ℕ) → (answer e t).current ≡ (due e.state t).current };

    /// A pending event of an answer lies after the moment.
    ghost answer_pending: { (e : Evaluation) (t : ℕ) → IsTask e → NothingDue t (answer e t) };

    /// A pending event of an answer lies at most the greatest delay after the moment, where the one of the task's state lay
    /// no later than the greatest delay after the moment before.
    ghost answer_near: { (e : Evaluation) (t : ℕ) → IsTask e → PendingBefore (t + MAX_DELAY) e.state → PendingBefore (t + 1 + MAX_DELAY) (answer e t) };

    /// An answer that is asked again later with the same inputs, while nothing in it is due, stays.
    ghost answer_stays: { (e : Evaluation) (t u : ℕ) → t < u → NothingDue u (answer e t) → answer (again e (answer e t)) u ≡ answer e t };
}
