//! Work of many moments.

ghost use Rattle.std.specs.Prelude.{◌≡◌, ◌<◌, ℕ, List, Option, length, slice_index_or, All, IfOk, OnErr, OnOk};
ghost use Rattle.std.specs.Thread.{IsSync};
ghost use Rattle.gatestep.specs.Jobs.{IsBeginning};
ghost use Rattle.gatestep.specs.kept.Jobs.{IsDone};
ghost use Rattle.gatestep.specs.declared.job.Outcome.{Outcome};
ghost use Rattle.gatestep.specs.Step.{Evaluation, State, advance};

use crate::record::Record;
use std::alloc::AllocError;
use std::thread::Threads;

/// What a job leaves.
#[derive(Drop)]
pub struct Outcome<T> {
    /// What it gives; none where memory ran out.
    pub output: Result<T, AllocError>,
    /// What it asked.
    pub record: Record,
}

/// Work that asks of gates at moments of its own, one after another. It evaluates them by itself, so it can be done in any
/// thread; what it gives and asks depends on the answers alone.
pub trait Job {
    /// What it gives.
    type Output: Send + Drop;

    /// What has to hold before it is done, where these are the answers.
    ghost ready: { (Evaluation → ℕ → State) → Self → Type 0 };

    /// What it asks, in order, each task with its moment.
    ghost work: { (Evaluation → ℕ → State) → Self → List (Evaluation × ℕ) };

    /// What holds of what it gives.
    ghost gives: { (Evaluation → ℕ → State) → Self → Self.Output → Type 0 };

    /// Does it. It fails where memory runs out, and then it asked a beginning of what it asks.
    fn run(&self) -> Outcome<Self::Output>
        requires ready { ready advance self.now }
        ensures gives { IfOk result.output (gives advance self.now) }
        ensures asked { OnOk result.output (result.record.asked ≡ work advance self.now) }
        ensures part { OnErr result.output (IsBeginning result.record.asked (work advance self.now)) }
        ensures lost { result.record.losses ≡ 0 };

    /// Does each of these jobs, in at most so many threads that are started for it, and leaves its outcome in its place. Each
    /// type of jobs writes it by itself, with `std::thread::for_each_mut` over its own `run`: an `impl` of a trait that knows
    /// of a job only this bound, as a stepper's, can't do it in another thread.
    fn run_all<R: Threads + Sync>(
        rt: &R,
        threads: usize,
        jobs: &[Self],
        places: &mut [Option<Outcome<Self::Output>>],
    )
        requires shared { IsSync R.row }
        requires some { 0 < threads }
        requires ready { All (ready advance) jobs.now }
        requires places { length places.old ≡ length jobs.now }
        ensures { (at : ℕ) (job : Self) (place : Option (Outcome Self.Output)) → at < length jobs.now → IsDone (gives advance) (work advance) (slice_index_or jobs.now at job) (slice_index_or places.new at place) };
}
