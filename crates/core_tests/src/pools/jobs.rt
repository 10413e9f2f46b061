//! Jobs in threads beside those on the caller's.

ghost use Rattle.std.specs.Prelude.{◌≡◌, ◌<◌, ◌≤◌, length, map, All};
ghost use Rattle.fourstate.specs.declared.limits.TheConstants.{MAX_TIME};
ghost use Rattle.core_tests.specs.declared.pools.tasks.TheConstants.{MOMENT};
ghost use Rattle.gatestep.specs.Record.{at_moment};
ghost use Rattle.gatestep.specs.Tasks.{IsReady};
ghost use Rattle.parstep.specs.declared.limits.TheConstants.{MAX_WORKERS};

use super::tasks::{MOMENT, tasks};
use crate::compare::equal;
use crate::dice::Dice;
use gatestep::{Driver, Job, Outcome, Serial, Stepper, Task};
use parstep::Parallel;
use std::alloc::{AllocError, Global};
use std::process::Abort;
use std::thread;
use std::thread::Threads;

/// The steps of some tasks at one moment.
#[derive(Drop)]
struct Steps {
    alloc: Global,
    tasks: Vec<Task>,
}

impl Job for Steps {
    type Output = Vec<Driver>;

    ghost ready = { λ _ job. All (IsReady MOMENT) job.tasks.items };

    ghost work = { λ _ job. at_moment MOMENT job.tasks.items };

    ghost gives = { λ answer job output. output.items ≡ map (λ task. answer task MOMENT) job.tasks.items };

    fn run(&self) -> Outcome<Vec<Driver>> {
        let mut alone = Serial::new();
        let mut answers = Vec::new(self.alloc);
        match alone.step(self.tasks.as_slice(), MOMENT, &mut answers) {
            Ok(()) => Outcome {
                output: Ok(answers),
                record: alone.into_record(),
            },
            Err(_) => Outcome {
                output: Err(AllocError),
                record: alone.into_record(),
            },
        }
    }

    fn run_all<R: Threads + Sync>(
        rt: &R,
        threads: usize,
        jobs: &[Steps],
        places: &mut [Option<Outcome<Vec<Driver>>>],
    ) {
        thread::for_each_mut(
            rt,
            places,
            threads,
            &|at, place| {
                *place = Some(jobs[at].run());
            },
        );
    }
}

/// A job of some random tasks.
fn job(rt: &impl Abort, alloc: Global, dice: &mut Dice) -> Steps
    ensures { All (IsReady MOMENT) result.tasks.items }
{
    let count = dice.below(40);
    let tasks = tasks(rt, alloc, dice, count);
    Steps { alloc, tasks }
}

/// So many jobs.
fn jobs(rt: &impl Abort, alloc: Global, dice: &mut Dice, count: u64) -> Vec<Steps>
    ensures { All (λ job. All (IsReady MOMENT) job.tasks.items) result.items }
{
    let mut jobs = Vec::new(alloc);
    for _ in 0..count {
        if jobs.push(job(rt, alloc, dice)).is_err() {
            panic!(rt; "one job more");
        }
    }
    jobs
}

/// The answers of `Serial` to these tasks.
fn answers_alone(rt: &impl Abort, alloc: Global, tasks: &[Task]) -> Vec<Driver>
    requires { All (IsReady MOMENT) tasks.now }
{
    let mut answers = Vec::new(alloc);
    equal(
        rt,
        "step",
        Serial::new().step(tasks, MOMENT, &mut answers),
        Ok(()),
    );
    answers
}

/// The answers of `Serial` to the tasks of each job.
fn wanted(rt: &impl Abort, alloc: Global, jobs: &[Steps]) -> Vec<Vec<Driver>>
    requires { All (λ job. All (IsReady MOMENT) job.tasks.items) jobs.now }
{
    let mut all = Vec::new(alloc);
    for job in jobs {
        let answers = answers_alone(rt, alloc, job.tasks.as_slice());
        if all.push(answers).is_err() {
            panic!(rt; "the answers of one job more");
        }
    }
    all
}

/// So many jobs by so many workers have the answers of `Serial`, in the order of the jobs.
fn compare_jobs<R: Threads + Abort + Copy + Drop + Sync>(
    rt: R,
    alloc: Global,
    workers: u32,
    count: u64,
)
    requires some { 0 < workers }
    requires few { workers ≤ MAX_WORKERS }
{
    let jobs = jobs(&rt, alloc, &mut Dice(6), count);
    let wanted = wanted(&rt, alloc, jobs.as_slice());
    let outputs = Parallel::open(rt, workers)
        .run_jobs(alloc, jobs.as_slice())
        .expect(&rt, "the outputs of all jobs");
    equal(&rt, "outputs", outputs.as_slice(), wanted.as_slice());
    equal(&rt, "number of outputs", outputs.len() as u64, count);
    drop(outputs);
    drop(wanted);
    drop(jobs);
}

#[test]
fn jobs_by_several_workers(rt: HostRuntime) {
    assert!(&rt; Parallel::open(rt, 2).takes_jobs());
    compare_jobs(rt, rt.alloc(), 1, 9);
    compare_jobs(rt, rt.alloc(), 3, 0);
    compare_jobs(rt, rt.alloc(), 3, 50);
    compare_jobs(rt, rt.alloc(), 64, 7);
}
