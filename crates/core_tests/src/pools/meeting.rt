//! Jobs that are done at once.

ghost use Rattle.std.specs.Prelude.{[], ⊤};

use crate::compare::equal;
use gatestep::{Job, Outcome, Record, Stepper};
use parstep::Parallel;
use std::sync::atomic::{AtomicU64, Ordering};
use std::thread;
use std::thread::Threads;

/// How often a job looks before it gives up. It has no handle to sleep with.
const MOST_LOOKS: u32 = 100_000_000;

/// Waits until two jobs have begun, and gives whether they have.
#[derive(Drop)]
struct Meeting<'a> {
    begun: &'a AtomicU64,
}

impl<'a> Meeting<'a> {
    fn is_met(&self) -> bool {
        for _ in 0..MOST_LOOKS {
            if self.begun.load(Ordering::SeqCst) == 2 {
                return true;
            }
        }
        false
    }
}

impl<'a> Job for Meeting<'a> {
    type Output = bool;

    ghost ready = { λ _ _. ⊤ };

    ghost work = { λ _ _. [] };

    ghost gives = { λ _ _ _. ⊤ };

    fn run(&self) -> Outcome<bool> {
        self.begun.fetch_add(1, Ordering::SeqCst);
        Outcome {
            output: Ok(self.is_met()),
            record: Record::new(),
        }
    }

    fn run_all<R: Threads + Sync>(
        rt: &R,
        threads: usize,
        jobs: &[Meeting<'a>],
        places: &mut [Option<Outcome<bool>>],
    ) {
        thread::for_each_mut(
            rt,
            places,
            threads,
            &|at, place| {
                *place = Some(jobs[at].run());
            },
        );
    }
}

// Each job ends only once the other has begun.
#[test]
fn two_jobs_wait_for_each_other(rt: HostRuntime) {
    let begun = AtomicU64::new(0);
    let jobs = [Meeting { begun: &begun }, Meeting { begun: &begun }];
    let outputs = Parallel::open(rt, 2)
        .run_jobs(rt.alloc(), &jobs)
        .expect(&rt, "the outputs of both jobs");
    equal(&rt, "met", outputs.as_slice(), [true, true].as_slice());
    drop(outputs);
}
