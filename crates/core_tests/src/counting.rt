//! A stepper that counts what it is asked, and may lose its worker.

ghost use Rattle.std.specs.Prelude.{◌≡◌, false, nat_lt};
ghost use Rattle.gatestep.specs.Step.{advance};
ghost use Rattle.gatestep.specs.kept.StepLaws.{advance_current, advance_later, advance_near, advance_stays};

use gatestep::{Driver, Job, Record, Serial, StepFault, Stepper, Task, next};
use std::alloc::{AllocError, Global};
use std::process::Abort;

/// Passes steps on to `Serial`, and counts them. It deals the steps of so many tasks or more, and makes so many steps before
/// its worker is lost; from then on it deals all steps, and each is answered so.
#[derive(Drop)]
pub struct Counting {
    serial: Serial,
    history: Record,
    is_lost: bool,
    least_dealt: usize,
    left: u64,
    steps: u64,
    stepped: u64,
    alone: u64,
    latest: u64,
    went_back: bool,
    ghost lost: { is_lost ≡ nat_lt 0 history.losses },
}

impl Counting {
    /// A stepper that loses no worker.
    pub fn new(least_dealt: usize) -> Counting {
        Counting::losing(least_dealt, u64::MAX)
    }

    /// A stepper that makes so many steps.
    pub fn losing(least_dealt: usize, left: u64) -> Counting {
        Counting {
            serial: Serial::new(),
            history: Record::new(),
            is_lost: false,
            least_dealt,
            left,
            steps: 0,
            stepped: 0,
            alone: 0,
            latest: 0,
            went_back: false,
        }
    }

    /// The steps that were made, the tasks in them all, and those that were asked alone.
    pub fn asked(&self) -> (u64, u64, u64) {
        (self.steps, self.stepped, self.alone)
    }

    /// Whether a task was asked alone at a moment before that of the one asked alone before it.
    pub fn went_back(&self) -> bool {
        self.went_back
    }

    /// How many tasks were asked. No step was without one, and where all are dealt none was asked alone.
    pub fn tasks(&self, rt: &impl Abort) -> u64 {
        assert!(rt; self.steps <= self.stepped, "a step without a task");
        assert!(rt; self.least_dealt > 0 || self.alone == 0, "asked alone");
        self.stepped.saturating_add(self.alone)
    }
}

impl Stepper for Counting {
    ghost answer = { advance };

    ghost asked = { λ s. s.history.asked };

    ghost losses = { λ s. s.history.losses };

    fn step(&mut self, tasks: &[Task], t: u64, out: &mut Vec<Driver>) -> Result<(), StepFault> {
        self.steps = self.steps.saturating_add(1);
        self.stepped = self.stepped.saturating_add(tasks.len() as u64);
        let lost = self.is_lost || self.left == 0;
        self.is_lost = lost;
        self.left = self.left.saturating_sub(1);
        self.history.add(tasks, t, lost);
        if lost {
            return Err(StepFault::WorkerLost);
        }
        match self.serial.step(tasks, t, out) {
            Ok(()) => Ok(()),
            Err(_) => Err(StepFault::OutOfMemory),
        }
    }

    fn deals(&self, tasks: usize) -> bool {
        self.is_lost || tasks >= self.least_dealt
    }

    fn evaluate(&mut self, task: &Task, t: u64) -> Driver {
        self.alone = self.alone.saturating_add(1);
        self.went_back = self.went_back || t < self.latest;
        self.latest = t;
        self.history.add_one(task, t);
        next(task, t)
    }

    fn takes_jobs(&self) -> bool {
        false
    }

    fn run_jobs<J: Job + Sync>(
        &mut self,
        alloc: Global,
        jobs: &[J],
    ) -> Result<Vec<J::Output>, AllocError> {
        let mut alone = Serial::new();
        let outputs = alone.run_jobs(alloc, jobs);
        self.history.append(&alone.into_record());
        outputs
    }

    ghost answer_current = { advance_current };

    ghost answer_pending = { advance_later };

    ghost answer_near = { advance_near };

    ghost answer_stays = { advance_stays };
}
