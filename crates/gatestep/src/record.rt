//! What a stepper was asked so far, for contracts alone.

ghost use Rattle.std.specs.Prelude.{◌≡◌, ℕ, ◌+◌, List, [], ◌∷◌, ◌++◌, if◌then◌else◌};
ghost use Rattle.std.specs.Borrow.{ftrue};
ghost use Rattle.gatestep.specs.Step.{Evaluation};
ghost use Rattle.gatestep.specs.Record.{at_moment};

use crate::task::Task;
use std::marker::{Model, Send, Sync};
use std::mem::size_of;
use std::slice;

const _: () = prove!(size_of::<Record>() == 0);

/// What a stepper was asked so far, in order, each task with its moment, and how many of its steps lost a worker. It
/// takes no bytes, contracts alone read it, and only `add` and `append` change it; `add_one` calls the first: a proof outside
/// this module that names it is to be refused in review.
#[derive(Drop)]
pub struct Record {
    seal: (),
    pub ghost asked: { List (Evaluation × ℕ) },
    pub ghost losses: { ℕ },
}

impl Model for Record {
    ghost also_owns = { λ _. ftrue };

    ghost also_shares = { λ _ _ _. ftrue };
}

impl Record {
    /// The record of a stepper that was asked nothing.
    pub fn new() -> Record
        ensures { (result.asked ≡ []) × (result.losses ≡ 0) }
    {
        Record { seal: () }
    }

    /// Adds the tasks of a step at the moment `t`, and a loss where the step lost a worker. Nothing runs.
    #[inline(always)]
    pub fn add(&mut self, tasks: &[Task], t: u64, lost: bool)
        ensures { (self.new.asked ≡ self.old.asked ++ at_moment t tasks.now) × (self.new.losses ≡ self.old.losses + (if lost then 1 else 0)) }
    {}

    /// Adds what another record has, after what is there. Nothing runs.
    #[inline(always)]
    pub fn append(&mut self, other: &Record)
        ensures { (self.new.asked ≡ self.old.asked ++ other.now.asked) × (self.new.losses ≡ self.old.losses + other.now.losses) }
    {}

    /// Adds a task that was asked by itself, at the moment `t`. Nothing runs.
    #[inline(always)]
    pub fn add_one(&mut self, task: &Task, t: u64)
        ensures asked { self.new.asked ≡ self.old.asked ++ (task.now, t) ∷ [] }
        ensures losses { self.new.losses ≡ self.old.losses }
    {
        self.add(slice::from_ref(task), t, false);
    }
}

// It owns nothing.
unsafe impl Send for Record {}

// A `&` to it holds nothing.
unsafe impl Sync for Record {}
