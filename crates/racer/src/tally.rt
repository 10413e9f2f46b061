//! What is counted in a race.

ghost use Rattle.std.specs.Prelude.{◌≡◌, ◌↔◌, ◌+◌, ◌<◌, ◌^◌, ℕ, IsTrue, IfErr, IfOk, false};
ghost use Rattle.gatestep.specs.Step.{Evaluation, State};
ghost use Rattle.design.specs.Keys.{netlist};
ghost use Rattle.scratch.specs.kept.Run.{IsRun, IsSomeRun};
ghost use Rattle.racer.specs.kept.Looks.{HasEnded, IsCounted, SameWaves};
ghost use Rattle.racer.specs.Tallies.{tally_of};
ghost use Rattle.racer.specs.kept.Tallies.{HasLooked, added, with_look};

use crate::settled::Settled;
use bench::Snapshot;
use design::Design;
use gatestep::StepFault;
use hub::{HubName, LookFault, Receipt, Viewer};
use scratch::wave_at;
use std::marker::Model;
use waveform::Run;

/// How many viewers have ended, how many looks there were, how many of these are wrong, and how many commits were submitted. A
/// number grows only by the thing that it counts: a viewer, what a look gave, the receipt of a commit, or another tally.
#[derive(Debug, Drop)]
pub struct Tally {
    viewers: u64,
    looks: u64,
    wrong: u64,
    submits: u64,
}

impl Model for Tally {
    ghost use Rattle.std.specs.Prelude.{◌≤◌};
    ghost use Rattle.racer.specs.Tallies.{TallyRecord, tally_of};

    ghost Value = { TallyRecord };

    ghost view = { λ t. tally_of t.viewers t.looks t.wrong t.submits };

    ghost invariant = { λ t. t.wrong ≤ t.looks };
}

impl Tally {
    /// Nothing is counted yet.
    pub fn new() -> Tally
        ensures { result ≡ tally_of 0 0 0 0 }
    {
        Tally {
            viewers: 0,
            looks: 0,
            wrong: 0,
            submits: 0,
        }
    }

    /// How many looks there were.
    pub fn looks(&self) -> u64
        ensures { result ≡ self.now.looks }
    {
        self.looks
    }

    /// How many looks are wrong.
    pub fn wrong(&self) -> u64
        ensures { result ≡ self.now.wrong }
    {
        self.wrong
    }

    /// A viewer has ended, and its hub with it. One of its looks counts as wrong, as long as one is right, where the editors were not
    /// told of all commits of the log, or where it saw what was not published.
    pub fn add_viewer<J: HubName>(&mut self, viewer: &Viewer<J>, hub: &Settled<J>)
        requires { self.old.viewers + 1 < 2 ^ 64 }
        ensures { HasEnded hub.now viewer.now self.old self.new }
    {
        let right = hub.accounts_for(viewer);
        self.viewers += 1;
        if !right && self.wrong < self.looks {
            self.wrong += 1;
        }
    }

    /// A commit was submitted, and has this receipt.
    pub fn add_submit<J: HubName>(&mut self, receipt: Receipt<J>)
        requires { self.old.submits + 1 < 2 ^ 64 }
        ensures { self.new ≡ record self.old { submits = self.old.submits + 1 } }
    {
        drop(receipt);
        self.submits += 1;
    }

    /// A look gave nothing, which is wrong.
    pub fn add_refused(&mut self, _fault: LookFault)
        requires { self.old.looks + 1 < 2 ^ 64 }
        ensures { self.new ≡ with_look false self.old }
    {
        self.add(false);
    }

    /// A look gave this snapshot, and this was found as the run of its design from scratch. It is wrong where the waves differ, or
    /// where the run was refused.
    pub fn add_look(&mut self, snapshot: &Snapshot, design: &Design, found: Result<Run, StepFault>)
        requires design { netlist design.now ≡ snapshot.now.design }
        requires run { IfOk found (IsSomeRun design.now) }
        requires room { self.old.looks + 1 < 2 ^ 64 }
        ensures looked { HasLooked self.old self.new }
        ensures counted { IsCounted design.now found self.old self.new }
    {
        let right = has_waves(snapshot, design, &found);
        self.add(right);
    }

    fn add(&mut self, right: bool)
        requires { self.old.looks + 1 < 2 ^ 64 }
        ensures { self.new ≡ with_look right self.old }
    {
        self.looks += 1;
        if !right {
            self.wrong += 1;
        }
    }

    /// What another tally has is counted here too.
    pub fn merge(&mut self, other: Tally)
        requires viewers { self.old.viewers + other.viewers < 2 ^ 64 }
        requires looks { self.old.looks + other.looks < 2 ^ 64 }
        requires submits { self.old.submits + other.submits < 2 ^ 64 }
        ensures { self.new ≡ added self.old other }
    {
        self.viewers += other.viewers;
        self.looks += other.looks;
        self.wrong += other.wrong;
        self.submits += other.submits;
    }
}

// Whether a snapshot has the waves of a run of its design from scratch.
fn has_waves(snapshot: &Snapshot, design: &Design, found: &Result<Run, StepFault>) -> bool
    requires design { netlist design.now ≡ snapshot.now.design }
    requires run { IfOk found.now (IsSomeRun design.now) }
    ensures refused { IfErr found.now (λ _. result ≡ false) }
    ensures waves { IfOk found.now (λ run. (answer : Evaluation → ℕ → State) → IsRun answer design.now run → (IsTrue result ↔ SameWaves (netlist design.now) answer)) }
{
    match found {
        Ok(run) => has_waves_of(snapshot, design, run),
        Err(_) => false,
    }
}

// Whether each net has the same wave in a snapshot as in a run of its design.
fn has_waves_of(snapshot: &Snapshot, design: &Design, run: &Run) -> bool
    requires design { netlist design.now ≡ snapshot.now.design }
    requires run { IsSomeRun design.now run.now }
    ensures { (answer : Evaluation → ℕ → State) → IsRun answer design.now run.now → (IsTrue result ↔ SameWaves (netlist design.now) answer) }
{
    'nets: for place in 0..design.net_count() {
        if snapshot.wave_at(place).changes() != wave_at(design, run, place).changes() {
            return false;
        }
    }
    true
}
