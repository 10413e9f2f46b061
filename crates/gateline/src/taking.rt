//! Lines that other threads found, taken for those of a gate.

ghost use Rattle.std.specs.Prelude.{◌≡◌, ◌++◌, true, suc, IfOk, OnOk, OnErr};
ghost use Rattle.std.specs.Option.{ForSome};
ghost use Rattle.gateline.specs.kept.KnownLines.{IsLineOf, known_trace, known_work};
ghost use Rattle.scratch.specs.Asked.{IsAskedInPart};
ghost use Rattle.waveform.specs.Changes.{wave_changes_below};
ghost use Rattle.waveform.specs.kept.Currents.{currents};

use crate::known_line::{KnownLine, Line};
use crate::reads::are_of;
use chunked::Shared;
use gatestep::{Job, Outcome, Record, Stepper};
use scratch::Cell;
use std::alloc::{AllocError, Global};
use std::thread::Threads;
use std::{slice, thread};
use waveform::Wave;

impl Line {
    /// The same line, shared. It fails where memory runs out.
    fn share(&self) -> Result<Line, AllocError>
        ensures { IfOk result (λ line. line ≡ self.now) }
    {
        let trace = self.trace.clone()?;
        let wave = match &self.wave {
            Some(wave) => Some(wave.clone()?),
            None => None,
        };
        Ok(Line { trace, wave })
    }
}

impl KnownLine {
    /// Whether it is the line of this gate along these waves, found from the moment `begin` on up to and with the moment `last`, both in
    /// time units.
    pub fn is_of(&self, cell: &Cell, waves: &[Shared<Wave>], begin: u64, last: u64) -> bool
        ensures { result ≡ true → IsLineOf self.now cell.now waves.now begin last }
    {
        if self.begin != begin || self.last != last {
            return false;
        }
        if self.kind != cell.kind() || !self.delays.is_same(cell.delays()) {
            return false;
        }
        are_of(self.reads.as_slice(), cell, waves)
    }

    /// The line; what was asked for it counts as asked of this stepper. It fails where memory runs out, and then a part of that does.
    pub fn take<S: Stepper>(&self, alloc: Global, stepper: &mut S) -> Result<Line, AllocError>
        requires none_lost { S.losses stepper.old ≡ 0 }
        ensures trace { IfOk result (λ line. line.trace ≡ known_trace S.answer self.now) }
        ensures wave { IfOk result (λ line. ForSome line.wave (λ wave. wave ≡ wave_changes_below (currents line.trace) (suc self.now.last))) }
        ensures asked { OnOk result (S.asked stepper.new ≡ S.asked stepper.old ++ known_work S.answer self.now) }
        ensures part { OnErr result (IsAskedInPart (S.asked stepper.old) (S.asked stepper.new) (known_work S.answer self.now)) }
        ensures lost { S.losses stepper.new ≡ S.losses stepper.old }
    {
        let job = KnownJob { known: self };
        let mut lines = stepper.run_jobs(alloc, slice::from_ref(&job))?;
        match lines.pop() {
            Some(line) => Ok(line),
            None => unreachable!(),
        }
    }
}

/// To take a line that is known: nothing is evaluated again.
#[derive(Clone, Copy)]
pub struct KnownJob<'a> {
    /// The line.
    pub known: &'a KnownLine,
}

impl<'a> Job for KnownJob<'a> {
    type Output = Line;

    ghost ready = { λ _ _. Unit {0} };

    ghost work = { λ answer job. known_work answer job.known.now };

    ghost gives = { λ answer job line. (line.trace ≡ known_trace answer job.known.now)
        × ForSome line.wave (λ wave. wave ≡ wave_changes_below (currents line.trace) (suc job.known.now.last)) };

    fn run(&self) -> Outcome<Line> {
        let mut asked = Record::new();
        asked.append(&self.known.history);
        Outcome {
            output: self.known.line.share(),
            record: asked,
        }
    }

    fn run_all<R: Threads + Sync>(
        rt: &R,
        threads: usize,
        jobs: &[KnownJob<'a>],
        places: &mut [Option<Outcome<Line>>],
    ) {
        thread::for_each_mut(
            rt,
            places,
            threads,
            &|at, place| {
                *place = Some(jobs[at].run());
            },
        );
    }
}
